//! What joins two parts.

/// How two parts are joined.
#[derive(Clone, Copy)]
pub(crate) enum Operation {
    /// The timestamps of both, each once.
    Union,
    /// The timestamps that are in both.
    Intersection,
}
