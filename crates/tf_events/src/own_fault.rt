//! An event of a chain that failed by itself.

use tf_records::Outcome;

/// The first event of a chain that isn't ok.
#[derive(Clone, Copy, Drop)]
pub struct OwnFault<E> {
    /// The event's place in its batch, from 0.
    pub index: u32,
    /// When it was judged, in nanoseconds.
    pub timestamp: u64,
    /// The event.
    pub event: E,
    /// Its own result.
    pub outcome: Outcome,
}
