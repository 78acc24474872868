//! The first timestamp of a part of a scan.

/// What is known of the first timestamp of a part.
#[derive(Clone, Copy)]
pub(crate) enum Head {
    /// It wasn't read.
    Unread,
    /// It was read, and is still to be given.
    At(u64),
    /// The part was found at its end.
    End,
}
