//! What publishes and installs count.

/// How many entries were sealed, how many pushed tables have, and how many publishes there were.
///
/// A sealed entry lies in no more than 21 pushed tables: the one that it was sealed into, and at most one of each level
/// that merges reach.
#[derive(Clone, Copy, Debug)]
pub struct Counts {
    /// How many entries of mutable tables were sealed. A publish adds those of all its mutable tables, or, where it is
    /// refused or isn't settled, those of the tables that it pushed.
    pub rows_sealed: u128,
    /// How many entries all tables that were pushed have, at most 21 times as many as were sealed.
    pub rows_held: u128,
    /// How many publishes pushed a table, be it that they were refused afterwards.
    pub publishes: u64,
}
