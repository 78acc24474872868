//! The entries of rows that lie side by side.

/// The entries of rows that lie side by side, in the order of the rows: a value each, or None for a tombstone.
#[derive(Drop)]
pub enum Column<'a, V> {
    /// The same for each row.
    Same(Option<&'a V>),
    /// One for each row.
    Each(&'a [Option<V>]),
}
