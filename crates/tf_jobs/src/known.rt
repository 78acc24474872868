//! What a seat's pass knows.
use std::collections::LinkedList;

/// What a pass has offered and taken, how many parts of the right to know all of it has, and how many parts there are. It stands
/// in proofs alone, and no value of it is made.
pub struct Known<T> {
    pub parts: u64,
    pub whole: u64,
    pub offered: LinkedList<T>,
    pub taken: LinkedList<T>,
}
