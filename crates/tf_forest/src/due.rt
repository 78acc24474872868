//! What is due of a forest: pending transfers whose time is over.
ghost use Rattle.std.specs.Prelude.{◌≡◌, length, min};
ghost use Rattle.tf_journal.specs.Due.{due, next_due_of};

use crate::Forest;
use std::alloc::Allocator;
use tf_records::Transfer;
use tf_rows::{AllRows, due_count, next_due};

impl<S: AllRows + Drop, A: Allocator + Copy> Forest<S, A> {
    /// The next pending transfer to expire: of those that are open, have a timeout and whose time is over at this moment,
    /// the one that expires first; of equal ones, the one stored first.
    ///
    /// It takes a search of a tree and a look-up in expiry, and one of each more for each transfer that was posted, voided or
    /// expired since `keep` was last called and stands in front of it, and looks the transfer up in one row. It takes no memory.
    pub fn next_due(&self, at: u64) -> Option<Transfer>
        ensures { result ≡ next_due_of self.now.journal at }
    {
        next_due(self.rows(), self.due_set(), self.floor(), at)
    }

    /// How many transfers are due at this moment, as `next_due` has it, counted up to `most`: by a search of a tree and a
    /// look-up in expiry for each. It takes no memory.
    pub fn due_count(&self, at: u64, most: u32) -> u32
        ensures { result ≡ min most (length (due self.now.journal at)) }
    {
        due_count(self.rows(), self.due_set(), self.floor(), at, most)
    }
}
