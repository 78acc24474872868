//! All shares of a store, added up.
ghost use Rattle.std.specs.Prelude.{◌≡◌, ◌<◌, sum, vec_len};
ghost use Rattle.tf_store.specs.Book.{book_of};

use crate::{Share, Store, StoreName, StoredCopies, StoredForest};
use std::alloc::Allocator;

impl<F: StoredForest + Drop, C: StoredCopies + Drop, A: Allocator + Copy, S: StoreName> Store<
    F,
    C,
    A,
    S,
> {
    /// The sum of all shares that the store gave when it was made, which is its book. It uses the shares up, and changes
    /// nothing else. It takes no memory.
    pub fn gather<B: Allocator>(&mut self, shares: Vec<Share<S>, B>) -> u64
        requires { (0 < vec_len shares) × (vec_len shares ≡ S.parts) }
        ensures sum { result ≡ sum shares.items }
        ensures book { result ≡ book_of self.old.forest.journal }
        ensures same { self.new ≡ self.old }
    {
        self.tally.gather(shares)
    }
}
