//! How many entries were stored, together with the shares that count them.
ghost use Rattle.std.specs.Prelude.{◌≡◌, ◌+◌, ◌<◌, ◌^◌, sum, vec_len};

use crate::{Share, StoreName};
use std::alloc::Allocator;
use std::marker::Model;
use std::sync::ledger::Book;

/// How many entries of the journal are no failed ids. Contracts see it as that number, which is the sum of all shares.
#[derive(Drop)]
pub(crate) struct Tally<S: StoreName> {
    pub(crate) count: u64,
    pub(crate) book: Book<S>,
}

impl<S: StoreName> Model for Tally<S> {
    ghost use Rattle.std.specs.Prelude.{ℕ, ◌≡◌};

    ghost Value = { ℕ };

    ghost view = { λ t. t.count };

    ghost invariant = { λ t. t.book.total ≡ t.count };
}

impl<S: StoreName> Tally<S> {
    /// A tally of nothing.
    pub(crate) fn new(book: Book<S>) -> Tally<S>
        requires { book.total ≡ 0 }
        ensures { result ≡ 0 }
    {
        Tally { count: 0, book }
    }

    /// The number.
    pub(crate) fn count(&self) -> u64
        ensures { result ≡ self.now }
    {
        self.count
    }

    /// Counts further entries, in a share too.
    pub(crate) fn add(&mut self, share: &mut Share<S>, more: u64)
        requires { self.old + more < 2 ^ 64 }
        ensures count { self.new ≡ self.old + more }
        ensures share { share.new ≡ share.old + more }
    {
        self.book.audit(&mut share.token);
        self.book.add(&mut share.token, more);
        self.count += more;
        share.count += more;
    }
}

impl<S: StoreName> Tally<S> {
    /// The sum of all shares, which is the number that is counted.
    pub(crate) fn gather<A: Allocator>(&mut self, shares: Vec<Share<S>, A>) -> u64
        requires { (0 < vec_len shares) × (vec_len shares ≡ S.parts) }
        ensures sum { result ≡ sum shares.items }
        ensures count { result ≡ self.old }
        ensures same { self.new ≡ self.old }
    {
        let mut shares = shares;
        let Some(mut all) = shares.pop() else {
            unreachable!()
        };
        while let Some(share) = shares.pop() {
            self.book.audit(&mut all.token);
            let Share { count, token } = share;
            all.token.merge(token);
            self.book.audit(&mut all.token);
            all.count += count;
        }
        self.book.audit(&mut all.token);
        all.count
    }
}
