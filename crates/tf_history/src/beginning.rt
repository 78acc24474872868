//! The first entries of a journal that was published.
ghost use Rattle.std.specs.Prelude.{◌≡◌, ◌<◌, ◌≤◌, false, length, take, MatchBool};
ghost use mathlib.Core.List.{IsPrefix};
ghost use Rattle.tf_history.specs.Beginning.{OneBegins, longer};

use crate::front::Front;
use crate::name::HistoryName;
use std::marker::Model;

/// The first entries of a journal that was published. Contracts see it as these entries.
#[derive(Drop)]
pub struct Beginning<H: HistoryName> {
    front: Front<H>,
    count: u64,
}

impl<H: HistoryName> Model for Beginning<H> {
    ghost use Rattle.std.specs.Prelude.{◌≤◌, List, length, take};
    ghost use Rattle.tf_journal.specs.declared.entry.Entry.{Entry};

    ghost Value = { List Entry };

    ghost view = { λ b. take b.count b.front };

    ghost invariant = { λ b. b.count ≤ length b.front };
}

impl<H: HistoryName> Beginning<H> {
    /// The first `count` entries of a front, or all where it has fewer. It takes no memory.
    pub fn new(front: &Front<H>, count: u64) -> Beginning<H>
        ensures { result ≡ take count front.now }
    {
        Beginning {
            front: front.again(),
            count: count.min(front.len()),
        }
    }

    /// How many entries it has.
    pub fn len(&self) -> u64
        ensures { result ≡ length self.now }
    {
        self.count
    }

    /// Shows that of two beginnings one begins the other. It does nothing.
    pub fn compare(&self, other: &Beginning<H>)
        ensures { OneBegins self.now other.now }
    {
        self.front.compare(&other.front);
    }

    /// Shows that this begins a front that isn't shorter. It does nothing.
    fn begins(&self, front: &Front<H>)
        requires { length self.now ≤ length front.now }
        ensures { IsPrefix self.now front.now }
    {
        self.front.compare(front);
    }

    /// Makes this the whole of a front. False, and nothing is changed, where the front is shorter. It takes no memory.
    pub fn reach(&mut self, front: &Front<H>) -> bool
        ensures reached { MatchBool result ((self.new ≡ front.now) × IsPrefix self.old front.now) (self.new ≡ self.old) }
        ensures shorter { result ≡ false → length front.now < length self.old }
    {
        if front.len() < self.count {
            return false;
        }
        self.begins(front);
        *self = Beginning::new(front, front.len());
        true
    }

    /// Makes this the first `count` entries of a front, or all where it has fewer, if these are more than it has. It takes
    /// no memory.
    pub fn learn(&mut self, front: &Front<H>, count: u64)
        ensures longer { self.new ≡ longer self.old (take count front.now) }
        ensures one { OneBegins self.old (take count front.now) }
    {
        let other = Beginning::new(front, count);
        self.compare(&other);
        if self.len() < other.len() {
            *self = other;
        }
    }
}
