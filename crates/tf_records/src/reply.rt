//! What a batch answers.

ghost use Rattle.std.specs.Prelude.{◌≡◌, ◌↔◌, IsTrue, [], length};

use crate::Outcome;
use std::alloc::Allocator;
use std::marker::Model;

/// A failed event of a batch.
#[derive(Clone, Copy, Debug, PartialEq, Eq)]
pub struct Failure {
    /// The event's place in its batch, from 0, below `BATCH_MAX`.
    pub index: u32,
    /// Why the event isn't stored.
    pub outcome: Outcome,
}

/// The failed events of a batch, in the order of their places. Events that aren't named are stored.
///
/// Contracts see it as a list of `Failure`.
#[derive(Debug, Drop)]
pub struct Reply<A: Allocator> {
    failures: Vec<Failure, A>,
}

impl<A: Allocator> Model for Reply<A> {
    ghost use Rattle.std.specs.Prelude.{List};
    ghost use Rattle.tf_records.specs.declared.reply.Failure.{Failure};

    ghost Value = { List Failure };

    ghost view = { λ r. r.failures.items };
}

impl<A: Allocator> Reply<A> {
    /// The reply of a batch whose events are all stored. Takes no memory.
    pub fn new(alloc: A) -> Self
        ensures { result ≡ [] }
    {
        Reply {
            failures: Vec::new(alloc),
        }
    }

    /// The reply with these failures. Takes no memory.
    pub fn from_vec(failures: Vec<Failure, A>) -> Self
        ensures { result ≡ failures.items }
    {
        Reply { failures }
    }

    /// Gives the failures back. Takes no memory.
    pub fn into_vec(self) -> Vec<Failure, A>
        ensures { result.items ≡ self }
    {
        let Reply { failures } = self;
        failures
    }

    /// The failures in order. Takes no memory.
    pub fn as_slice(&self) -> &[Failure]
        ensures { result.now ≡ self.now }
    {
        self.failures.as_slice()
    }

    /// How many events failed.
    pub fn len(&self) -> usize
        ensures { result ≡ length self.now }
    {
        self.failures.len()
    }

    /// Whether no event failed.
    pub fn is_empty(&self) -> bool
        ensures { IsTrue result ↔ (self.now ≡ []) }
    {
        self.failures.is_empty()
    }
}
