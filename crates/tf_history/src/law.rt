//! The rule of a history, and what a step adds to it.
use logbook::{Gain, Plain, Rule};
use std::collections::LinkedList;
use std::snapshot::Snapshot;
use tf_journal::{Entry, Ledger};

/// What one publication added. No value of it is made.
pub struct Chunk {
    pub entries: LinkedList<Entry>,
}

/// The rule of a history: its first word is the number of publications, and its journal is lawful.
pub struct Law;

impl Rule<Chunk, u64> for Law {
    ghost use Rattle.std.specs.Prelude.{[]};
    ghost use base.Fml.{ftrue};
    ghost use Rattle.tf_history.specs.Rule.{IsKept};

    ghost holds = { λ cells log. IsKept cells log };

    ghost first = { [] };

    ghost hinted = { λ n log. Unit {0} };

    ghost shows = { λ log. [] };

    ghost keeps = { λ names log. ftrue };

    ghost moves = { λ ask before after answer. Unit {0} };
}

/// Who adds trades nothing.
pub struct Nothing;

impl Gain<Chunk, u64> for Nothing {
    ghost use base.Fml.{ftrue};

    ghost after = { λ names about answer. ftrue };
}

/// What a step asks for that adds a publication.
pub struct Add;

/// What a publication adds: what a ledger's journal has after its first `from` entries.
#[derive(Drop)]
pub struct Addition<L: Ledger> {
    pub from: u64,
    pub whole: Snapshot<L>,
}

impl<L: Ledger> Plain<Addition<L>, Chunk, u64> for Add {
    ghost use Rattle.std.specs.Prelude.{None, drop};

    ghost ask = { λ addition. record { entries = drop addition.from (L.journal addition.whole.value) } };

    ghost state = { λ addition. None };
}
