//! The right to add to a history.
ghost use Rattle.std.specs.Prelude.{◌≡◌, ◌+◌, ◌-◌, ◌^◌, [], false, length, MatchBool};
ghost use mathlib.Core.List.{IsPrefix};
ghost use Rattle.tf_history.specs.Rule.{counts};
ghost use Rattle.tf_history.specs.Written.{nothing_written, written};
ghost use Rattle.tf_journal.specs.Lawful.{IsLawful};

use crate::adding::add;
use crate::front::Front;
use crate::law::{Addition, Chunk, Law};
use crate::name::HistoryName;
use logbook::{Pen, Seen};
use std::marker::Model;
use std::snapshot::Snapshot;
use tf_journal::Ledger;

/// The right to add to a history, with its newest front. Contracts see its journal, and in how many publications it came.
///
/// Who has it alone adds to the history, so the front is the whole history.
#[derive(Drop)]
pub struct Writer<H: HistoryName> {
    publications: u64,
    /// It counts them.
    pen: Pen,
    /// All of the history.
    seen: Seen<Chunk, u64, Law>,
    front: Front<H>,
}

impl<H: HistoryName> Model for Writer<H> {
    ghost use Rattle.std.specs.Prelude.{◌≡◌, length};
    ghost use Rattle.tf_history.specs.History.{entries_of};
    ghost use Rattle.tf_history.specs.Rule.{counts};
    ghost use Rattle.tf_history.specs.Written.{Written, written};

    ghost Value = { Written };

    ghost view = { λ w. written w.front w.publications };

    ghost invariant = { λ w. (w.publications ≡ length w.seen.log) × (w.pen.nib ≡ counts w.publications) × (w.pen.book ≡ H.history) × (w.seen.book ≡ H.history) × (w.front ≡ entries_of w.seen.log) };
}

impl<H: HistoryName> Writer<H> {
    /// The right to add to a history in which nothing was published.
    pub(crate) fn first(pen: Pen, seen: Seen<Chunk, u64, Law>) -> Writer<H>
        requires books { (pen.book ≡ H.history) × (seen.book ≡ H.history) }
        requires empty { (seen.log ≡ []) × (pen.nib ≡ counts 0) }
        ensures { result ≡ nothing_written }
    {
        Writer {
            publications: 0,
            pen,
            front: Front::of(0, 0, seen.again()),
            seen,
        }
    }

    /// The whole history. It takes no memory.
    pub fn front(&self) -> &Front<H>
        ensures { result.now ≡ self.now.journal }
    {
        &self.front
    }

    /// Adds a publication to the history, of what a ledger's journal has more than it.
    ///
    /// It takes no memory. A publication may have nothing new. False, and nothing is changed, where there were as many
    /// publications as can be counted, 2^64 - 1, and only there.
    pub fn extend<L: Ledger>(&mut self, ledger: &L) -> bool
        requires begins { IsPrefix self.old.journal (L.journal ledger.now) }
        requires lawful { IsLawful (L.journal ledger.now) }
        ensures extended { MatchBool result (self.new ≡ written (L.journal ledger.now) (self.old.publications + 1)) (self.new ≡ self.old) }
        ensures full { result ≡ false → self.old.publications ≡ 2 ^ 64 - 1 }
    {
        if self.publications == u64::MAX {
            return false;
        }
        let addition = Addition {
            from: self.front.len(),
            whole: Snapshot::of(ledger),
        };
        add(&mut self.seen, &mut self.pen, &addition);
        self.publications += 1;
        self.front = Front::of(
            self.publications,
            ledger.mark().length as u64,
            self.seen.again(),
        );
        true
    }
}
