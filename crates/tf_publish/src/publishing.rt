//! The tables that a publish pushes.
ghost use Rattle.std.specs.Prelude.{◌≡◌, ◌+◌, ◌-◌, ◌<◌, ◌≤◌, false, None, Ok, IfErr, IfNone, IfOk, IfSome, IsTrue, OnOk};
ghost use Rattle.tf_rows.specs.Counts.{IsReady, Loses, counted, with_lost};
ghost use Rattle.tf_rows.specs.Parts.{parts_of, value_of_part};
ghost use Rattle.tf_publish.specs.Publish.{entries_waiting, tables_needed};
ghost use Rattle.tf_publish.specs.Partly.{CountsParts, PublishesParts};
ghost use Rattle.tf_publish.specs.Tables.{Publishes};
ghost use Rattle.tf_manifest.specs.View.{content_in};
ghost use Rattle.tf_manifest.specs.declared.row.Row.{Row};
ghost use Rattle.tf_table.specs.declared.key.Key.{Key};
ghost use Rattle.tf_records.specs.declared.refusal.Refusal.{Refusal};

use crate::counted::CountedTables;
use crate::pushing::{push_rows, tables_needed};
use crate::{Prepared, Rows};
use std::alloc::Allocator;
use std::sync::Wait;
use tf_records::Refusal;
use tf_registry::Naming;
use tf_rows::SealRows;

/// Whether the tables that a publish pushes fit under the limit. None always do.
pub fn has_room<F: SealRows<A> + Drop, A: Allocator + Copy, N: Naming>(rows: &Rows<F, A, N>) -> bool
    ensures fits { IsTrue result → rows.now.published.tables.pushed.count + tables_needed (F.entries rows.now.fresh) rows.now.published.tables ≤ rows.now.published.tables.pushed.limit }
    ensures idle { entries_waiting (F.entries rows.now.fresh) ≡ 0 → IsTrue result }
    ensures full { result ≡ false → rows.now.published.tables.pushed.limit < rows.now.published.tables.pushed.count + tables_needed (F.entries rows.now.fresh) rows.now.published.tables }
{
    let manifest = rows.published.manifest();
    manifest.limit() - manifest.pushed() >= tables_needed(&rows.fresh, manifest)
}

/// Seals each mutable table that has an entry, and puts it in front of its row's sealed tables in this copy of these. Just what
/// was pushed onto the copy is counted.
///
/// The only refusal is `NoMemory`. Whatever it answers, the rows have what they had.
fn push_onto<R: Wait, F: SealRows<A> + Drop, A: Allocator + Copy, N: Naming>(
    rt: &R,
    rows: &mut Rows<F, A, N>,
    alloc: A,
    next: &mut CountedTables<A, N>,
) -> Result<(), Refusal>
    requires copy { next.old ≡ counted rows.old.published }
    requires room { rows.old.published.tables.pushed.count + tables_needed (F.entries rows.old.fresh) rows.old.published.tables ≤ rows.old.published.tables.pushed.limit }
    ensures content { OnOk result ((r : Row) (key : Key) → content_in next.new.tables r key ≡ value_of_part (parts_of (F.entries rows.old.fresh) rows.old.published.tables r) key) }
    ensures publishes { OnOk result (Publishes (F.entries rows.old.fresh) (counted rows.old.published) next.new) }
    ensures count { OnOk result (next.new.tables.pushed.count ≡ rows.old.published.tables.pushed.count + tables_needed (F.entries rows.old.fresh) rows.old.published.tables) }
    ensures sealed { OnOk result (next.new.sealed ≡ rows.old.published.counts.rows_sealed + entries_waiting (F.entries rows.old.fresh)) }
    ensures ready { OnOk result (IsReady rows.new.published next.new) }
    ensures fresh { F.entries rows.new.fresh ≡ F.entries rows.old.fresh }
    ensures loses { Loses rows.old.published rows.new.published (tables_needed (F.entries rows.old.fresh) rows.old.published.tables) }
    ensures parts { PublishesParts (F.entries rows.old.fresh) (counted rows.old.published) next.new }
    ensures counts { rows.new.published ≡ with_lost (next.new.tables.pushed.count - rows.old.published.tables.pushed.count) (next.new.held - rows.old.published.counts.rows_held) rows.old.published }
    ensures refusal { IfErr result (λ refusal. refusal ≡ Refusal.NoMemory) }
{
    // Only the count tells what it bounds.
    let _publishes = rows.published.publishes();
    let answer = push_rows(rt, &mut rows.fresh, alloc, next);
    rows.published.count_pushed(next);
    answer
}

/// Seals each mutable table that has an entry, and puts it in front of its row's sealed tables in a copy of these. Where a
/// row is full, its run that is to be merged next is merged in the copy first. None where no mutable table has an entry: then
/// nothing is pushed, and no memory is taken.
///
/// The only refusal is `NoMemory`. Whatever it answers, the rows have what they had. What was pushed is counted, all its entries as
/// sealed and as held: after a refusal that is what some part of a publish pushes, row by row, and contracts see of no registry how
/// much it has.
pub fn prepare_rows<R: Wait, F: SealRows<A> + Drop, A: Allocator + Copy, N: Naming>(
    rt: &R,
    rows: &mut Rows<F, A, N>,
    alloc: A,
) -> Result<Option<Prepared<A, N>>, Refusal>
    requires { rows.old.published.tables.pushed.count + tables_needed (F.entries rows.old.fresh) rows.old.published.tables ≤ rows.old.published.tables.pushed.limit }
    ensures content { IfOk result (λ found. IfSome found (λ p. (r : Row) (key : Key) → content_in p.tables r key ≡ value_of_part (parts_of (F.entries rows.old.fresh) rows.old.published.tables r) key)) }
    ensures publishes { IfOk result (λ found. IfSome found (λ p. Publishes (F.entries rows.old.fresh) (counted rows.old.published) p)) }
    ensures count { IfOk result (λ found. IfSome found (λ p. p.tables.pushed.count ≡ rows.old.published.tables.pushed.count + tables_needed (F.entries rows.old.fresh) rows.old.published.tables)) }
    ensures sealed { IfOk result (λ found. IfSome found (λ p. p.sealed ≡ rows.old.published.counts.rows_sealed + entries_waiting (F.entries rows.old.fresh))) }
    ensures ready { IfOk result (λ found. IfSome found (IsReady rows.new.published)) }
    ensures none { IfOk result (λ found. IfNone found (entries_waiting (F.entries rows.old.fresh) ≡ 0)) }
    ensures idle { entries_waiting (F.entries rows.old.fresh) ≡ 0 → result ≡ Ok None }
    ensures still { entries_waiting (F.entries rows.old.fresh) ≡ 0 → rows.new.published ≡ rows.old.published }
    ensures fresh { F.entries rows.new.fresh ≡ F.entries rows.old.fresh }
    ensures loses { Loses rows.old.published rows.new.published (tables_needed (F.entries rows.old.fresh) rows.old.published.tables) }
    ensures parts { CountsParts (F.entries rows.old.fresh) rows.old.published rows.new.published }
    ensures refusal { IfErr result (λ refusal. refusal ≡ Refusal.NoMemory) }
{
    if tables_needed(&rows.fresh, rows.published.manifest()) == 0 {
        return Ok(None);
    }
    let mut next = match rows.published.copy(alloc) {
        Ok(next) => next,
        Err(refusal) => return Err(refusal),
    };
    match push_onto(rt, rows, alloc, &mut next) {
        Ok(()) => Ok(Some(Prepared::new(next))),
        Err(refusal) => {
            drop(next);
            Err(refusal)
        }
    }
}
