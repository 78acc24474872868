//! Tables of one row each, and rows that gain them.
ghost use Rattle.std.specs.Prelude.{◌≡◌, ◌+◌, ◌<◌, [], length, slice_index_or, IfOk, IsTrue, OnErr};
ghost use Rattle.tf_registry.specs.Limit.{one_more};
ghost use Rattle.tf_registry.specs.Row.{is_nil, weight};
ghost use Rattle.tf_manifest.specs.View.{AreLight};

use std::alloc::Allocator;
use std::sync::Wait;
use tf_btree::Tree;
use tf_manifest::{KindRows, RowValue};
use tf_mutable::{MutableTable, seal};
use tf_records::Refusal;
use tf_registry::{Body, Held, Naming, Pushes, TableRef, Tables};
use tf_table::Key;

/// A key with this value, of a record with timestamp 1.
pub fn key(value: u64) -> Key {
    Key {
        value: value as u128,
        timestamp: 1,
    }
}

/// A table of level 0 with one row, the key of a number with this entry.
pub fn table<V: RowValue, A: Allocator + Clone + Copy>(
    alloc: A,
    number: u64,
    entry: Option<V>,
    oldest: bool,
) -> Result<Held<V, A>, Refusal> {
    let mut tree = Tree::new_in(alloc);
    let _ = MutableTable::put(&mut tree, key(number), entry)?;
    let sealed = seal(alloc, &tree)?;
    Body::new(sealed, 0, oldest).hold(alloc)
}

/// Whether a table can be pushed and put in front of those of a row.
fn has_room<V: RowValue, A: Allocator, N: Naming>(
    row: &Tables<V, A, N>,
    pushes: &Pushes,
    table: &Body<V, A>,
) -> bool
    ensures few { IsTrue result → length row.now < 64 }
    ensures light { IsTrue result → weight row.now < 1000 }
    ensures limit { IsTrue result → pushes.now.count < pushes.now.limit }
    ensures level { IsTrue result → table.now.level ≡ 0 }
    ensures oldest { IsTrue result → table.now.oldest ≡ is_nil row.now }
{
    row.len() < 64
        && row.weight() < 1000
        && !pushes.is_full()
        && table.level() == 0
        && table.is_oldest() == row.is_empty()
}

/// Pushes a table that is to be put in front of those of one of the rows of a kind.
pub fn push<V: RowValue, A: Allocator + Clone, N: Naming, R: Wait>(
    rt: &R,
    rows: &KindRows<V, A, N>,
    at: usize,
    pushes: &mut Pushes,
    table: Held<V, A>,
) -> Result<TableRef<V, A, N>, Held<V, A>>
    requires at { at < length rows.now }
    ensures few { IfOk result (λ pushed. length (slice_index_or rows.now at []) < 64) }
    ensures light { IfOk result (λ pushed. weight (slice_index_or rows.now at []) < 1000) }
    ensures level { IfOk result (λ pushed. pushed.table.level ≡ 0) }
    ensures oldest { IfOk result (λ pushed. pushed.table.oldest ≡ is_nil (slice_index_or rows.now at [])) }
    ensures room { IfOk result (λ pushed. pushes.old.count < pushes.old.limit) }
    ensures counted { IfOk result (λ pushed. pushes.new ≡ one_more pushes.old) }
    ensures err { OnErr result (pushes.new ≡ pushes.old) }
{
    if has_room(rows.row(at), pushes, &table) {
        rows.push(rt, pushes, table)
    } else {
        Err(table)
    }
}

/// Puts a table in front of one of the rows of a kind. One more was pushed than these.
pub fn put_in_front<V: RowValue, A: Allocator, N: Naming>(
    rows: &mut KindRows<V, A, N>,
    at: usize,
    pushes: Pushes,
    pushed: TableRef<V, A, N>,
)
    requires at { at < length rows.old }
    requires room { length (slice_index_or rows.old at []) < 64 }
    requires light { AreLight pushes.count rows.old }
    requires limit { pushes.count < pushes.limit }
    requires level { pushed.table.level ≡ 0 }
    requires oldest { pushed.table.oldest ≡ is_nil (slice_index_or rows.old at []) }
    ensures light { AreLight (pushes.count + 1) rows.new }
    ensures count { length rows.new ≡ length rows.old }
{
    // Only this tells that the limit isn't above the greatest.
    let _count = pushes.count();
    rows.add(at, pushed);
}
