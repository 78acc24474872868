//! The scans that filters are answered by.
ghost use Rattle.std.specs.Prelude.{◌≡◌, ◌&&◌, ◌||◌, ℕ, true, not, is_some, Err, IfErr, IfOk, IfSome, IsOkAnd, Ok, Some};
ghost use Rattle.std.specs.List.{list_all};
ghost use Rattle.tf_journal.specs.Filter.{asks_credits, asks_debits};
ghost use Rattle.tf_registry.specs.Row.{content_at};
ghost use Rattle.tf_manifest.specs.Rows.{key_of};
ghost use Rattle.tf_query.specs.Asked.{account_filter_at, meets_at, side_at};
ghost use Rattle.tf_query.specs.Conditions.{asks_nothing, field_conditions, is_left, meets_all};
ghost use Rattle.tf_look_ups.specs.Reads.{has_entry};
ghost use Rattle.tf_scan.specs.Sets.{is_among};

use crate::condition::{Condition, field_conditions};
use crate::expected::Expected;
use crate::window::Window;
use std::alloc::Allocator;
use tf_manifest::{Manifest, RowValue, UnitRow};
use tf_records::{AccountFilter, Refusal};
use tf_registry::{Naming, Tables};
use tf_scan::{Direction, Leaf, Prefix, Scan};

/// Timestamps under values of indexes, joined in boxes on a query's allocator.
pub type IndexScan<'r, A, B> = Scan<Prefix<'r, (), A>, B>;

/// The timestamps under a value of an index, to be read for a window. `NoMemory` is the only refusal.
fn index_scan<'r, A: Allocator, N: Naming, B: Allocator>(
    alloc: B,
    manifest: &'r Manifest<A, N>,
    window: &Window,
    row: UnitRow,
    value: u128,
) -> Result<IndexScan<'r, A, B>, Refusal>
    ensures direction { IfOk result (λ scan. scan.direction ≡ window.now.direction) }
    ensures members { IfOk result (λ scan. (t : ℕ) → is_among t scan.left ≡ has_entry manifest.now row value t) }
    ensures refusal { IfErr result (λ refusal. refusal ≡ Refusal.NoMemory) }
{
    let tables = manifest.units.row(row.index());
    let expected = Expected::by(window, tables, value);
    let prefix = Prefix::expecting(tables, value, window.direction, expected.as_slice());
    Scan::leaf(alloc, prefix)
}

/// The timestamps of all records of a kind, by the row that has them. `NoMemory` is the only refusal.
pub fn object_scan<'r, V: RowValue, A: Allocator, N: Naming, B: Allocator>(
    alloc: B,
    objects: &'r Tables<V, A, N>,
    direction: Direction,
) -> Result<Scan<Prefix<'r, V, A>, B>, Refusal>
    ensures direction { IfOk result (λ scan. scan.direction ≡ direction) }
    ensures members { IfOk result (λ scan. (t : ℕ) → is_among t scan.left ≡ is_some (content_at (key_of 0 t) objects.now)) }
    ensures refusal { IfErr result (λ refusal. refusal ≡ Refusal.NoMemory) }
{
    Scan::leaf(alloc, Prefix::new(objects, 0, direction))
}

/// Those timestamps of a scan that are left in another one, or all of them where there is no other. Where the scan was
/// refused the other one is dropped, and that is the answer. `NoMemory` is the only refusal.
fn narrowed_by<P: Leaf + Drop, B: Allocator + Copy>(
    alloc: B,
    left: Option<Scan<P, B>>,
    scan: Result<Scan<P, B>, Refusal>,
) -> Result<Scan<P, B>, Refusal>
    requires one_direction { IfOk scan (λ s. IfSome left (λ l. l.direction ≡ s.direction)) }
    requires refusal { IfErr scan (λ refusal. refusal ≡ Refusal.NoMemory) }
    ensures direction { IfOk result (λ narrowed. IsOkAnd scan (λ s. narrowed.direction ≡ s.direction)) }
    ensures members { IfOk result (λ narrowed. IsOkAnd scan (λ s. (t : ℕ) → is_among t narrowed.left ≡ (is_left t left && is_among t s.left))) }
    ensures refusal { IfErr result (λ refusal. refusal ≡ Refusal.NoMemory) }
{
    match scan {
        Ok(scan) => match left {
            Some(left) => Scan::intersection(alloc, left, scan),
            None => Ok(scan),
        },
        Err(refusal) => Err(refusal),
    }
}

/// The timestamps of a scan and of another one. Where that was refused the first is dropped, and that is the answer.
/// `NoMemory` is the only refusal.
fn united<P: Leaf + Drop, B: Allocator + Copy>(
    alloc: B,
    left: Scan<P, B>,
    right: Result<Scan<P, B>, Refusal>,
) -> Result<Scan<P, B>, Refusal>
    requires one_direction { IfOk right (λ r. r.direction ≡ left.direction) }
    requires refusal { IfErr right (λ refusal. refusal ≡ Refusal.NoMemory) }
    ensures direction { IfOk result (λ scan. scan.direction ≡ left.direction) }
    ensures members { IfOk result (λ scan. IsOkAnd right (λ r. (t : ℕ) → is_among t scan.left ≡ (is_among t left.left || is_among t r.left))) }
    ensures refusal { IfErr result (λ refusal. refusal ≡ Refusal.NoMemory) }
{
    match right {
        Ok(right) => Scan::union(alloc, left, right),
        Err(refusal) => Err(refusal),
    }
}

/// What is left of a scan, or of all timestamps, where conditions have to be met: no scan where there was none and nothing
/// is asked for.
///
/// It takes a box for each field that is asked for, and two more for each but the first. `NoMemory` is the only refusal.
pub fn narrowed<'r, A: Allocator, N: Naming, B: Allocator + Copy>(
    alloc: B,
    manifest: &'r Manifest<A, N>,
    window: &Window,
    scan: Option<IndexScan<'r, A, B>>,
    conditions: &[Condition],
) -> Result<Option<IndexScan<'r, A, B>>, Refusal>
    requires { IfSome scan (λ s. s.direction ≡ window.now.direction) }
    ensures direction { IfOk result (λ narrowed. IfSome narrowed (λ s. s.direction ≡ window.now.direction)) }
    ensures some { IfOk result (λ narrowed. is_some narrowed ≡ (is_some scan.entry || not (list_all asks_nothing conditions.now))) }
    ensures members { IfOk result (λ narrowed. (t : ℕ) → is_left t narrowed ≡ (is_left t scan.entry && meets_all manifest.now conditions.now t)) }
    ensures refusal { IfErr result (λ refusal. refusal ≡ Refusal.NoMemory) }
{
    let mut left = scan;
    for condition in conditions {
        if condition.value != 0 {
            let asked = index_scan(alloc, manifest, window, condition.row, condition.value);
            match narrowed_by(alloc, left, asked) {
                Ok(scan) => left = Some(scan),
                Err(refusal) => return Err(refusal),
            }
        }
    }
    Ok(left)
}

/// The timestamps of the transfers that have a filter's account on a side that is asked for. Each side takes a box, and
/// both take two more. `NoMemory` is the only refusal.
fn sides<'r, A: Allocator, N: Naming, B: Allocator + Copy>(
    alloc: B,
    manifest: &'r Manifest<A, N>,
    window: &Window,
    filter: &AccountFilter,
) -> Result<IndexScan<'r, A, B>, Refusal>
    requires { (asks_debits filter.now || asks_credits filter.now) ≡ true }
    ensures direction { IfOk result (λ scan. scan.direction ≡ window.now.direction) }
    ensures members { IfOk result (λ scan. (t : ℕ) → is_among t scan.left ≡ side_at manifest.now filter.now t) }
    ensures refusal { IfErr result (λ refusal. refusal ≡ Refusal.NoMemory) }
{
    let account = filter.account_id;
    if filter.flags & AccountFilter::CREDITS == 0 {
        return index_scan(alloc, manifest, window, UnitRow::TransferDebit, account);
    }
    let credits = index_scan(alloc, manifest, window, UnitRow::TransferCredit, account);
    if filter.flags & AccountFilter::DEBITS == 0 {
        return credits;
    }
    match credits {
        Ok(credits) => {
            let debits = index_scan(alloc, manifest, window, UnitRow::TransferDebit, account);
            united(alloc, credits, debits)
        }
        Err(refusal) => Err(refusal),
    }
}

/// Whether a filter of an account's transfers asks for none of their fields.
pub fn asks_no_field(filter: &AccountFilter) -> bool
    ensures { result ≡ list_all asks_nothing (field_conditions filter.now) }
{
    filter.user_data_128 == 0
        && filter.user_data_64 == 0
        && filter.user_data_32 == 0
        && filter.code == 0
}

/// The scan that there is, unless it was refused.
fn present<P: Leaf + Drop, B: Allocator>(
    found: Result<Option<Scan<P, B>>, Refusal>,
) -> Result<Scan<P, B>, Refusal>
    requires { IfOk found (λ some. is_some some ≡ true) }
    ensures scan { IfOk result (λ scan. found ≡ Ok (Some scan)) }
    ensures refusal { IfErr result (λ refusal. found ≡ Err refusal) }
{
    match found {
        Ok(Some(scan)) => Ok(scan),
        Ok(None) => unreachable!(),
        Err(refusal) => Err(refusal),
    }
}

/// The timestamps of the transfers that a filter of an account's transfers asks for: those of its sides, where its fields
/// have to be met. `NoMemory` is the only refusal.
pub fn account_scan<'r, A: Allocator, N: Naming, B: Allocator + Copy>(
    alloc: B,
    manifest: &'r Manifest<A, N>,
    window: &Window,
    filter: &AccountFilter,
) -> Result<IndexScan<'r, A, B>, Refusal>
    requires { (asks_debits filter.now || asks_credits filter.now) ≡ true }
    ensures direction { IfOk result (λ scan. scan.direction ≡ window.now.direction) }
    ensures members { IfOk result (λ scan. (t : ℕ) → is_among t scan.left ≡ account_filter_at manifest.now filter.now t) }
    ensures refusal { IfErr result (λ refusal. refusal ≡ Refusal.NoMemory) }
{
    match sides(alloc, manifest, window, filter) {
        Ok(both) => {
            let fields = field_conditions(filter);
            present(narrowed(alloc, manifest, window, Some(both), &fields))
        }
        Err(refusal) => Err(refusal),
    }
}
