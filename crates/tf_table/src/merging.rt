//! The merge of sealed tables.
ghost use Rattle.std.specs.Prelude.{◌≡◌, ◌+◌, ◌-◌, ◌^◌, ◌<◌, ◌≤◌, [], ◌∷◌, ◌++◌, length, map, sum_by, true, false, IsTrue, IfOk, IfErr, slice_get};
ghost use Rattle.tf_sorted.specs.Rows.{IsRising};
ghost use Rattle.tf_table.specs.Key.{key_cmp};
ghost use Rattle.tf_table.specs.Content.{entry_at, entry_of, content_of, combined, rows_with, kept};
ghost use Rattle.tf_table.specs.Merge.{EachList, IsMerged, lesser, least_at, has_key, passed};

use crate::draft::Draft;
use crate::front::Front;
use crate::pair::merged_pair;
use crate::{Key, Repeats, Sealed};
use smallvec::SmallVec;
use std::alloc::{AllocError, Allocator};
use tf_records::Refusal;

/// Tables whose places a merge keeps without taking memory for them.
const FEW_TABLES: usize = 8;

/// One table that says what the tables say together, newest first: of each key the entry of the newest table that has
/// it. There may be any number of tables.
///
/// With `bottom` nothing is older than these tables, and no tombstone is kept. The only refusal is `NoMemory`.
///
/// It goes over the tables once, side by side, and copies each row that it keeps once. Of two tables it makes one
/// comparison for each row, of more it looks at the next key of each of them; no other entry is read than that of the
/// row. The keys have their room from the start, for all rows of the tables; so do the entries, from the first one on
/// that differs from the others. What was too much is given back, which takes memory for the rows of the merge again.
pub fn merge<V: Repeats, A: Allocator + Clone>(
    alloc: A,
    tables: &[&Sealed<V, A>],
    bottom: bool,
) -> Result<Sealed<V, A>, Refusal>
    ensures entries { IfOk result (λ merged. (key : Key) → entry_at key merged ≡ kept bottom (entry_of key (map (λ table. table.now) tables.now))) }
    ensures above { bottom ≡ false → IfOk result (λ merged. merged ≡ combined key_cmp (map (λ table. table.now) tables.now)) }
    ensures content { bottom ≡ true → IfOk result (λ merged. merged ≡ rows_with (content_of (map (λ table. table.now) tables.now))) }
    // Each row of the merge is one of the tables' rows.
    ensures length { IfOk result (λ merged. length merged ≤ sum_by (λ table. length table.now) tables.now) }
    ensures err { IfErr result (λ refusal. refusal ≡ Refusal.NoMemory) }
{
    merged(alloc, tables, bottom).map_err(|_| Refusal::NoMemory)
}

fn merged<V: Repeats, A: Allocator + Clone>(
    alloc: A,
    tables: &[&Sealed<V, A>],
    bottom: bool,
) -> Result<Sealed<V, A>, AllocError>
    ensures { IfOk result (λ merged. IsMerged bottom (map (λ table. table.now) tables.now) merged) }
{
    if let [newer, older] = tables {
        return merged_pair(alloc, newer, older, bottom);
    }
    merged_all(alloc, tables, bottom)
}

/// The merge of any number of tables. For each row it looks at the next key of each table.
fn merged_all<V: Repeats, A: Allocator + Clone>(
    alloc: A,
    tables: &[&Sealed<V, A>],
    bottom: bool,
) -> Result<Sealed<V, A>, AllocError>
    ensures { IfOk result (λ merged. IsMerged bottom (map (λ table. table.now) tables.now) merged) }
{
    let room = count_rows(tables)?;
    let mut draft = Draft::with_room(alloc.clone()?, room)?;
    let mut places: SmallVec<usize, FEW_TABLES, &A> = SmallVec::from_elem(&alloc, 0, tables.len())?;
    while let Some(row) = least(tables, places.as_slice()) {
        draft.keep(&row, bottom)?;
        pass(tables, places.as_mut_slice(), row.key());
    }
    draft.seal(alloc.clone()?)
}

/// How many rows the tables have together.
fn count_rows<V, A: Allocator>(tables: &[&Sealed<V, A>]) -> Result<usize, AllocError>
    ensures rows { IfOk result (λ rows. rows ≡ sum_by (λ table. length table.now) tables.now) }
    ensures rising { IfOk result (λ rows. EachList (IsRising key_cmp) (map (λ table. table.now) tables.now)) }
{
    let mut rows = 0usize;
    for table in tables {
        rows = rows.checked_add(table.len()).ok_or(AllocError)?;
    }
    Ok(rows)
}

/// The row with the least key among those at the places, of the newest table where several have the key.
fn least<'a, V, A: Allocator>(
    tables: &[&'a Sealed<V, A>],
    places: &[usize],
) -> Option<Front<'a, V, A>>
    requires { length places.now ≡ length tables.now }
    ensures { result ≡ least_at key_cmp (map (λ table. table.now) tables.now) places.now }
{
    let mut found = None;
    let mut rest = tables.len();
    while rest > 0 {
        rest -= 1;
        found = lesser_row(tables[rest].front_at(places[rest]), found);
    }
    found
}

/// The row with the lesser key, the newer one where the keys are the same.
#[inline]
fn lesser_row<'a, V, A: Allocator>(
    newer: Option<Front<'a, V, A>>,
    older: Option<Front<'a, V, A>>,
) -> Option<Front<'a, V, A>>
    ensures { result ≡ lesser key_cmp newer.entry older.entry }
{
    match (newer, older) {
        (None, older) => older,
        (Some(newer), None) => Some(newer),
        (Some(newer), Some(older)) => {
            if older.key().cmp(newer.key()).is_lt() {
                Some(older)
            } else {
                Some(newer)
            }
        }
    }
}

/// Moves each place behind its row, where that has the key.
fn pass<V, A: Allocator>(tables: &[&Sealed<V, A>], places: &mut [usize], key: &Key)
    requires { length places.old ≡ length tables.now }
    ensures { places.new ≡ passed key_cmp key.now (map (λ table. table.now) tables.now) places.old }
{
    for i in 0..tables.len() {
        if is_next(tables[i], places[i], key) {
            places[i] += 1;
        }
    }
}

/// Whether the table has the key at the place.
#[inline]
fn is_next<V, A: Allocator>(table: &Sealed<V, A>, place: usize, key: &Key) -> bool
    ensures value { result ≡ has_key key_cmp key.now (slice_get table.now place) }
    ensures more { IsTrue result → place + 1 < 2 ^ 64 }
{
    match table.front_at(place) {
        Some(next) => next.key().cmp(key).is_eq(),
        None => false,
    }
}
