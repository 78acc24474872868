//! Calls whose requests for memory are refused, each in turn.

use super::lines::rows_of_line;
use super::making::{Rows, has_rows, is_copy, put, sealed};
use super::words::{Row, first_word, number, rows_in};
use crate::asserts::assert_line;
use linked_list_allocator::LocalHeap;
use std::alloc::{AllocError, Allocator, Global};
use std::process::Abort;
use std::test::Fail;
use tf_mutable::{Log, MutableTable};
use tf_records::Refusal;
use tf_table::{Sealed, merge};

/// Heaps that are tried, from one without memory on, each larger than the one before.
const TRIES: usize = 600;

/// Whether the table has so many of these rows, the first, and no other.
fn has_first<A: Allocator + Clone, M: MutableTable<u64, A>>(
    table: &M,
    rows: &[Row],
    count: usize,
) -> bool {
    for place in 0..rows.len() {
        let entry = rows[place].1.as_ref();
        let expected = if place < count { Some(entry) } else { None };
        if table.find(&rows[place].0) != expected {
            return false;
        }
    }
    table.len() == count
}

/// Fills a mutable table. It tells whether the memory sufficed.
fn is_filled<A: Allocator + Clone, M: MutableTable<u64, A>>(
    rt: &impl Abort,
    table: &mut M,
    rows: &[Row],
) -> bool {
    for place in 0..rows.len() {
        match put(table, rows[place].0, rows[place].1) {
            Ok(was_new) => assert!(rt; was_new),
            Err(refusal) => {
                assert!(rt; refusal == Refusal::NoMemory && has_first(table, rows, place));
                return false;
            }
        }
    }
    true
}

/// Seals a mutable table of these rows into a heap, which leaves its rows. It tells whether the memory sufficed.
fn is_sealed_into<'a, M: MutableTable<u64, &'a LocalHeap>>(
    rt: &impl Abort,
    table: &mut M,
    heap: &'a LocalHeap,
    rows: &[Row],
) -> bool {
    let is_sealed = match table.seal(heap) {
        Ok(sealed) => {
            let is_copy = is_copy(&sealed, table);
            drop(sealed);
            assert!(rt; is_copy);
            true
        }
        Err(refusal) => {
            assert!(rt; refusal == Refusal::NoMemory && heap.used() == 0);
            false
        }
    };
    assert!(rt; has_first(table, rows, rows.len()));
    is_sealed
}

/// Fills a mutable table on one heap, and seals it into another. It tells whether the memory of both sufficed.
fn is_sealed<'a, M: MutableTable<u64, &'a LocalHeap>>(
    rt: &impl Abort,
    heap: &'a LocalHeap,
    store: &'a LocalHeap,
    rows: &[Row],
) -> bool {
    let mut table = M::new_in(heap);
    let answer = is_filled(rt, &mut table, rows) && is_sealed_into(rt, &mut table, store, rows);
    drop(table);
    answer
}

/// Whether the memory of both heaps suffices for a `log` or a `tree`.
fn is_sealed_as(
    rt: &impl Abort,
    kind: &str,
    heap: &LocalHeap,
    store: &LocalHeap,
    rows: &[Row],
) -> bool {
    if kind == "log" {
        is_sealed::<Log<u64, &LocalHeap>>(rt, heap, store, rows)
    } else {
        is_sealed::<Rows<&LocalHeap>>(rt, heap, store, rows)
    }
}

/// Whether a heap of this size suffices beside an ample one: for the rows, and for the seal.
fn suffices(
    rt: &(impl Abort + AllocGlobal),
    size: usize,
    ample: &LocalHeap,
    kind: &str,
    rows: &[Row],
) -> Result<(bool, bool), AllocError> {
    let heap = LocalHeap::new(rt.alloc(), size)?;
    let for_rows = is_sealed_as(rt, kind, &heap, ample, rows);
    let for_seal = is_sealed_as(rt, kind, ample, &heap, rows);
    drop(heap);
    Ok((for_rows, for_seal))
}

/// The sizes of the smallest heaps that suffice for the rows and for the seal, after a refusal at each smaller one. Heaps grow by
/// `step` bytes, of which no request of a seal has fewer, so at some size each is the first to be refused.
fn rooms(
    rt: &(impl Abort + AllocGlobal),
    ample: &LocalHeap,
    kind: &str,
    step: usize,
    rows: &[Row],
) -> Result<(usize, usize), AllocError> {
    let mut rooms = (0, 0);
    for tries in 0..TRIES {
        let size = tries.saturating_mul(step);
        let (for_rows, for_seal) = suffices(rt, size, ample, kind, rows)?;
        if !for_rows {
            rooms.0 = size.saturating_add(step);
        }
        if !for_seal {
            rooms.1 = size.saturating_add(step);
        }
        if for_rows && for_seal {
            break;
        }
    }
    Ok(rooms)
}

/// Whether a line is so: `KIND STEP ROW..: LEAST ROOM`. The rows take at least so much memory, and their seal takes so much.
fn has_rooms(
    rt: &(impl Abort + AllocGlobal),
    ample: &LocalHeap,
    line: &str,
) -> Result<bool, AllocError> {
    let (question, answer) = line.split_once(": ").unwrap_or((line, ""));
    let (kind, words) = first_word(question);
    let (step, words) = first_word(words);
    let (least, room) = first_word(answer);
    let rows = rows_of_line(rt, words)?;
    let rooms = rooms(rt, ample, kind, number(rt, step) as usize, &rows)?;
    Ok(number(rt, least) <= rooms.0 as u64 && number(rt, room) == rooms.1 as u64)
}

/// A key takes 32 bytes, an entry 16, and the filter of few keys with values a block of 16 or some: 40 have one of 64. Keys without
/// values have no filter. Of 1,024 rows the keys take 32 KiB, the entries 16, the filter between one and two, and the fences one.
const ROOMS: &str = "\
tree 16 : 0 0
tree 16 5=1 7=1 9=1: 96 112
tree 16 5=gone 7=10 9=11: 144 160
tree 1024 plain 0-1024/1: 49152 52224
log 16 bare 0-40/1: 1920 1920
log 16 scattered 0-40/1: 1984 1984
tree 16 bare 0-40/1: 1920 1920
tree 16 scattered 0-40/1: 1984 1984";

/// The lines are so.
fn assert_rooms(rt: &(impl Abort + AllocGlobal), ample: &LocalHeap) -> Result<(), AllocError> {
    for line in ROOMS.lines() {
        assert_line(rt, has_rooms(rt, ample, line)?, line);
    }
    Ok(())
}

#[test]
fn each_refused_request_leaves_the_rows_as_they_were(rt: HostRuntime) -> Result<(), Fail> {
    let ample = LocalHeap::new(rt.alloc(), 1 << 18)?;
    let outcome = assert_rooms(&rt, &ample);
    drop(ample);
    Ok(outcome?)
}

/// Whether tables have the rows of these parts.
fn are_whole(
    rt: &(impl Abort + AllocGlobal),
    tables: &[Sealed<u64, &LocalHeap>],
    parts: &str,
) -> Result<bool, AllocError> {
    let mut place = 0usize;
    for part in parts.split('|') {
        if place >= tables.len() || !has_rows(&tables[place], &rows_in(rt, part)?) {
            return Ok(false);
        }
        place = place.saturating_add(1);
    }
    Ok(place == tables.len())
}

/// Adds a table of the rows of each part.
fn add_tables<'a>(
    rt: &(impl Abort + AllocGlobal),
    store: &'a LocalHeap,
    tables: &mut Vec<Sealed<u64, &'a LocalHeap>>,
    parts: &str,
) -> Result<(), Refusal> {
    for part in parts.split('|') {
        let rows = rows_in(rt, part)?;
        tables.push(sealed::<&LocalHeap, Rows<&LocalHeap>>(store, &rows)?)?;
    }
    Ok(())
}

/// Merges tables into a heap, which gives these rows, or is refused and leaves the heap empty. It tells whether the memory sufficed.
fn is_merged<'a>(
    rt: &(impl Abort + AllocGlobal),
    heap: &'a LocalHeap,
    tables: &[Sealed<u64, &'a LocalHeap>],
    rows: &[Row],
) -> Result<bool, AllocError> {
    let mut lent = Vec::new(rt.alloc());
    for table in tables {
        lent.push(table)?;
    }
    match merge(heap, &lent, false) {
        Ok(merged) => {
            let is_whole = has_rows(&merged, rows);
            drop(merged);
            assert!(rt; is_whole);
            Ok(true)
        }
        Err(refusal) => {
            assert!(rt; refusal == Refusal::NoMemory && heap.used() == 0);
            Ok(false)
        }
    }
}

/// Merges tables of these parts, newest first, into a heap of this size, which leaves them as they were. It tells whether the memory
/// sufficed for these rows.
fn suffices_for_merge(
    rt: &(impl Abort + AllocGlobal),
    size: usize,
    store: &LocalHeap,
    parts: &str,
    rows: &[Row],
) -> Result<bool, Refusal> {
    let heap = LocalHeap::new(rt.alloc(), size)?;
    let mut tables = Vec::new(rt.alloc());
    let added = add_tables(rt, store, &mut tables, parts);
    let suffices = is_merged(rt, &heap, &tables, rows);
    let are_whole = are_whole(rt, &tables, parts);
    drop(tables);
    drop(heap);
    added?;
    assert!(rt; are_whole?);
    Ok(suffices?)
}

/// The size of the smallest heap that suffices for a merge of tables of these parts, after a refusal at each smaller one.
///
/// No request of a merge of a few rows is for fewer than 16 bytes, so at some size each is the first to be refused.
fn room_of_merge(
    rt: &(impl Abort + AllocGlobal),
    store: &LocalHeap,
    parts: &str,
    rows: &[Row],
) -> Result<u64, Refusal> {
    for tries in 0..200usize {
        if suffices_for_merge(rt, tries * 16, store, parts, rows)? {
            return Ok(tries as u64 * 16);
        }
    }
    Ok(u64::MAX)
}

/// Tables of two parts, newest first, and of nine of them in turn. While the room of one key is given back, the three keys stand
/// twice. Places for more than eight tables take memory too.
const MERGES: [(&str, u64, u64); 2] = [
    ("5=gone 7=10|5=20 6=30", 288, 288),
    (
        "5=gone 7=10|5=20 6=30|5=gone 7=10|5=20 6=30|5=gone 7=10|5=20 6=30|5=gone 7=10|5=20 6=30|5=gone 7=10",
        865,
        3200,
    ),
];

#[test]
fn each_refused_request_of_a_merge_leaves_the_tables_as_they_were(
    rt: HostRuntime,
) -> Result<(), Fail> {
    let rows = rows_in(&rt, "5=gone 6=30 7=10")?;
    for (parts, least, most) in MERGES {
        let store = LocalHeap::new(rt.alloc(), 1 << 15)?;
        let room = room_of_merge(&rt, &store, parts, &rows);
        drop(store);
        assert!(rt; (least..=most).contains(&room?));
    }
    Ok(())
}

/// Takes what a heap has left, in pieces down to 256 bytes.
fn take_all<'a>(
    alloc: Global,
    heap: &'a LocalHeap,
) -> Result<Vec<Vec<u8, &'a LocalHeap>>, AllocError> {
    let mut taken = Vec::new(alloc);
    for piece in [8192, 4096, 2048, 1024, 512, 256] {
        for _more in 0..64 {
            match Vec::with_capacity(heap, piece) {
                Ok(bytes) => taken.push(bytes)?,
                Err(_) => break,
            }
        }
    }
    Ok(taken)
}

/// A log whose keys don't rise is sorted before it is sealed, which is refused while its heap has nothing left.
fn assert_sort_refused<'a, M: MutableTable<u64, &'a LocalHeap>>(
    rt: &(impl Abort + AllocGlobal),
    log: &mut M,
    heap: &'a LocalHeap,
    store: &'a LocalHeap,
) -> Result<(), AllocError> {
    let rows = rows_of_line(rt, "scattered 0-40/1")?;
    assert!(rt; is_filled(rt, log, &rows));
    let taken = take_all(rt.alloc(), heap)?;
    let is_sealed = is_sealed_into(rt, log, store, &rows);
    drop(taken);
    assert!(rt; !is_sealed && is_sealed_into(rt, log, store, &rows));
    Ok(())
}

#[test]
fn a_sort_without_memory_is_refused(rt: HostRuntime) -> Result<(), Fail> {
    let heap = LocalHeap::new(rt.alloc(), 1 << 14)?;
    let store = LocalHeap::new(rt.alloc(), 1 << 14)?;
    let mut log: Log<u64, &LocalHeap> = Log::new_in(&heap);
    let outcome = assert_sort_refused(&rt, &mut log, &heap, &store);
    drop(log);
    drop(heap);
    drop(store);
    Ok(outcome?)
}
