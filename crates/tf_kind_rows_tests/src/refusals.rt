//! Requests for memory that are refused, each in turn.
ghost use Rattle.std.specs.Prelude.{◌≡◌};
ghost use Rattle.std.specs.Arc.{arc_value};

use crate::rows::Numbers;
use crate::tried::Tried;
use linked_list_allocator::LocalHeap;
use std::alloc::Allocator;
use std::marker::Brand;
use std::process::Abort;
use std::sync::{Arc, Wait};
use std::test::Fail;
use tf_records::Refusal;
use tf_registry::{Naming, Registry};
use tf_row_trials::{Mergeable, Outcome, Subject, grow_to, installs, merge_next};

/// Bytes of a heap on which everything has room.
const AMPLE: usize = 1 << 16;

/// Tables for which a registry makes room first. The push of one more asks for memory.
const TABLES: u64 = 32;

/// A registry of numbers on a heap, which rows own too.
type Shared<'h> = Arc<Registry<u64, &'h LocalHeap>, &'h LocalHeap>;

/// A call that takes memory.
#[derive(Clone, Copy, Debug)]
enum Call {
    Merge,
    Push,
    Install,
}

impl Call {
    /// Bytes that none of its requests is below, and bytes that they aren't below together.
    fn requests(self) -> (usize, usize) {
        match self {
            // A key takes 32 bytes, an entry 16, and the filter of so few keys a block of 16.
            Call::Merge => (16, 2 * (32 + 16) + 16),
            // Places for 64 descriptions.
            Call::Push | Call::Install => (1024, 64 * 56),
        }
    }
}

/// Takes all that a heap has left, but for so much room.
fn all_but(heap: &LocalHeap, room: usize) -> Result<Vec<u8, &LocalHeap>, Fail> {
    let left = AMPLE.saturating_sub(heap.used()).saturating_sub(room);
    Ok(Vec::with_capacity(heap, left)?)
}

/// Gives the row `TABLES` tables of one row each, whose keys and values are the numbers. The registry, which is on the heap,
/// has no room for more then.
fn fill<A: Allocator + Copy, T: Tried<A>>(
    rt: &impl Wait,
    rows: &mut T,
    ballast: &LocalHeap,
    store: A,
) -> Result<(), Fail> {
    // Some pushes before the room is used up, a push tries to make more.
    let is_begun = grow_to(rt, store, rows, 0, 20);
    let taken = all_but(ballast, 0)?;
    let is_filled = grow_to(rt, store, rows, 20, TABLES);
    drop(taken);
    if is_begun && is_filled {
        Ok(())
    } else {
        Err(Fail::new("no room for a table"))
    }
}

/// Merges the run of the row. It tells whether that was refused at first.
fn merge_again<A: Allocator + Copy, T: Tried<A>>(
    rt: &impl Abort,
    rows: &T,
    ballast: &LocalHeap,
    heap: A,
    room: usize,
) -> Result<bool, Fail> {
    let mut job = None;
    rows.next_run(&mut job);
    let refused = match &job {
        Some(job) => is_refused_at_first::<A, T>(rt, job, ballast, heap, room),
        None => Err(Fail::new("no job")),
    };
    drop(job);
    assert!(rt; rows.looks(32, 32, 32));
    refused
}

/// Whether a merge is refused with so much room, for want of memory. If it is, it is made with more.
fn is_refused_at_first<A: Allocator + Copy, T: Tried<A>>(
    rt: &impl Abort,
    job: &T::Job,
    ballast: &LocalHeap,
    heap: A,
    room: usize,
) -> Result<bool, Fail> {
    let taken = all_but(ballast, room)?;
    let mut out = None;
    let merged = job.merge_into(heap, &mut out);
    drop(taken);
    drop(out);
    match merged {
        Ok(()) => Ok(false),
        Err(refusal) => {
            assert!(rt; refusal == Refusal::NoMemory);
            assert!(rt; has_two::<A, T>(job, heap));
            Ok(true)
        }
    }
}

/// Whether a job of two tables of one row each is merged.
fn has_two<A: Allocator + Copy, T: Tried<A>>(job: &T::Job, heap: A) -> bool {
    let mut out = None;
    let is_merged = job.merge_into(heap, &mut out).is_ok();
    let has_two = match &out {
        Some(merged) => T::entries(merged) == 2,
        None => false,
    };
    drop(out);
    is_merged && has_two
}

/// Pushes a table of the number 32. It tells whether the table was handed back at first.
fn push_again<A: Allocator + Copy, T: Tried<A>>(
    rt: &(impl Abort + Wait),
    rows: &mut T,
    ballast: &LocalHeap,
    store: A,
    room: usize,
) -> Result<bool, Fail> {
    let mut table = None;
    rows.table(store, 32, &mut table)?;
    let taken = all_but(ballast, room)?;
    if rows.put(rt, &mut table) {
        return Ok(false);
    }
    assert!(rt; rows.looks(32, 32, 32));
    drop(taken);
    assert_pushes(rt, rows, table);
    Ok(true)
}

/// The table of a place, of the number 32, is pushed behind 32 others.
fn assert_pushes<A: Allocator + Copy, T: Tried<A>>(
    rt: &(impl Abort + Wait),
    rows: &mut T,
    place: Option<T::Table>,
) {
    let mut place = place;
    let has_number = match &place {
        Some(table) => T::has(table, 32),
        None => false,
    };
    let is_pushed = rows.put(rt, &mut place);
    drop(place);
    assert!(rt; has_number && is_pushed);
    assert!(rt; rows.looks(33, 33, 33) && rows.newest() == 33);
}

/// Merges the run of the row and installs it. It tells whether the merged table was handed back at first.
fn install_again<A: Allocator + Copy, T: Tried<A>>(
    rt: &(impl Abort + Wait),
    rows: &mut T,
    ballast: &LocalHeap,
    store: A,
    room: usize,
) -> Result<bool, Fail> {
    let taken = all_but(ballast, room)?;
    let mut out = None;
    if !merge_next(store, rows, &mut out) {
        return Err(Fail::new("no merge"));
    }
    let is_handed_back = is_handed_back(rt, rows, &mut out, taken);
    drop(out);
    Ok(is_handed_back)
}

/// Whether the merged table of a place is handed back for want of memory. If it is, it is installed where less is taken.
fn is_handed_back<A: Allocator + Copy, T: Tried<A>>(
    rt: &(impl Abort + Wait),
    rows: &mut T,
    place: &mut Option<T::Merged>,
    taken: Vec<u8, &LocalHeap>,
) -> bool {
    match rows.put_in_place(rt, place) {
        Some(Outcome::Installed) => false,
        Some(Outcome::NoMemory) => {
            assert!(rt; rows.looks(32, 32, 32));
            drop(taken);
            assert!(rt; installs(rt, rows, place, Outcome::Installed));
            assert!(rt; rows.looks(31, 32, 33));
            true
        }
        _ => panic!(rt; "the install wasn't refused for want of memory"),
    }
}

/// Makes a call in a row, which it fills first. It tells whether the call was refused at first.
fn call_in<A: Allocator + Copy, T: Tried<A>>(
    rt: &(impl Abort + Wait),
    rows: &mut T,
    ballast: &LocalHeap,
    heap: A,
    store: A,
    call: Call,
    room: usize,
) -> Result<bool, Fail> {
    fill(rt, rows, ballast, store)?;
    match call {
        Call::Merge => merge_again(rt, rows, ballast, heap, room),
        Call::Push => push_again(rt, rows, ballast, store, room),
        Call::Install => install_again(rt, rows, ballast, store, room),
    }
}

/// Makes a call in rows that were made for it, if there was memory for them.
fn called<A: Allocator + Copy, T: Tried<A>>(
    rt: &(impl Abort + Wait),
    made: Result<T, Refusal>,
    ballast: &LocalHeap,
    heap: A,
    store: A,
    call: Call,
    room: usize,
) -> Result<bool, Fail> {
    match made {
        Ok(mut rows) => {
            let refused = call_in(rt, &mut rows, ballast, heap, store, call, room);
            drop(rows);
            refused
        }
        Err(_) => Err(Fail::new("no memory for rows")),
    }
}

/// Makes a call in rows of its own.
fn with_rows<'h, N: Naming>(
    rt: &(impl Abort + Wait),
    registry: &Shared<'h>,
    heap: &'h LocalHeap,
    store: &'h LocalHeap,
    call: Call,
    room: usize,
) -> Result<bool, Fail>
    requires here { arc_value registry.now ≡ N.shelf 0 }
{
    let rows: Result<Numbers<&'h LocalHeap, N>, Refusal> = Numbers::new(registry, 64, store);
    called(rt, rows, heap, heap, store, call, room)
}

/// Makes a call with a registry of its own.
fn with_registry(
    rt: &(impl Abort + Wait),
    heap: &LocalHeap,
    store: &LocalHeap,
    call: Call,
    room: usize,
) -> Result<bool, Fail> {
    let Ok(registry) = Arc::new(heap, Registry::new(heap)?) else {
        return Err(Fail::new("no memory for a registry"));
    };
    let refused = with_rows::<Brand>(rt, &registry, heap, store, call, room);
    drop(registry);
    refused
}

/// Makes a call with so much room on its heap, and if it is refused again with all of it. It tells whether it was refused.
fn is_refused(
    rt: &(impl Abort + Wait + AllocGlobal),
    call: Call,
    room: usize,
) -> Result<bool, Fail> {
    let heap = LocalHeap::new(rt.alloc(), AMPLE)?;
    let store = LocalHeap::new(rt.alloc(), AMPLE)?;
    with_registry(rt, &heap, &store, call, room)
}

/// The least room with which a call succeeds, after a refusal with each smaller one.
fn least_room(rt: &(impl Abort + Wait + AllocGlobal), call: Call) -> Result<usize, Fail> {
    let (step, _) = call.requests();
    for tries in 0..64usize {
        let room = tries.saturating_mul(step);
        if !is_refused(rt, call, room)? {
            return Ok(room);
        }
    }
    Err(Fail::new("the call never succeeds"))
}

/// Tries a call with ever more room.
fn leaves_all_as_it_was(rt: &(impl Abort + Wait + AllocGlobal), call: Call) -> Result<(), Fail> {
    let least = least_room(rt, call)?;
    let (_, bytes) = call.requests();
    assert!(rt; bytes <= least, "{call:?} takes {least} bytes");
    Ok(())
}

#[test]
fn each_refused_request_leaves_all_as_it_was(rt: HostRuntime) -> Result<(), Fail> {
    leaves_all_as_it_was(&rt, Call::Merge)?;
    leaves_all_as_it_was(&rt, Call::Push)?;
    leaves_all_as_it_was(&rt, Call::Install)
}

/// Whether there is memory for a registry on a heap of this size.
fn has_registry(rt: &(impl Abort + AllocGlobal), size: usize) -> Result<bool, Fail> {
    let heap = LocalHeap::new(rt.alloc(), size)?;
    match Registry::<u64, _>::new(&heap) {
        Ok(registry) => {
            drop(registry);
            Ok(true)
        }
        Err(refusal) => {
            assert!(rt; refusal == Refusal::NoMemory);
            assert!(rt; heap.used() == 0);
            Ok(false)
        }
    }
}

#[test]
fn a_registry_without_memory_is_refused(rt: HostRuntime) -> Result<(), Fail> {
    // It takes a row of 58 places for buckets, of 48 bytes each.
    for size in [0, 1000, 2000] {
        assert!(rt; !has_registry(&rt, size)?, "{size} bytes");
    }
    assert!(rt; has_registry(&rt, 58 * 48)?);
    Ok(())
}
