//! The timestamps that a filter asks for, read off a scan.
ghost use Rattle.std.specs.Prelude.{◌≡◌, ◌<◌, ◌≤◌, ℕ, Bool, [], true, false, length, take, slice_get, vec_capacity, IfErr, IfOk, IfSome};
ghost use Rattle.std.specs.List.{AllByRecursion};
ghost use Rattle.tf_journal.specs.Filter.{is_within};
ghost use Rattle.tf_query.specs.Reading.{AreFrom, IsPart, all_within};
ghost use Rattle.tf_query.specs.Windows.{AreFirst, first_within};
ghost use Rattle.tf_scan.specs.Order.{IsInOrder};
ghost use Rattle.tf_scan.specs.Sets.{is_among};

use crate::window::{FEW, Window};
use std::alloc::Allocator;
use tf_records::Refusal;
use tf_scan::{Direction, Leaf, Scan};

/// How many timestamps are read off a scan at once.
pub const PART: usize = 256;

/// Takes out what comes before a window's first bound.
pub fn seek_first<P: Leaf, B: Allocator>(scan: &mut Scan<P, B>, window: &Window)
    ensures direction { scan.new.direction ≡ scan.old.direction }
    ensures from { AreFrom scan.old.direction window.now scan.new.left }
    ensures same { all_within window.now scan.new.left ≡ all_within window.now scan.old.left }
    ensures in_order { IsInOrder scan.old.direction scan.old.left }
{
    match scan.direction() {
        Direction::Rising => {
            if window.low != 0 {
                scan.seek(window.low);
            }
        }
        Direction::Falling => {
            if window.high != 0 {
                scan.seek(window.high);
            }
        }
    }
}

/// How many timestamps stand before the first that doesn't lie in a window.
fn count_within(window: &Window, timestamps: &[u64]) -> usize
    ensures few { result ≤ length timestamps.now }
    ensures inside { AllByRecursion (λ t. is_within window.now.low window.now.high t ≡ true) (take result timestamps.now) }
    ensures outside { IfSome (slice_get timestamps.now result) (λ t. is_within window.now.low window.now.high t ≡ false) }
{
    for place in 0..timestamps.len() {
        if !window.contains(timestamps[place]) {
            return place;
        }
    }
    timestamps.len()
}

/// Moves the next timestamps of a scan to the front of `part`, at most so many, and tells how many of them lie in a window.
///
/// Fewer than it has room for are the last that are asked for.
pub fn read_part<P: Leaf, B: Allocator>(
    scan: &mut Scan<P, B>,
    window: &Window,
    most: usize,
    part: &mut [u64],
) -> usize
    requires { AreFrom scan.old.direction window.now scan.old.left }
    ensures direction { scan.new.direction ≡ scan.old.direction }
    ensures part { IsPart scan.old.direction window.now most result part.new scan.old.left scan.new.left }
{
    let asked = most.min(part.len());
    let taken = scan.take_into(&mut part[..asked]);
    count_within(window, &part[..taken])
}

/// Room for what a window asks for, of whose timestamps so many were read of a part that asked for so many: for just those where there
/// are no more, else for as many as the window has.
pub fn room_for<T, B: Allocator>(
    alloc: B,
    read: usize,
    asked: usize,
    window: &Window,
) -> Result<Vec<T, B>, Refusal>
    ensures empty { IfOk result (λ room. room.items ≡ []) }
    ensures few { IfOk result (λ room. read < asked → vec_capacity room ≡ read) }
    ensures many { IfOk result (λ room. asked ≤ read → vec_capacity room ≡ window.now.most) }
    ensures refusal { IfErr result (λ refusal. refusal ≡ Refusal.NoMemory) }
{
    let most = if read < asked { read } else { window.most };
    match Vec::with_capacity(alloc, most) {
        Ok(room) => Ok(room),
        Err(_) => Err(Refusal::NoMemory),
    }
}

/// Reads the first timestamps of a scan that lie in a window, as `timestamps_within` does.
fn read_within<P: Leaf, B: Allocator>(
    alloc: B,
    scan: &mut Scan<P, B>,
    window: &Window,
) -> Result<Vec<u64, B>, Refusal>
    ensures ok { IfOk result (λ timestamps. timestamps.items ≡ first_within window.now scan.old.left) }
    ensures in_order { IsInOrder scan.old.direction scan.old.left }
    ensures refusal { IfErr result (λ refusal. refusal ≡ Refusal.NoMemory) }
{
    seek_first(scan, window);
    let mut part = [0; PART];
    let mut count = read_part(scan, window, window.most, &mut part);
    let Ok(mut timestamps) = room_for(alloc, count, PART, window) else {
        return Err(Refusal::NoMemory);
    };
    let Ok(()) = timestamps.extend_from_slice(&part[..count]) else {
        return Err(Refusal::NoMemory);
    };
    while count == PART {
        count = read_part(scan, window, window.most - timestamps.len(), &mut part);
        let Ok(()) = timestamps.extend_from_slice(&part[..count]) else {
            return Err(Refusal::NoMemory);
        };
    }
    Ok(timestamps)
}

/// The first timestamps of a scan that lie in a window. Room for them is made once: for just as many where they are few,
/// else for as many as the window has.
///
/// It seeks the first bound and reads on in parts, none of them longer than what is still asked for, until one has the last
/// timestamp in the window. `NoMemory` is the only refusal.
pub fn timestamps_within<P: Leaf + Drop, B: Allocator>(
    alloc: B,
    mut scan: Scan<P, B>,
    window: &Window,
) -> Result<Vec<u64, B>, Refusal>
    ensures ok { IfOk result (λ timestamps. timestamps.items ≡ first_within window.now scan.left) }
    ensures in_order { IfOk result (λ timestamps. IsInOrder scan.direction scan.left) }
    ensures refusal { IfErr result (λ refusal. refusal ≡ Refusal.NoMemory) }
{
    read_within(alloc, &mut scan, window)
}

/// The first timestamps in a window of a scan, unless that was refused: then that is the answer. `NoMemory` is the only refusal.
pub fn timestamps_unless_refused<P: Leaf + Drop, B: Allocator>(
    alloc: B,
    scan: Result<Scan<P, B>, Refusal>,
    window: &Window,
) -> Result<Vec<u64, B>, Refusal>
    requires { IfErr scan (λ refusal. refusal ≡ Refusal.NoMemory) }
    ensures ok { (accepts : ℕ → Bool) → IfOk scan (λ s. s.direction ≡ window.now.direction) → IfOk scan (λ s. (t : ℕ) → is_among t s.left ≡ accepts t) → IfOk result (λ timestamps. AreFirst window.now accepts timestamps.items) }
    ensures refusal { IfErr result (λ refusal. refusal ≡ Refusal.NoMemory) }
{
    match scan {
        Ok(scan) => timestamps_within(alloc, scan, window),
        Err(refusal) => Err(refusal),
    }
}

/// Moves the first timestamps of a scan that lie in a window, which has only a few, to the front of `part`, and tells how many those
/// are. It takes no memory.
pub fn few_within<P: Leaf + Drop, B: Allocator>(
    mut scan: Scan<P, B>,
    window: &Window,
    part: &mut [u64; FEW as usize],
) -> usize
    requires { window.now.most ≤ 32 }
    ensures inside { result ≤ 32 }
    ensures first { take result part.new ≡ first_within window.now scan.left }
    ensures in_order { IsInOrder scan.direction scan.left }
{
    seek_first(&mut scan, window);
    read_part(&mut scan, window, window.most, part)
}
