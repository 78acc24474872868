//! The transfers that a scan leads to and that pass what is left to be tested.
ghost use Rattle.std.specs.Prelude.{◌≡◌, ◌+◌, ◌≤◌, ◌++◌, length, min, take, vec_capacity, vec_len, IfErr, IfOk};
ghost use Rattle.std.specs.List.{filter_map};
ghost use Rattle.std.specs.Option.{option_and_then, option_copied};
ghost use Rattle.tf_query.specs.Residual.{first_passing, passed, passing_in};
ghost use Rattle.tf_scan.specs.Order.{IsInOrder};

use crate::residual::Residual;
use crate::timestamps::{PART, read_part, room_for, seek_first};
use crate::window::Window;
use std::alloc::Allocator;
use tf_look_ups::{Finder, found_transfer, push_record};
use tf_manifest::Manifest;
use tf_records::{Refusal, Transfer};
use tf_registry::Naming;
use tf_scan::{Leaf, Scan};

/// The transfer that was found, if it passes.
fn passing<'r>(residual: &Residual, found: Option<&'r Transfer>) -> Option<&'r Transfer>
    ensures { option_copied result ≡ option_and_then (passed residual.now) (option_copied found.entry) }
{
    let Some(transfer) = found else {
        return None;
    };
    if residual.passes(transfer) {
        Some(transfer)
    } else {
        None
    }
}

/// Puts the transfers with these timestamps that pass at the end of the rows, until there are as many as are asked for.
///
/// Each is tested and copied in one step. A processor reads on behind a test, so that the next ones come from far memory in the
/// meantime; to find and test many before the first is copied was slower.
fn push_passing<A: Allocator, N: Naming, B: Allocator>(
    manifest: &Manifest<A, N>,
    residual: &Residual,
    timestamps: &[u64],
    most: usize,
    rows: &mut Vec<Transfer, B>,
)
    requires few { vec_len rows.old ≤ most }
    requires room { min most (vec_len rows.old + length timestamps.now) ≤ vec_capacity rows.old }
    ensures items { rows.new.items ≡ take most (rows.old.items ++ filter_map (passing_in manifest.now residual.now) timestamps.now) }
    ensures room { vec_capacity rows.new ≡ vec_capacity rows.old }
{
    let mut transfers = Finder::new(manifest.transfers.row(0));
    for timestamp in timestamps {
        if rows.len() == most {
            return;
        }
        let found = passing(residual, found_transfer(&mut transfers, *timestamp));
        push_record(rows, found);
    }
}

/// Reads the first transfers in a window that a scan leads to and that pass, as `passing_within` does.
fn read_passing<P: Leaf, A: Allocator, N: Naming, B: Allocator>(
    alloc: B,
    manifest: &Manifest<A, N>,
    residual: &Residual,
    scan: &mut Scan<P, B>,
    window: &Window,
) -> Result<Vec<Transfer, B>, Refusal>
    ensures ok { IfOk result (λ rows. rows.items ≡ first_passing manifest.now residual.now window.now scan.old.left) }
    ensures in_order { IsInOrder scan.old.direction scan.old.left }
    ensures room { IfOk result (λ rows. vec_capacity rows ≤ window.now.most) }
    ensures refusal { IfErr result (λ refusal. refusal ≡ Refusal.NoMemory) }
{
    seek_first(scan, window);
    let asked = window.most.min(PART);
    let mut part = [0; PART];
    let mut count = read_part(scan, window, asked, &mut part);
    let Ok(mut rows) = room_for(alloc, count, asked, window) else {
        return Err(Refusal::NoMemory);
    };
    push_passing(manifest, residual, &part[..count], window.most, &mut rows);
    while count == asked && rows.len() < window.most {
        count = read_part(scan, window, asked, &mut part);
        push_passing(manifest, residual, &part[..count], window.most, &mut rows);
    }
    Ok(rows)
}

/// The first transfers in a window that a scan leads to and that pass. Room for them is made once: for as many as there are
/// timestamps in the window where one part has them all, else for as many as the window has.
///
/// It seeks the first bound and reads on in parts, none of them longer than what is asked for, until one has the last
/// timestamp in the window or there are as many rows as are asked for. Each timestamp that was read costs one look-up.
/// `NoMemory` is the only refusal.
pub fn passing_within<P: Leaf + Drop, A: Allocator, N: Naming, B: Allocator>(
    alloc: B,
    manifest: &Manifest<A, N>,
    residual: &Residual,
    mut scan: Scan<P, B>,
    window: &Window,
) -> Result<Vec<Transfer, B>, Refusal>
    ensures ok { IfOk result (λ rows. rows.items ≡ first_passing manifest.now residual.now window.now scan.left) }
    ensures in_order { IfOk result (λ rows. IsInOrder scan.direction scan.left) }
    ensures room { IfOk result (λ rows. vec_capacity rows ≤ window.now.most) }
    ensures refusal { IfErr result (λ refusal. refusal ≡ Refusal.NoMemory) }
{
    read_passing(alloc, manifest, residual, &mut scan, window)
}
