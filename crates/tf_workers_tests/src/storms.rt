//! Tests: storms, and workers in turn.
ghost use Rattle.std.specs.Prelude.{◌≡◌, ◌<◌, ◌≤◌, vec_len};

use std::marker::Sync;
use std::process::Abort;
use std::sync::Wait;
use std::test::Fail;
use std::thread::Threads;
use tf_storm_trials::try_out;
use tf_trials::{Dice, that_meet, transfers_between_two};
use tf_worker_trials::{Meetings, Tasks, Trial, Tried, Turns, one_client, random_tasks, storm_of};
use tf_workers::{Reckoning, Totals};

/// Workers in turn at a store of one share.
fn turns_of<R: Abort + AllocGlobal + Wait + Threads + Sync>(
    rt: &R,
    transfers: u64,
) -> Result<Turns, Fail> {
    let script = transfers_between_two(rt.alloc(), transfers)?;
    let tasks = one_client(rt.alloc(), script)?;
    match try_out(rt, rt.alloc(), &tasks, Trial::Turns, &Meetings::new(true)) {
        Tried::Turns(turns) => Ok(turns),
        _ => Err(Fail::new("workers in turn had no memory")),
    }
}

/// A storm stores what the plain ledger stores, and all shares together tell so.
fn assert_counted<R: Abort + AllocGlobal + Wait + Threads + Sync>(
    rt: &R,
    tasks: &Tasks,
    gate: &Meetings,
    complete: bool,
) -> Result<(), Fail>
    requires clients { (0 < vec_len tasks.now.works) × (vec_len tasks.now.works ≤ 64) }
    requires asks { vec_len tasks.now.asks ≡ 2 }
{
    let expected = Totals {
        clients: tasks.works.len() as u64,
        stored: tasks.stored,
        shares: tasks.stored,
        complete,
    };
    match try_out(rt, rt.alloc(), tasks, Trial::Storm, gate) {
        Tried::Storm(totals) => {
            assert!(rt; totals == expected);
            Ok(())
        }
        _ => Err(Fail::new("a storm had no memory or no thread")),
    }
}

#[test]
fn a_client_alone_stores_all_and_counts_it(rt: HostRuntime) -> Result<(), Fail> {
    let turns = turns_of(&rt, 4)?;
    assert!(rt; turns.merges.is_complete && turns.merges.share == 6 && turns.book == 6);
    Ok(())
}

#[test]
fn a_compactor_alone_installs_twelve_tables_and_drops_a_stale_one(
    rt: HostRuntime,
) -> Result<(), Fail> {
    let merges = turns_of(&rt, 4)?.merges;
    let (before, after) = merges.references;
    let expected = Reckoning {
        offered: 13,
        taken: 13,
        left: 0,
    };
    assert!(rt; merges.is_complete && merges.installed == 12 && before > after);
    assert!(rt; merges.reckoned == expected && merges.jobs == (13, 13) && merges.taken == 13);
    Ok(())
}

#[test]
fn a_version_from_before_a_compaction_keeps_its_bytes(rt: HostRuntime) -> Result<(), Fail> {
    assert!(rt; turns_of(&rt, 4)?.merges.is_kept);
    Ok(())
}

#[test]
fn a_query_worker_alone_asks_twice(rt: HostRuntime) -> Result<(), Fail> {
    let turns = turns_of(&rt, 1)?;
    assert!(rt; turns.rows == Some(2) && turns.questions == (2, 2));
    Ok(())
}

#[test]
fn workers_go_at_the_same_time(rt: HostRuntime) -> Result<(), Fail> {
    let tasks = storm_of(rt.alloc(), that_meet(rt.alloc())?, 1, 1)?;
    let gate = Meetings::new(false);
    assert_counted(&rt, &tasks, &gate, true)?;
    assert!(rt; gate.have_met());
    Ok(())
}

/// Storms of so many clients with random scripts, so often.
fn assert_rounds<R: Abort + AllocGlobal + Wait + Threads + Sync>(
    rt: &R,
    seed: u64,
    clients: u32,
    rounds: u32,
) -> Result<(), Fail>
    requires { (0 < clients) × (clients ≤ 64) }
{
    let mut dice = Dice::new(seed);
    for _round in 0..rounds {
        let tasks = random_tasks(rt.alloc(), &mut dice, clients, 8)?;
        assert_counted(rt, &tasks, &Meetings::new(true), true)?;
    }
    Ok(())
}

#[test]
fn few_clients_store_what_they_count(rt: HostRuntime) -> Result<(), Fail> {
    assert_rounds(&rt, 1, 1, 20)?;
    assert_rounds(&rt, 2, 2, 20)?;
    assert_rounds(&rt, 3, 4, 20)
}

#[test]
fn sixteen_clients_store_what_they_count(rt: HostRuntime) -> Result<(), Fail> {
    assert_rounds(&rt, 4, 16, 10)
}

#[test]
fn sixteen_clients_store_what_they_count_again(rt: HostRuntime) -> Result<(), Fail> {
    assert_rounds(&rt, 5, 16, 10)
}

#[test]
fn sixty_four_clients_store_what_they_count(rt: HostRuntime) -> Result<(), Fail> {
    assert_rounds(&rt, 6, 64, 5)
}

#[test]
fn sixty_four_clients_store_what_they_count_again(rt: HostRuntime) -> Result<(), Fail> {
    assert_rounds(&rt, 7, 64, 5)
}

#[test]
fn sixty_four_clients_store_what_they_count_a_third_time(rt: HostRuntime) -> Result<(), Fail> {
    assert_rounds(&rt, 8, 64, 5)
}

#[test]
fn sixty_four_clients_store_what_they_count_a_fourth_time(rt: HostRuntime) -> Result<(), Fail> {
    assert_rounds(&rt, 9, 64, 5)
}

#[test]
fn a_storm_whose_query_workers_lack_memory_counts_all(rt: HostRuntime) -> Result<(), Fail> {
    let tasks = random_tasks(rt.alloc(), &mut Dice::new(2), 4, 3)?;
    assert_counted(&rt, &tasks, &Meetings::new(true), false)
}
