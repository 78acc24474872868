//! Rows of numbers over one registry.
ghost use Rattle.std.specs.Prelude.{◌≡◌};
ghost use Rattle.std.specs.Arc.{arc_value};

use crate::rows::Numbers;
use std::alloc::Global;
use std::marker::{Brand, Send, Sync};
use std::sync::{Arc, Wait};
use std::test::Fail;
use std::thread::Threads;
use tf_registry::{Naming, Registry};
use tf_row_trials::{LIMIT, Trial, tried};

/// Tries something with a registry of its own, and tells whether it holds.
fn holds(rt: &(impl Wait + Threads + AllocGlobal), trial: Trial) -> Result<bool, Fail> {
    match Arc::new(rt.alloc(), Registry::new(rt.alloc())?) {
        Ok(registry) => {
            let holds = with_rows::<Brand>(rt, rt.alloc(), &registry, trial);
            drop(registry);
            Ok(holds)
        }
        Err(_) => Err(Fail::new("no memory for a registry")),
    }
}

/// Tries something with rows of their own.
fn with_rows<N: Naming + Send + Sync>(
    rt: &(impl Wait + Threads),
    alloc: Global,
    registry: &Arc<Registry<u64, Global>, Global>,
    trial: Trial,
) -> bool
    requires here { arc_value registry.now ≡ N.shelf 0 }
{
    match Numbers::<Global, N>::new(registry, LIMIT, alloc) {
        Ok(mut rows) => {
            let holds = try_rows(rt, alloc, &mut rows, trial);
            drop(rows);
            holds
        }
        Err(_) => false,
    }
}

/// Tries something with rows that are lent.
fn try_rows<N: Naming + Send + Sync>(
    rt: &(impl Wait + Threads),
    alloc: Global,
    rows: &mut Numbers<Global, N>,
    trial: Trial,
) -> bool {
    tried(rt, alloc, rows, trial)
}

#[test]
fn tombstones_go_where_nothing_is_older(rt: HostRuntime) -> Result<(), Fail> {
    assert!(rt; holds(&rt, Trial::Tombstones)?);
    Ok(())
}

#[test]
fn copies_of_a_row_stay(rt: HostRuntime) -> Result<(), Fail> {
    assert!(rt; holds(&rt, Trial::Copies)?);
    Ok(())
}

#[test]
fn an_install_changes_one_row_of_its_kind(rt: HostRuntime) -> Result<(), Fail> {
    assert!(rt; holds(&rt, Trial::InstalledOnce)?);
    assert!(rt; holds(&rt, Trial::RefusedAtTheLimit)?);
    Ok(())
}

#[test]
fn a_run_is_merged_in_another_thread(rt: HostRuntime) -> Result<(), Fail> {
    assert!(rt; holds(&rt, Trial::MergedBeside)?);
    Ok(())
}
