//! A manifest of all 21 rows, of which the row expiry is tried.
ghost use Rattle.std.specs.Prelude.{◌≡◌, ◌≤◌};
ghost use Rattle.tf_manifest.specs.Registries.{AreShelves};

use std::alloc::Global;
use std::marker::{Brand, Send, Sync};
use std::sync::Wait;
use std::test::Fail;
use std::thread::Threads;
use tf_manifest::{Manifest, Registries};
use tf_registry::Naming;
use tf_row_trials::{LIMIT, Trial, tried};

/// Tries something with a manifest of its own, and tells whether it holds.
fn holds<N: Naming + Send + Sync>(
    rt: &(impl Wait + Threads),
    alloc: Global,
    registries: &Registries<Global>,
    trial: Trial,
) -> bool
    requires { AreShelves N.shelf registries.now }
{
    match Manifest::<Global, N>::new(registries, alloc) {
        Ok(mut manifest) => {
            let holds = try_manifest(rt, alloc, &mut manifest, trial);
            drop(manifest);
            holds
        }
        Err(_) => false,
    }
}

/// Tries something with a manifest that is lent: what names it as rows that are tried owns none.
fn try_manifest<N: Naming + Send + Sync>(
    rt: &(impl Wait + Threads),
    alloc: Global,
    manifest: &mut Manifest<Global, N>,
    trial: Trial,
) -> bool {
    tried(rt, alloc, manifest, trial)
}

/// Tries each with a manifest of its own, over the same registries.
fn all_hold<N: Naming + Send + Sync>(
    rt: &(impl Wait + Threads),
    alloc: Global,
    registries: &Registries<Global>,
    trials: &[Trial],
) -> bool
    requires { AreShelves N.shelf registries.now }
{
    for trial in trials {
        if !holds::<N>(rt, alloc, registries, *trial) {
            return false;
        }
    }
    true
}

#[test]
fn a_job_of_a_manifest_is_installed_once_under_its_limit_whatever_was_pushed(
    rt: HostRuntime,
) -> Result<(), Fail> {
    let registries = Registries::with_limit(rt.alloc(), LIMIT)?;
    let trials = [Trial::InstalledOnce, Trial::RefusedAtTheLimit];
    let all_hold = all_hold::<Brand>(&rt, rt.alloc(), &registries, &trials);
    drop(registries);
    assert!(rt; all_hold);
    Ok(())
}

#[test]
fn a_run_of_a_manifest_is_merged_in_another_thread(rt: HostRuntime) -> Result<(), Fail> {
    let registries = Registries::with_limit(rt.alloc(), LIMIT)?;
    let holds = holds::<Brand>(&rt, rt.alloc(), &registries, Trial::MergedBeside);
    drop(registries);
    assert!(rt; holds);
    Ok(())
}
