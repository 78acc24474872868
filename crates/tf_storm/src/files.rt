//! Storms of the scripts in files.
ghost use Rattle.std.specs.Prelude.{◌≡◌, ◌⊎◌, ◌<◌, ◌≤◌, length, vec_len};
ghost use Rattle.tf_storm.specs.Storm.{EndingTells};

use crate::{RunStormFault, Storm, run_storm};
use std::alloc::Global;
use std::io::{ErrorKind, Write};
use std::marker::Sync;
use std::rt::Files;
use std::sync::Wait;
use std::thread::Threads;
use std::{fs, io};
use tf_main::{Ending, RunFault};
use tf_workers::{Done, OpenGate};

/// The most scripts of a storm.
const SCRIPTS_MAX: usize = 64;

/// How the program ends where a file can't be read: for want of memory, or with its name.
fn unread(error: &io::Error, name: String) -> Ending
    ensures { (result ≡ Ending.CannotRead name) ⊎ (result ≡ Ending.Fault RunFault.NoMemory) }
{
    match error.kind() {
        ErrorKind::OutOfMemory => Ending::Fault(RunFault::NoMemory),
        _ => Ending::CannotRead(name),
    }
}

/// Runs the scripts in the files of these names, 1 to 64 of them, by `run_storm`, and tells how that ended. All files are read, in
/// order, before any script is.
///
/// `Ending::Usage` where there are none or too many, and `Ending::CannotRead` with the name of the first file that can't be read:
/// nothing was run. A storm in which a worker met a want of memory ends as one, with its lines written. What each worker did is told
/// beside the ending of a storm whose lines were written.
pub fn storm_files<R, W>(
    rt: &R,
    names: Vec<String, Global>,
    out: &mut W,
) -> (Ending, Vec<Done, Global>)
where
    R: Files + AllocGlobal + Wait + Threads + Sync,
    W: Write,
    ensures told { EndingTells (vec_len names) (W.contents out.old) (W.contents out.new) result.0 }
    ensures usage { (vec_len names ≡ 0) ⊎ (64 < vec_len names) → result.0 ≡ Ending.Usage }
{
    if names.is_empty() || names.len() > SCRIPTS_MAX {
        return (Ending::Usage, Vec::new(rt.alloc()));
    }
    let mut scripts = Vec::new(rt.alloc());
    for name in names {
        match fs::read(rt, name.as_str()) {
            Ok(script) => {
                if scripts.push(script).is_err() {
                    return (Ending::Fault(RunFault::NoMemory), Vec::new(rt.alloc()));
                }
            }
            Err(error) => return (unread(&error, name), Vec::new(rt.alloc())),
        }
    }
    storm_texts(rt, scripts.as_slice(), out)
}

/// Runs these scripts.
fn storm_texts<R, W>(rt: &R, scripts: &[Vec<u8>], out: &mut W) -> (Ending, Vec<Done, Global>)
where
    R: AllocGlobal + Wait + Threads + Sync,
    W: Write,
    requires { (0 < length scripts.now) × (length scripts.now ≤ 64) }
    ensures { EndingTells (length scripts.now) (W.contents out.old) (W.contents out.new) result.0 }
{
    match run_storm(rt, rt.alloc(), scripts, &OpenGate, out) {
        Ok(
            Storm {
                complete: true,
                done,
            },
        ) => (Ending::Done, done),
        Ok(Storm { done, .. }) => (Ending::Fault(RunFault::NoMemory), done),
        Err(RunStormFault::Run(fault)) => (Ending::Fault(fault), Vec::new(rt.alloc())),
        Err(RunStormFault::NoThread) => (Ending::NoThread, Vec::new(rt.alloc())),
    }
}
