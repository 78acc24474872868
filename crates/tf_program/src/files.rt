//! Files that can't be read, and writers that are flushed.

use std::io;
use std::io::ErrorKind;
use tf_main::{Ending, RunFault};

/// How the program ends after an error: for want of memory, or in this way.
pub fn ending_unless_no_memory(error: io::Error, ending: Ending) -> Ending {
    match error.kind() {
        ErrorKind::OutOfMemory => Ending::Fault(RunFault::NoMemory),
        _ => ending,
    }
}
