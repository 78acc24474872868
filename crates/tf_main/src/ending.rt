//! How the program ends: its last line on standard error, and its exit status.

ghost use Rattle.std.specs.Prelude.{◌≡◌};
ghost use Rattle.tf_main.specs.Ending.{bad_line, ending_line, exit_status_of, fault_line, unread_line};
ghost use Rattle.tf_main.specs.Output.{Writes, joined};

use crate::RunFault;
use crate::output::write_pieces;
use itoa::Buffer;
use std::io;
use std::io::Write;

const USAGE: &str = "usage: tigerforest run SCRIPT or tigerforest storm SCRIPT..";

/// How the program ended.
#[derive(Debug, Drop)]
pub enum Ending {
    /// The script was run to its end.
    Done,
    /// The arguments were wrong.
    Usage,
    /// The file of this name couldn't be read.
    CannotRead(String),
    /// The run ended early.
    Fault(RunFault),
    /// A thread of a storm couldn't be made.
    NoThread,
}

/// The exit status: 0 after a whole run, 2 for want of memory or of a thread, else 1.
pub fn exit_status(ending: &Ending) -> u8
    ensures { result ≡ exit_status_of ending.now }
{
    match ending {
        Ending::Done => 0,
        Ending::Usage | Ending::CannotRead(_) => 1,
        Ending::Fault(RunFault::NoMemory) | Ending::NoThread => 2,
        Ending::Fault(_) => 1,
    }
}

/// Writes the ending's line to standard error, or to what stands for it; after a whole run there is none. Takes no memory.
///
/// A writer that fails keeps the part of the line that it took.
pub fn write_ending<W: Write>(ending: &Ending, err: &mut W) -> io::Result<()>
    ensures { Writes (W.contents err.old) (W.contents err.new) result (ending_line ending.now) }
{
    match ending {
        Ending::Done => Ok(()),
        Ending::Usage => write_pieces(&[USAGE, "\n"], err),
        Ending::CannotRead(name) => write_unread(name.as_str(), err),
        Ending::Fault(fault) => write_fault(fault, err),
        Ending::NoThread => write_pieces(&["cannot start a thread", "\n"], err),
    }
}

/// Writes that the file of this name couldn't be read.
fn write_unread<W: Write>(name: &str, err: &mut W) -> io::Result<()>
    ensures { Writes (W.contents err.old) (W.contents err.new) result (unread_line name.now) }
{
    write_pieces(&["cannot read ", name, "\n"], err)
}

/// Writes the line of a fault.
fn write_fault<W: Write>(fault: &RunFault, err: &mut W) -> io::Result<()>
    ensures { Writes (W.contents err.old) (W.contents err.new) result (fault_line fault.now) }
{
    match fault {
        RunFault::NoMemory => write_pieces(&["no memory", "\n"], err),
        RunFault::BadLine { line, column } => write_bad_line(*line, *column, err),
        RunFault::CannotWrite(_) => write_pieces(&["cannot write", "\n"], err),
    }
}

/// Writes the line of a script's first fault.
fn write_bad_line<W: Write>(line: u64, column: u64, out: &mut W) -> io::Result<()>
    ensures { Writes (W.contents out.old) (W.contents out.new) result (bad_line line column) }
{
    let (mut line_digits, mut column_digits) = (Buffer::new(), Buffer::new());
    let (line, column) = (line_digits.format(line), column_digits.format(column));
    write_pieces(&["bad line ", line, " column ", column, "\n"], out)
}
