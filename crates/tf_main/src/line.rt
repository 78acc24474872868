//! The lines of commands.

ghost use Rattle.std.specs.Prelude.{◌≡◌, ◌≤◌, length};
ghost use Rattle.std.specs.List.{flat_map};
ghost use Rattle.tf_main.specs.Line.{batch_lines, clock_line, compacted_line, count_line, failure_line, number_line, published_line, pulse_lines, refusal_line, refused_line, share_lines, totals_lines};
ghost use Rattle.tf_main.specs.Output.{Writes};

use crate::line_buffer::LineBuffer;
use crate::output::{write_bytes, write_pieces};
use std::io;
use std::io::Write;
use tf_records::{Failure, Refusal};

/// How many bytes the line of a name and a number may have: a name of 48, a number of 20, a space and a line feed.
const ROOM: usize = 80;

/// Writes `NAME NUMBER`.
fn write_number<W: Write>(name: &str, number: u64, out: &mut W) -> io::Result<()>
    requires { length name.now ≤ 48 }
    ensures { Writes (W.contents out.old) (W.contents out.new) result (number_line name.now number) }
{
    write_bytes(line_of_number(name, number).as_slice(), out)
}

/// The line `NAME NUMBER`.
fn line_of_number(name: &str, number: u64) -> LineBuffer<ROOM>
    requires { length name.now ≤ 48 }
    ensures { result ≡ number_line name.now number }
{
    let mut line = LineBuffer::new();
    line.put_byte(b'\n');
    line.put_number(number.into());
    line.put_byte(b' ');
    line.put(name);
    line
}

/// Writes `INDEX RESULT`.
fn write_failure<W: Write>(failure: &Failure, out: &mut W) -> io::Result<()>
    ensures { Writes (W.contents out.old) (W.contents out.new) result (failure_line failure.now) }
{
    write_bytes(line_of_failure(failure).as_slice(), out)
}

/// The line `INDEX RESULT`.
fn line_of_failure(failure: &Failure) -> LineBuffer<ROOM>
    ensures { result ≡ failure_line failure.now }
{
    let mut line = LineBuffer::new();
    line.put_byte(b'\n');
    line.put(failure.outcome.name());
    line.put_byte(b' ');
    line.put_number(failure.index.into());
    line
}

/// Writes the lines of a batch that was run: `INDEX RESULT` for each failed event, then `clock C`.
/// Takes no memory.
pub fn write_reply<W: Write>(failures: &[Failure], clock: u64, out: &mut W) -> io::Result<()>
    ensures { Writes (W.contents out.old) (W.contents out.new) result
        (batch_lines failures.now clock) }
{
    write_failures(failures, out)?;
    write_clock(clock, out)
}

/// Writes the lines of a pulse: `expired K`, then `clock C`. Takes no memory.
pub fn write_pulse<W: Write>(expired: u32, clock: u64, out: &mut W) -> io::Result<()>
    ensures { Writes (W.contents out.old) (W.contents out.new) result (pulse_lines expired clock) }
{
    write_number("expired", expired.into(), out)?;
    write_clock(clock, out)
}

/// Writes what a storm counted: `clients N`, `stored X` and `shares Y`. Takes no memory.
pub fn write_totals<W: Write>(clients: u64, stored: u64, shares: u64, out: &mut W) -> io::Result<()>
    ensures { Writes (W.contents out.old) (W.contents out.new) result
        (totals_lines clients stored shares) }
{
    write_number("clients", clients, out)?;
    write_shares(stored, shares, out)
}

/// Writes `stored X` and `shares Y`.
fn write_shares<W: Write>(stored: u64, shares: u64, out: &mut W) -> io::Result<()>
    ensures { Writes (W.contents out.old) (W.contents out.new) result (share_lines stored shares) }
{
    write_number("stored", stored, out)?;
    write_number("shares", shares, out)
}

/// Writes `INDEX RESULT` for each failed event. Takes no memory.
pub fn write_failures<W: Write>(failures: &[Failure], out: &mut W) -> io::Result<()>
    ensures { Writes (W.contents out.old) (W.contents out.new) result
        (flat_map failure_line failures.now) }
{
    for failure in failures {
        write_failure(failure, out)?;
    }
    Ok(())
}

/// Writes `clock C`. Takes no memory.
pub fn write_clock<W: Write>(clock: u64, out: &mut W) -> io::Result<()>
    ensures { Writes (W.contents out.old) (W.contents out.new) result (clock_line clock) }
{
    write_number("clock", clock, out)
}

/// Writes `rows K`. Takes no memory.
pub fn write_count<W: Write>(count: usize, out: &mut W) -> io::Result<()>
    ensures { Writes (W.contents out.old) (W.contents out.new) result (count_line count) }
{
    write_number("rows", count as u64, out)
}

/// Writes `published`. Takes no memory.
pub fn write_published<W: Write>(out: &mut W) -> io::Result<()>
    ensures { Writes (W.contents out.old) (W.contents out.new) result published_line }
{
    write_pieces(&["published", "\n"], out)
}

/// Writes `compacted`. Takes no memory.
pub fn write_compacted<W: Write>(out: &mut W) -> io::Result<()>
    ensures { Writes (W.contents out.old) (W.contents out.new) result compacted_line }
{
    write_pieces(&["compacted", "\n"], out)
}

/// Writes `refused NAME` for a refusal by which a script goes on, else nothing. Takes no memory.
pub fn write_refusal<W: Write>(refusal: Refusal, out: &mut W) -> io::Result<()>
    ensures { Writes (W.contents out.old) (W.contents out.new) result (refusal_line refusal) }
{
    match refusal {
        Refusal::BatchTooLarge => write_refused("batch_too_large", out),
        Refusal::ClockExhausted => write_refused("clock_exhausted", out),
        Refusal::RegistryFull => write_refused("registry_full", out),
        Refusal::NoMemory | Refusal::Stale | Refusal::BadLine { .. } | Refusal::BadRecord { .. } =>
            Ok(()),
    }
}

/// Writes `refused NAME`.
fn write_refused<W: Write>(name: &str, out: &mut W) -> io::Result<()>
    ensures { Writes (W.contents out.old) (W.contents out.new) result (refused_line name.now) }
{
    write_pieces(&["refused ", name, "\n"], out)
}
