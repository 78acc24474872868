//! How runs end: the line and the status of each ending, a writer that fails, want of memory.

use crate::asserts::assert_at;
use linked_list_allocator::LocalHeap;
use std::alloc::Global;
use std::io;
use std::io::Write;
use std::process::Abort;
use std::test::Fail;
use tf_main::{Ending, RunFault, exit_status, run_script_plainly, write_ending};
use tf_served::run_script;

const SCRIPT: &str = "# Two accounts and one transfer.
accounts 1000
+ id=1 ledger=700 code=10
+ id=2 ledger=700 code=10
end
transfers 1000
+ id=5 debit_account_id=1 credit_account_id=2 amount=30 ledger=700 code=1
end
get_account_transfers account_id=1 limit=10 flags=debits|credits
";

const AFTER_ACCOUNTS: &str = "clock 1002\n";

const AFTER_TRANSFERS: &str = "clock 1002\nclock 1003\n";

const ANSWER: &str = "clock 1002
clock 1003
transfer id=5 debit_account_id=1 credit_account_id=2 amount=30 pending_id=0 user_data_128=0 user_data_64=0 user_data_32=0 timeout=0 ledger=700 code=1 flags=0 timestamp=1003
rows 1
";

/// How a writer takes bytes.
#[derive(Clone, Copy)]
enum Manner {
    /// A few in each call, and when there is no room it fails.
    FewAtOnce,
    /// As many as there is room for. Then it fails once, and takes all bytes from then on.
    FailsOnce,
    /// One in each second call, and it is interrupted in those before.
    Interrupted,
    /// None, and it doesn't fail.
    TakesNothing,
}

/// A writer with room for so many bytes.
#[derive(Drop)]
struct Taker {
    taken: Vec<u8>,
    room: usize,
    manner: Manner,
    has_failed: bool,
}

impl Taker {
    fn new(alloc: Global, manner: Manner, room: usize) -> Taker {
        Taker {
            taken: Vec::new(alloc),
            room,
            manner,
            has_failed: false,
        }
    }

    /// How many of so many bytes it takes, or how it fails.
    fn count(&mut self, count: usize) -> Result<usize, io::ErrorKind> {
        let count = match self.manner {
            Manner::FewAtOnce => count.min(self.room).min(3),
            Manner::FailsOnce if self.has_failed => return Ok(count),
            Manner::FailsOnce => count.min(self.room),
            Manner::Interrupted => return self.interrupted(count),
            Manner::TakesNothing => return Ok(0),
        };
        if count == 0 {
            self.has_failed = true;
            return Err(io::ErrorKind::StorageFull);
        }
        Ok(count)
    }

    /// Interrupted, or one byte.
    fn interrupted(&mut self, count: usize) -> Result<usize, io::ErrorKind> {
        self.has_failed = !self.has_failed;
        if self.has_failed {
            Err(io::ErrorKind::Interrupted)
        } else {
            Ok(count.min(1))
        }
    }
}

impl Write for Taker {
    fn write(&mut self, buf: &[u8]) -> io::Result<usize> {
        let count = match self.count(buf.len()) {
            Ok(count) => count.min(buf.len()),
            Err(kind) => return Err(io::Error::from(kind)),
        };
        self.taken.extend_from_slice(&buf[..count])?;
        self.room = self.room.saturating_sub(count);
        Ok(count)
    }

    fn flush(&mut self) -> io::Result<()> {
        Ok(())
    }
}

/// The line and the status that are reported of an ending.
fn assert_reported(rt: &(impl Abort + AllocGlobal), ending: &Ending, line: &str, status: u8) {
    let mut written = Vec::new(rt.alloc());
    assert!(rt; write_ending(ending, &mut written).is_ok());
    assert!(rt; exit_status(ending) == status);
    assert!(rt; written.as_slice() == line.as_bytes());
}

#[test]
fn endings_have_their_line_and_status(rt: HostRuntime) -> Result<(), Fail> {
    let usage = "usage: tigerforest run SCRIPT or tigerforest storm SCRIPT..\n";
    assert_reported(&rt, &Ending::Done, "", 0);
    assert_reported(&rt, &Ending::Usage, usage, 1);
    let name = String::from_str(rt.alloc(), "no such file")?;
    assert_reported(
        &rt,
        &Ending::CannotRead(name),
        "cannot read no such file\n",
        1,
    );
    let line = RunFault::BadLine {
        line: u64::MAX,
        column: 10,
    };
    let text = "bad line 18446744073709551615 column 10\n";
    assert_reported(&rt, &Ending::Fault(line), text, 1);
    let error = io::Error::from(io::ErrorKind::StorageFull);
    assert_reported(
        &rt,
        &Ending::Fault(RunFault::CannotWrite(error)),
        "cannot write\n",
        1,
    );
    assert_reported(&rt, &Ending::Fault(RunFault::NoMemory), "no memory\n", 2);
    Ok(())
}

#[test]
fn an_ending_keeps_to_its_line_where_the_writer_fails(rt: HostRuntime) {
    let fault = Ending::Fault(RunFault::BadLine {
        line: 12,
        column: 34,
    });
    let line = b"bad line 12 column 34\n";
    for room in 0..=line.len() {
        let mut err = Taker::new(rt.alloc(), Manner::FewAtOnce, room);
        assert!(rt; write_ending(&fault, &mut err).is_ok() == (room == line.len()));
        assert!(rt; err.taken.as_slice() == &line[..room]);
    }
}

/// Whether a run ends since its writer fails like this.
fn is_ended_by(alloc: Global, out: &mut Taker, kind: io::ErrorKind) -> bool {
    match run_script_plainly(alloc, SCRIPT.as_bytes(), out) {
        Err(RunFault::CannotWrite(error)) => error.kind() == kind,
        Ok(()) | Err(_) => false,
    }
}

/// Whether a run whose writer has room for so many bytes, fewer than the answer has, ends where the writer fails. Nothing is
/// written after that.
fn is_cut_off(alloc: Global, manner: Manner, room: usize) -> bool {
    let mut out = Taker::new(alloc, manner, room);
    let is_full = is_ended_by(alloc, &mut out, io::ErrorKind::StorageFull);
    is_full && out.taken.len() == room && ANSWER.as_bytes().starts_with(out.taken.as_slice())
}

/// Whether a run writes the whole answer.
fn is_whole(alloc: Global, manner: Manner, room: usize) -> bool {
    let mut out = Taker::new(alloc, manner, room);
    let outcome = run_script_plainly(alloc, SCRIPT.as_bytes(), &mut out);
    outcome.is_ok() && out.taken.as_slice() == ANSWER.as_bytes()
}

#[test]
fn writer_that_fails_ends_the_run(rt: HostRuntime) {
    for room in 0..ANSWER.len() {
        let holds = is_cut_off(rt.alloc(), Manner::FewAtOnce, room);
        assert_at(&rt, holds, "room", room as u64);
    }
    assert!(rt; is_whole(rt.alloc(), Manner::FewAtOnce, ANSWER.len()));
}

#[test]
fn nothing_is_written_after_a_failure(rt: HostRuntime) {
    for room in 0..ANSWER.len() {
        let holds = is_cut_off(rt.alloc(), Manner::FailsOnce, room);
        assert_at(&rt, holds, "room", room as u64);
    }
}

#[test]
fn interrupted_write_is_tried_again(rt: HostRuntime) {
    assert!(rt; is_whole(rt.alloc(), Manner::Interrupted, ANSWER.len()));
}

#[test]
fn writer_that_takes_nothing_ends_the_run(rt: HostRuntime) {
    let mut out = Taker::new(rt.alloc(), Manner::TakesNothing, 0);
    assert!(rt; is_ended_by(rt.alloc(), &mut out, io::ErrorKind::WriteZero));
}

/// What was written is the whole answer, or the lines of some commands, from the first one on, where memory was refused.
/// Tells whether it is the whole answer, and whether memory was refused after some lines.
fn assert_lines_whole(
    rt: &(impl Abort + AllocGlobal),
    outcome: Result<(), RunFault>,
    written: &[u8],
) -> (bool, bool) {
    match outcome {
        Ok(()) => {
            assert!(rt; written == ANSWER.as_bytes());
            (true, false)
        }
        Err(fault) => {
            assert_reported(rt, &Ending::Fault(fault), "no memory\n", 2);
            assert!(rt;
                written.is_empty()
                    || written == AFTER_ACCOUNTS.as_bytes()
                    || written == AFTER_TRANSFERS.as_bytes()
            );
            (false, !written.is_empty())
        }
    }
}

#[test]
fn want_of_memory_leaves_whole_answers(rt: HostRuntime) -> Result<(), Fail> {
    let (mut answered, mut kept) = (false, false);
    for size in 1..64usize {
        let heap = LocalHeap::new(rt.alloc(), size * 64)?;
        let mut out = Vec::new(rt.alloc());
        let outcome = run_script_plainly(&heap, SCRIPT.as_bytes(), &mut out);
        let (whole, some) = assert_lines_whole(&rt, outcome, out.as_slice());
        answered |= whole;
        kept |= some;
    }
    // Some heap held the whole run, and some lacked memory only for a later command.
    assert!(rt; answered && kept);
    Ok(())
}

#[test]
fn want_of_memory_leaves_whole_answers_of_a_store(rt: HostRuntime) -> Result<(), Fail> {
    let (mut answered, mut kept) = (false, false);
    for size in 1..96usize {
        let heap = LocalHeap::new(rt.alloc(), size * 8192)?;
        let mut out = Vec::new(rt.alloc());
        let outcome = run_script(&rt, &heap, SCRIPT.as_bytes(), &mut out);
        let (whole, some) = assert_lines_whole(&rt, outcome, out.as_slice());
        answered |= whole;
        kept |= some;
        assert!(rt; heap.used() == 0);
    }
    assert!(rt; answered && kept);
    Ok(())
}
