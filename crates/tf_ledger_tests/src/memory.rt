//! Requests for memory refused, and the same command again with memory.

ghost use Rattle.tf_journal.specs.Lawful.{IsLawfulAt};

use crate::ledgers::{Shown, empty, run, told};
use crate::state::assert_state;
use linked_list_allocator::LocalHeap;
use std::alloc::{Allocator, Global};
use std::process::Abort;
use tf_journal::{Entry, Ledger};
use tf_pending::pulse;
use tf_records::Refusal;
use tf_script::{Command, parse};

/// A command that is run where memory is short.
struct Trial {
    /// The commands before it, itself, and the one that is run after it was refused, with all of the memory.
    script: &'static str,
    /// The size of the heap, of which 16 bytes less are taken in each round; or 0 where none is, and the heap is 64 bytes
    /// larger in each.
    ample: usize,
    rounds: usize,
    /// What holds where a command before it was refused.
    lost: &'static str,
    /// What holds where the command was refused.
    refused: &'static str,
    /// What the last command answers then.
    answer: &'static str,
    /// What holds after that.
    again: &'static str,
    /// What holds where the command went through.
    through: &'static str,
}

/// How a round went.
enum Round {
    /// The heap hasn't so many bytes as were to be taken.
    Small,
    /// A command before was refused.
    Lost,
    Refused,
    Through,
}

/// Whether a command is refused, which leaves the ledger as it was.
fn is_refused<L: Ledger + Shown, A: Allocator>(
    rt: &(impl Abort + AllocGlobal),
    alloc: A,
    ledger: &mut L,
    command: &Command<Global>,
) -> Result<bool, Refusal>
    requires { IsLawfulAt (L.clock ledger.old) (L.journal ledger.old) }
    ensures { IsLawfulAt (L.clock ledger.new) (L.journal ledger.new) }
{
    let before = ledger.shown().to_vec(rt.alloc())?;
    let clock = ledger.clock();
    let refusal = run(alloc, ledger, command).err();
    if refusal.is_some() {
        assert!(rt; refusal == Some(Refusal::NoMemory));
        assert!(rt; has_entries(ledger, clock, &before));
    }
    drop(before);
    Ok(refusal.is_some())
}

/// Whether these are the clock and the entries.
fn has_entries<L: Ledger + Shown>(ledger: &L, clock: u64, entries: &[Entry]) -> bool {
    ledger.clock() == clock && ledger.mark().length == entries.len() && ledger.shown() == entries
}

/// Whether one of these commands is refused, up to which they are run.
fn is_one_refused<L: Ledger + Shown, A: Allocator + Copy>(
    rt: &(impl Abort + AllocGlobal),
    alloc: A,
    ledger: &mut L,
    commands: &[Command<Global>],
) -> Result<bool, Refusal>
    requires { IsLawfulAt (L.clock ledger.old) (L.journal ledger.old) }
    ensures { IsLawfulAt (L.clock ledger.new) (L.journal ledger.new) }
{
    for command in commands {
        if is_refused(rt, alloc, ledger, command)? {
            return Ok(true);
        }
    }
    Ok(false)
}

/// Whether a command is refused with so many bytes taken; nothing where there aren't so many.
fn is_refused_beside<L: Ledger + Shown, A: Allocator + Copy>(
    rt: &(impl Abort + AllocGlobal),
    alloc: A,
    ledger: &mut L,
    command: &Command<Global>,
    taken: usize,
) -> Result<Option<bool>, Refusal>
    requires { IsLawfulAt (L.clock ledger.old) (L.journal ledger.old) }
    ensures { IsLawfulAt (L.clock ledger.new) (L.journal ledger.new) }
{
    let Ok(ballast) = Vec::<u8, A>::with_capacity(alloc, taken) else {
        return Ok(None);
    };
    let refused = is_refused(rt, alloc, ledger, command);
    drop(ballast);
    Ok(Some(refused?))
}

/// Whether a command answers so: a batch its failed events, a line each, and a pulse how many transfers expire.
fn answers<L: Ledger, A: Allocator>(
    global: Global,
    alloc: A,
    ledger: &mut L,
    command: &Command<Global>,
    answer: &str,
) -> Result<bool, Refusal>
    requires { IsLawfulAt (L.clock ledger.old) (L.journal ledger.old) }
{
    if let Command::Pulse { now, max } = command {
        let expired = pulse(ledger, *now, *max)?;
        return Ok(answer.parse::<u32>().ok() == Some(expired));
    }
    let reply = run(alloc, ledger, command)?;
    Ok(told(global, &reply)?.as_str() == answer)
}

/// Runs the commands of a trial with so many bytes taken while its command is run.
fn try_on<L: Ledger + Shown, A: Allocator + Copy>(
    rt: &(impl Abort + AllocGlobal),
    alloc: A,
    ledger: &mut L,
    taken: usize,
    commands: &[Command<Global>],
    trial: &Trial,
) -> Result<Round, Refusal>
    requires { IsLawfulAt (L.clock ledger.old) (L.journal ledger.old) }
{
    let [before @ .., command, again] = commands else {
        return Ok(Round::Small);
    };
    if is_one_refused(rt, alloc, ledger, before)? {
        assert_state(rt, ledger, trial.lost);
        return Ok(Round::Lost);
    }
    match is_refused_beside(rt, alloc, ledger, command, taken)? {
        None => Ok(Round::Small),
        Some(false) => {
            assert_state(rt, ledger, trial.through);
            Ok(Round::Through)
        }
        Some(true) => try_again(rt, alloc, ledger, again, trial),
    }
}

/// Runs the last command of a trial, whose command was refused.
fn try_again<L: Ledger + Shown, A: Allocator>(
    rt: &(impl Abort + AllocGlobal),
    alloc: A,
    ledger: &mut L,
    again: &Command<Global>,
    trial: &Trial,
) -> Result<Round, Refusal>
    requires { IsLawfulAt (L.clock ledger.old) (L.journal ledger.old) }
{
    assert_state(rt, ledger, trial.refused);
    assert!(rt; answers(rt.alloc(), alloc, ledger, again, trial.answer)?);
    assert_state(rt, ledger, trial.again);
    Ok(Round::Refused)
}

/// A round with a heap and a ledger of its own.
fn try_on_heap(
    rt: &(impl Abort + AllocGlobal),
    size: usize,
    taken: usize,
    commands: &[Command<Global>],
    trial: &Trial,
) -> Result<Round, Refusal> {
    let heap = LocalHeap::new(rt.alloc(), size)?;
    let mut ledger = empty(&heap);
    let round = try_on(rt, &heap, &mut ledger, taken, commands, trial);
    drop(ledger);
    drop(heap);
    round
}

/// How a round of a trial goes.
fn run_round(
    rt: &(impl Abort + AllocGlobal),
    round: usize,
    commands: &[Command<Global>],
    trial: &Trial,
) -> Result<Round, Refusal> {
    let Trial { ample, .. } = trial;
    if *ample == 0 {
        try_on_heap(rt, round.saturating_mul(64), 0, commands, trial)
    } else {
        let taken = ample.saturating_sub(round.saturating_mul(16));
        try_on_heap(rt, *ample, taken, commands, trial)
    }
}

/// Runs the rounds of a trial, of which some are refused and some go through. Where the heap grows, a command before is refused
/// in some too, and else in none.
fn assert_rounds(rt: &(impl Abort + AllocGlobal), trial: &Trial) -> Result<(), Refusal> {
    let commands = parse(rt.alloc(), trial.script.as_bytes())?;
    let (mut lost, mut refused, mut through) = (0u32, 0u32, 0u32);
    for round in 1..=trial.rounds {
        match run_round(rt, round, &commands, trial)? {
            Round::Small => {}
            Round::Lost => lost = lost.saturating_add(1),
            Round::Refused => refused = refused.saturating_add(1),
            Round::Through => through = through.saturating_add(1),
        }
    }
    assert!(rt; refused > 2 && through > 2 && (lost == 0) == (trial.ample != 0));
    Ok(())
}

/// Batches of accounts and of transfers, and one transfer more.
const BATCHES: Trial = Trial {
    script: "accounts 1000
+ id=1 user_data_128=7 user_data_64=8 user_data_32=9 ledger=1 code=10
+ id=0 user_data_128=7 user_data_64=8 user_data_32=9 ledger=1 code=10
+ id=2 user_data_128=7 user_data_64=8 user_data_32=9 ledger=1 code=10
end
transfers 0
+ id=5 debit_account_id=1 credit_account_id=2 amount=1 ledger=1 code=11
+ id=5 debit_account_id=1 credit_account_id=2 amount=2 ledger=1 code=11
+ id=6 debit_account_id=1 credit_account_id=2 amount=3 ledger=1 code=11 flags=linked
+ id=7 debit_account_id=1 credit_account_id=2 amount=4 ledger=1 code=11 flags=pending
+ id=8 debit_account_id=1 credit_account_id=2 amount=1 ledger=1 code=11 flags=linked
+ id=9 amount=max pending_id=1 flags=post_pending_transfer
end
transfers 0
+ id=10 debit_account_id=1 credit_account_id=2 amount=1 ledger=1 code=11
end
",
    ample: 0,
    rounds: 59,
    lost: "clock 0
length 0
no_account 1",
    refused: "clock 1003
length 2",
    answer: "",
    again: "length 3",
    through: "length 6",
};

/// Two accounts and a pending transfer; twice a batch with a chain that is stored, an accepted post, a chain that fails and
/// leaves a failed id, a failed id of its own, and an open chain.
const BATCH: Trial = Trial {
    script: "accounts 1000
+ id=1 user_data_128=7 user_data_64=8 user_data_32=9 ledger=1 code=10
+ id=2 user_data_128=7 user_data_64=8 user_data_32=9 ledger=1 code=10
end
transfers 0
+ id=3 debit_account_id=1 credit_account_id=2 amount=10 ledger=1 code=11 flags=pending
end
transfers 0
+ id=5 debit_account_id=1 credit_account_id=2 amount=1 ledger=1 code=11 flags=linked
+ id=6 debit_account_id=1 credit_account_id=2 amount=2 ledger=1 code=11
+ id=7 amount=max pending_id=3 flags=post_pending_transfer
+ id=8 debit_account_id=1 credit_account_id=2 amount=1 ledger=1 code=11 flags=linked
+ id=9 amount=max pending_id=99 flags=linked|post_pending_transfer
+ id=10 debit_account_id=1 credit_account_id=2 amount=1 ledger=1 code=11
+ id=11 amount=max pending_id=99 flags=post_pending_transfer
+ id=12 debit_account_id=1 credit_account_id=2 amount=4 ledger=1 code=11 flags=pending
+ id=13 debit_account_id=1 credit_account_id=2 amount=1 ledger=1 code=11 flags=linked
end
transfers 0
+ id=5 debit_account_id=1 credit_account_id=2 amount=1 ledger=1 code=11 flags=linked
+ id=6 debit_account_id=1 credit_account_id=2 amount=2 ledger=1 code=11
+ id=7 amount=max pending_id=3 flags=post_pending_transfer
+ id=8 debit_account_id=1 credit_account_id=2 amount=1 ledger=1 code=11 flags=linked
+ id=9 amount=max pending_id=99 flags=linked|post_pending_transfer
+ id=10 debit_account_id=1 credit_account_id=2 amount=1 ledger=1 code=11
+ id=11 amount=max pending_id=99 flags=post_pending_transfer
+ id=12 debit_account_id=1 credit_account_id=2 amount=4 ledger=1 code=11 flags=pending
+ id=13 debit_account_id=1 credit_account_id=2 amount=1 ledger=1 code=11 flags=linked
end
",
    ample: 8_192,
    rounds: 512,
    lost: "",
    refused: "clock 1003
length 3",
    answer: "3 linked_event_failed
4 pending_transfer_not_found
5 linked_event_failed
6 pending_transfer_not_found
8 linked_event_chain_open
",
    again: RUN_ONCE,
    through: RUN_ONCE,
};

/// What holds after the batch was run, once.
const RUN_ONCE: &str = "clock 1012
length 9
failed 9
failed 11
free 8
free 13
transfers shown + id=7 debit_account_id=1 credit_account_id=2 amount=10 pending_id=3 ledger=1 code=11 flags=post_pending_transfer timestamp=1006";

/// A pulse at the moment at which two pending transfers are due, on a heap that may be too small.
const PULSE: Trial = Trial {
    script: "accounts 0
+ id=1 user_data_128=7 user_data_64=8 user_data_32=9 ledger=1 code=10
+ id=2 user_data_128=7 user_data_64=8 user_data_32=9 ledger=1 code=10
end
transfers 0
+ id=5 debit_account_id=1 credit_account_id=2 amount=40 user_data_128=3 user_data_64=4 user_data_32=5 timeout=2 ledger=1 code=11 flags=pending
+ id=6 debit_account_id=1 credit_account_id=2 user_data_128=3 user_data_64=4 user_data_32=5 timeout=1 ledger=1 code=11 flags=pending|closing_credit
end
pulse 2000000003 10
publish
",
    ample: 0,
    rounds: 63,
    lost: "free 5",
    refused: BOTH_OPEN,
    answer: "",
    again: BOTH_OPEN,
    through: BOTH_EXPIRED,
};

const BOTH_OPEN: &str = "clock 4
length 4
status 4 open
status 3 open";

const BOTH_EXPIRED: &str = "clock 2000000005
length 6
status 4 expired
status 3 expired";

/// The same pulse, and once more where it was refused.
const PULSE_TWICE: Trial = Trial {
    script: "accounts 0
+ id=1 user_data_128=7 user_data_64=8 user_data_32=9 ledger=1 code=10
+ id=2 user_data_128=7 user_data_64=8 user_data_32=9 ledger=1 code=10
end
transfers 0
+ id=5 debit_account_id=1 credit_account_id=2 amount=40 user_data_128=3 user_data_64=4 user_data_32=5 timeout=2 ledger=1 code=11 flags=pending
+ id=6 debit_account_id=1 credit_account_id=2 user_data_128=3 user_data_64=4 user_data_32=5 timeout=1 ledger=1 code=11 flags=pending|closing_credit
end
pulse 2000000003 10
pulse 2000000003 10
",
    ample: 4_096,
    rounds: 256,
    lost: "",
    refused: BOTH_OPEN,
    answer: "2",
    again: BOTH_EXPIRED,
    through: BOTH_EXPIRED,
};

/// Heaps of growing size, so that each of the allocations is refused in turn, first to last; and heaps with room for all that
/// comes before, of which less and less is taken.
const TRIALS: [&Trial; 4] = [&BATCHES, &PULSE, &BATCH, &PULSE_TWICE];

#[test]
fn refused_command_changes_nothing_and_answers_as_it_would_have(rt: HostRuntime) {
    for trial in TRIALS {
        assert!(rt; assert_rounds(&rt, trial).is_ok());
    }
}
