//! Ledgers that are filled by scripts and asked by lines.
//!
//! A text has parts. A part is a script, which is run after those before it, and lines, each of which holds then. `+ R` is a
//! record as scripts spell it.
//!
//! | line | what holds |
//! |---|---|
//! | `clock N`, `length N` | the clock, and how many entries there are |
//! | `accounts shown + R`, `transfers shown + R` | the record is found by its id |
//! | `accounts entry at N + R`, `transfers entry at N + R` | it is the entry at this place |
//! | `failed_entry N TIMESTAMP ID`, `expired_entry N TIMESTAMP TIMESTAMP` | it is that an id failed, or that a pending transfer expired |
//! | `failed N`, `free N`, `no_account N` | an id that failed, one that no transfer has or failed with, one that no account has |
//! | `status N NAME` | the status of the pending transfer with this timestamp |
//! | `transfers due at N + R`, `none_due N` | which pending transfer is the next that is due at a moment |
//! | `due_count N COUNT COUNT` | how many are, counted up to 9 and up to 1 |
//! | `accounts verdict NAME at N + R`, `transfers verdict NAME at N + R` | an event's verdict at a moment |
//! | `transfers settling NAME at N + R` | the same of a post or a void |
//! | `accounts stored at N + R -> R`, `transfers stored at N + R -> R` | what an event is stored as at a moment |
//! | `transfers settled at N + R -> R` | the same of a post or a void that is accepted, with an id that is free |
//! | `transfers used NAME + R` | what is wrong with an event's id |
//! | `transfers fault NAME + R`, `transfers moving NAME + R` | what is wrong by itself with a post or a void, and with another event |
ghost use Rattle.tf_journal.specs.Lawful.{IsLawfulAt};

use crate::ledgers::{Shown, empty, run_all};
use crate::state::is_state;
use crate::tables::assert_in;
use crate::verdicts::is_verdict;
use std::process::Abort;
use tf_journal::Ledger;
use tf_records::Refusal;
use tf_script::parse;

/// The parts of a text hold, over a ledger that is empty at first.
pub fn assert_text(rt: &(impl Abort + AllocGlobal), text: &[[&str; 2]]) -> Result<(), Refusal> {
    let mut ledger = empty(rt.alloc());
    let asked = assert_parts(rt, &mut ledger, text);
    drop(ledger);
    asked
}

fn assert_parts<L: Ledger + Shown>(
    rt: &(impl Abort + AllocGlobal),
    ledger: &mut L,
    text: &[[&str; 2]],
) -> Result<(), Refusal>
    requires { IsLawfulAt (L.clock ledger.old) (L.journal ledger.old) }
{
    for part in text {
        let [script, lines] = part;
        fill(rt, ledger, script)?;
        assert_lines(rt, ledger, lines);
    }
    Ok(())
}

/// Runs the batches and pulses of a script.
fn fill<L: Ledger>(
    rt: &(impl Abort + AllocGlobal),
    ledger: &mut L,
    script: &str,
) -> Result<(), Refusal>
    requires { IsLawfulAt (L.clock ledger.old) (L.journal ledger.old) }
    ensures { IsLawfulAt (L.clock ledger.new) (L.journal ledger.new) }
{
    let commands = parse(rt.alloc(), script.as_bytes())?;
    run_all(rt.alloc(), ledger, &commands)
}

fn assert_lines<L: Ledger + Shown>(rt: &(impl Abort + AllocGlobal), ledger: &L, lines: &str)
    requires { IsLawfulAt (L.clock ledger.now) (L.journal ledger.now) }
{
    for line in lines.lines() {
        let holds = matches!(is_verdict(rt, ledger, line), Ok(true))
            || matches!(is_state(rt, ledger, line), Ok(true));
        assert_in(rt, holds, line);
    }
}
