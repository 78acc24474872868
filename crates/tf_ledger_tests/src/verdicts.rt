//! Lines about how events are judged, and what they are stored as.

ghost use Rattle.tf_journal.specs.Lawful.{IsLawfulAt};

use crate::tables::{asked_at, batch, first_word};
use std::alloc::Global;
use std::process::Abort;
use tf_events::{stored_account, stored_transfer, verdict_account, verdict_transfer};
use tf_journal::{Ledger, is_settling};
use tf_pending::{
    judge_settling, stored_settling, transfer_fault, used_id_fault, verdict_settling,
};
use tf_records::{Account, Outcome, Refusal, Transfer};
use tf_script::Command;

/// Whether a line is about an event and holds.
pub fn is_verdict<L: Ledger>(
    rt: &(impl Abort + AllocGlobal),
    ledger: &L,
    line: &str,
) -> Result<bool, Refusal>
    requires { IsLawfulAt (L.clock ledger.now) (L.journal ledger.now) }
{
    match line.split_once(" + ") {
        Some((words, events)) => is_said(rt, ledger, words, events),
        None => Ok(false),
    }
}

/// Whether this is what is said of an event, and of what it is stored as.
fn is_said<L: Ledger>(
    rt: &(impl Abort + AllocGlobal),
    ledger: &L,
    words: &str,
    events: &str,
) -> Result<bool, Refusal>
    requires { IsLawfulAt (L.clock ledger.now) (L.journal ledger.now) }
{
    let (words, moment) = asked_at(rt, words);
    let (kind, words) = first_word(words);
    let events = batch(rt.alloc(), kind, events)?;
    Ok(is_said_of(ledger, words, moment, &events))
}

/// The same of the events of a batch.
fn is_said_of<L: Ledger>(
    ledger: &L,
    words: &str,
    moment: u64,
    events: &Option<Command<Global>>,
) -> bool
    requires { IsLawfulAt (L.clock ledger.now) (L.journal ledger.now) }
{
    let (asked, name) = first_word(words);
    match events {
        Some(Command::Accounts { events, .. }) => is_account(ledger, asked, name, moment, events),
        Some(Command::Transfers { events, .. }) => {
            is_transfer(ledger, asked, name, moment, events)
        }
        _ => false,
    }
}

fn is_account<L: Ledger>(
    ledger: &L,
    asked: &str,
    name: &str,
    moment: u64,
    accounts: &[Account],
) -> bool {
    match accounts {
        [event] => asked == "verdict" && verdict_account(ledger, moment, event).name() == name,
        [event, stored] => asked == "stored" && stored_account(ledger, moment, event) == *stored,
        _ => false,
    }
}

fn is_transfer<L: Ledger>(
    ledger: &L,
    asked: &str,
    name: &str,
    moment: u64,
    transfers: &[Transfer],
) -> bool
    requires { IsLawfulAt (L.clock ledger.now) (L.journal ledger.now) }
{
    match transfers {
        [event] => is_judged(ledger, asked, name, moment, event),
        [event, stored] => is_stored(ledger, asked, moment, event, stored),
        _ => false,
    }
}

/// Whether this is what is said of an event.
fn is_judged<L: Ledger>(ledger: &L, asked: &str, name: &str, moment: u64, event: &Transfer) -> bool
    requires { IsLawfulAt (L.clock ledger.now) (L.journal ledger.now) }
{
    let outcome = match asked {
        "verdict" => Some(verdict_transfer(ledger, moment, event)),
        "settling" => settling(ledger, moment, event),
        "used" => used_id_fault(ledger, event),
        "fault" => fault(event, true),
        "moving" => fault(event, false),
        _ => None,
    };
    match outcome {
        Some(outcome) => outcome.name() == name,
        None => false,
    }
}

/// The verdict of a post or a void, if an event is one, and is judged so.
fn settling<L: Ledger>(ledger: &L, moment: u64, event: &Transfer) -> Option<Outcome>
    requires { IsLawfulAt (L.clock ledger.now) (L.journal ledger.now) }
{
    if !is_settling(event) {
        return None;
    }
    let verdict = verdict_settling(ledger, moment, event);
    let judged = judge_settling(ledger, moment, event).err();
    if judged.unwrap_or(Outcome::Ok) == verdict {
        Some(verdict)
    } else {
        None
    }
}

/// What is wrong with an event by itself, if it is a post or a void or if it is none.
fn fault(event: &Transfer, settles: bool) -> Option<Outcome> {
    if is_settling(event) == settles {
        Some(transfer_fault(event).unwrap_or(Outcome::Ok))
    } else {
        None
    }
}

/// Whether an event is stored as this.
fn is_stored<L: Ledger>(
    ledger: &L,
    asked: &str,
    moment: u64,
    event: &Transfer,
    stored: &Transfer,
) -> bool
    requires { IsLawfulAt (L.clock ledger.now) (L.journal ledger.now) }
{
    match asked {
        "stored" => stored_transfer(ledger, moment, event) == *stored,
        "settled" => is_settled(ledger, moment, event, stored),
        _ => false,
    }
}

/// Whether a post or a void is accepted and stored as this, with an id that is free.
fn is_settled<L: Ledger>(ledger: &L, moment: u64, event: &Transfer, stored: &Transfer) -> bool
    requires { IsLawfulAt (L.clock ledger.now) (L.journal ledger.now) }
{
    is_settling(event)
        && stored_settling(ledger, moment, event) == *stored
        && judge_settling(ledger, moment, event) == Ok(*stored)
        && used_id_fault(ledger, event).is_none()
}
