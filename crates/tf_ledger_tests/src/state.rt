//! Lines about what a ledger stores.

use crate::ledgers::Shown;
use crate::tables::{asked_at, assert_in, batch, first_word, number};
use std::alloc::Global;
use std::process::Abort;
use tf_journal::{Entry, IdUse, Ledger, Status};
use tf_records::{Account, Refusal, Transfer};
use tf_script::Command;

/// Each of these lines about what is stored holds.
pub fn assert_state<L: Ledger + Shown>(rt: &(impl Abort + AllocGlobal), ledger: &L, lines: &str) {
    for line in lines.lines() {
        let holds = matches!(is_state(rt, ledger, line), Ok(true));
        assert_in(rt, holds, line);
    }
}

/// Whether a line about what is stored holds.
pub fn is_state<L: Ledger + Shown>(
    rt: &(impl Abort + AllocGlobal),
    ledger: &L,
    line: &str,
) -> Result<bool, Refusal> {
    match line.split_once(" + ") {
        Some((words, record)) => has_record(rt, ledger, words, record),
        None => Ok(has_numbers(rt, ledger, line)),
    }
}

/// Whether a ledger has a record.
fn has_record<L: Ledger + Shown>(
    rt: &(impl Abort + AllocGlobal),
    ledger: &L,
    words: &str,
    record: &str,
) -> Result<bool, Refusal> {
    let (words, number) = asked_at(rt, words);
    let (kind, asked) = first_word(words);
    let record = batch(rt.alloc(), kind, record)?;
    Ok(has_first(ledger, asked, number, &record))
}

/// Whether a ledger has the record of a batch.
fn has_first<L: Ledger + Shown>(
    ledger: &L,
    asked: &str,
    number: u64,
    record: &Option<Command<Global>>,
) -> bool {
    match record {
        Some(Command::Accounts { events, .. }) => has_account(ledger, asked, number, events),
        Some(Command::Transfers { events, .. }) => has_transfer(ledger, asked, number, events),
        _ => false,
    }
}

/// Whether a ledger has an account: it shows it, or it is its entry at a place.
fn has_account<L: Ledger + Shown>(
    ledger: &L,
    asked: &str,
    place: u64,
    accounts: &[Account],
) -> bool {
    let [account] = accounts else {
        return false;
    };
    match asked {
        "shown" => ledger.account(account.id) == Some(*account),
        "entry" => has_entry(ledger, place, &Entry::Account(*account)),
        _ => false,
    }
}

/// Whether a ledger has a transfer: it is stored with its id, it is its entry at a place, or it is the next that is due at a
/// moment.
fn has_transfer<L: Ledger + Shown>(
    ledger: &L,
    asked: &str,
    number: u64,
    transfers: &[Transfer],
) -> bool {
    let [transfer] = transfers else {
        return false;
    };
    match asked {
        "shown" => is_stored(ledger, transfer),
        "entry" => has_entry(ledger, number, &Entry::Transfer(*transfer)),
        "due" => ledger.next_due(number) == Some(*transfer),
        _ => false,
    }
}

fn is_stored<L: Ledger>(ledger: &L, transfer: &Transfer) -> bool {
    ledger.transfer(transfer.id) == Some(*transfer)
        && ledger.id_use(transfer.id) == IdUse::Stored(*transfer)
        && !ledger.failed(transfer.id)
}

fn has_entry<L: Shown>(ledger: &L, place: u64, entry: &Entry) -> bool {
    ledger.shown().get(place as usize) == Some(entry)
}

/// Whether a line without a record holds.
fn has_numbers<L: Ledger + Shown>(rt: &impl Abort, ledger: &L, line: &str) -> bool {
    let (word, rest) = first_word(line);
    let (first, rest) = first_word(rest);
    let first = number(rt, first);
    match word {
        "clock" => ledger.clock() == first,
        "length" => ledger.mark().length as u64 == first,
        "status" => ledger.status(first) == status_of(rest),
        "due_count" => has_due(rt, ledger, first, rest),
        "failed_entry" | "expired_entry" => has_other_entry(rt, ledger, word, first, rest),
        "none_due" => ledger.next_due(first).is_none(),
        _ => has_id(ledger, word, u128::from(first)),
    }
}

/// Whether an id is used so.
fn has_id<L: Ledger>(ledger: &L, word: &str, id: u128) -> bool {
    match word {
        "failed" => ledger.failed(id) && ledger.id_use(id) == IdUse::Failed,
        "free" => !ledger.failed(id)
            && ledger.id_use(id) == IdUse::Free
            && ledger.transfer(id).is_none(),
        "no_account" => ledger.account(id).is_none(),
        _ => false,
    }
}

fn status_of(name: &str) -> Option<Status> {
    match name {
        "open" => Some(Status::Open),
        "posted" => Some(Status::Posted),
        "voided" => Some(Status::Voided),
        "expired" => Some(Status::Expired),
        _ => None,
    }
}

/// Whether so many pending transfers are due, counted up to 9 and up to 1.
fn has_due<L: Ledger>(rt: &impl Abort, ledger: &L, moment: u64, counts: &str) -> bool {
    let (to_nine, to_one) = first_word(counts);
    u64::from(ledger.due_count(moment, 9)) == number(rt, to_nine)
        && u64::from(ledger.due_count(moment, 1)) == number(rt, to_one)
}

/// Whether the entry at a place says that at a timestamp an id failed, or a pending transfer expired.
fn has_other_entry<L: Shown>(
    rt: &impl Abort,
    ledger: &L,
    word: &str,
    place: u64,
    rest: &str,
) -> bool {
    let (timestamp, other) = first_word(rest);
    let (timestamp, other) = (number(rt, timestamp), number(rt, other));
    let entry = if word == "failed_entry" {
        Entry::Failed {
            timestamp,
            id: u128::from(other),
        }
    } else {
        Entry::Expiry {
            timestamp,
            pending: other,
        }
    };
    has_entry(ledger, place, &entry)
}
