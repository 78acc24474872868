//! Look-ups of two ledgers, which answer alike.

use std::alloc::Global;
use tf_journal::{Ledger, expires_at};
use tf_records::{Account, Transfer};
use tf_script::Command;

/// Whether clocks, lengths, what is due, and the look-ups of each id that a command names and of the next one are the same.
pub fn is_alike<L: Ledger, M: Ledger>(plain: &L, forest: &M, command: &Command<Global>) -> bool {
    let clock = plain.clock();
    forest.clock() == clock
        && forest.mark() == plain.mark()
        && is_due_alike(plain, forest, clock)
        && is_due_alike(plain, forest, u64::MAX)
        && is_named_alike(plain, forest, command)
}

/// The same for each of several commands.
pub fn are_all_alike<L: Ledger, M: Ledger>(
    plain: &L,
    forest: &M,
    commands: &[Command<Global>],
) -> bool {
    for command in commands {
        if !is_alike(plain, forest, command) {
            return false;
        }
    }
    true
}

/// The look-ups of each id that a command names and of the next one, and what is due at a pulse's moment.
fn is_named_alike<L: Ledger, M: Ledger>(plain: &L, forest: &M, command: &Command<Global>) -> bool {
    match command {
        Command::Accounts { events, .. } => are_accounts_alike(plain, forest, events.as_slice()),
        Command::Transfers { events, .. } => are_transfers_alike(plain, forest, events.as_slice()),
        Command::Pulse { now, .. } => is_due_alike(plain, forest, *now),
        _ => true,
    }
}

fn are_accounts_alike<L: Ledger, M: Ledger>(plain: &L, forest: &M, events: &[Account]) -> bool {
    for event in events {
        let both = is_account_alike(plain, forest, event.id)
            && is_account_alike(plain, forest, event.id.wrapping_add(1));
        if !both {
            return false;
        }
    }
    true
}

fn are_transfers_alike<L: Ledger, M: Ledger>(plain: &L, forest: &M, events: &[Transfer]) -> bool {
    for event in events {
        if !is_event_alike(plain, forest, event) {
            return false;
        }
    }
    true
}

/// The transfers and the accounts that an event names.
fn is_event_alike<L: Ledger, M: Ledger>(plain: &L, forest: &M, event: &Transfer) -> bool {
    is_transfer_alike(plain, forest, event.id)
        && is_transfer_alike(plain, forest, event.id.wrapping_add(1))
        && is_transfer_alike(plain, forest, event.pending_id)
        && is_account_alike(plain, forest, event.debit_account_id)
        && is_account_alike(plain, forest, event.credit_account_id)
}

fn is_account_alike<L: Ledger, M: Ledger>(plain: &L, forest: &M, id: u128) -> bool {
    let expected = plain.account(id);
    if forest.account(id) != expected {
        return false;
    }
    match expected {
        // An account's timestamp is that of no pending transfer.
        Some(account) => forest.status(account.timestamp) == plain.status(account.timestamp),
        None => true,
    }
}

fn is_transfer_alike<L: Ledger, M: Ledger>(plain: &L, forest: &M, id: u128) -> bool {
    let expected = plain.transfer(id);
    let is_same = forest.transfer(id) == expected
        && forest.failed(id) == plain.failed(id)
        && forest.id_use(id) == plain.id_use(id);
    match expected {
        Some(transfer) => is_same && is_stored_alike(plain, forest, &transfer),
        None => is_same,
    }
}

/// The status of a transfer that is stored, and what is due when it expires, and just before.
fn is_stored_alike<L: Ledger, M: Ledger>(plain: &L, forest: &M, transfer: &Transfer) -> bool {
    if forest.status(transfer.timestamp) != plain.status(transfer.timestamp) {
        return false;
    }
    match u64::try_from(expires_at(transfer)) {
        Ok(moment) => {
            is_due_alike(plain, forest, moment)
                && is_due_alike(plain, forest, moment.saturating_sub(1))
        }
        Err(_) => true,
    }
}

/// What is due at a moment.
fn is_due_alike<L: Ledger, M: Ledger>(plain: &L, forest: &M, moment: u64) -> bool {
    forest.next_due(moment) == plain.next_due(moment)
        && is_due_counted_alike(plain, forest, moment, 0)
        && is_due_counted_alike(plain, forest, moment, 1)
        && is_due_counted_alike(plain, forest, moment, 2)
        && is_due_counted_alike(plain, forest, moment, u32::MAX)
}

/// How many are due at a moment, up to so many.
fn is_due_counted_alike<L: Ledger, M: Ledger>(
    plain: &L,
    forest: &M,
    moment: u64,
    most: u32,
) -> bool {
    forest.due_count(moment, most) == plain.due_count(moment, most)
}
