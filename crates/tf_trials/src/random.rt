//! Random batches and pulses that meet: few accounts, and few transfer ids, of which many are used.
ghost use Rattle.std.specs.Prelude.{◌<◌, length};

use crate::dice::Dice;
use crate::events;
use crate::lists::{add, only, push};
use std::alloc::Global;
use tf_records::{Account, Refusal, Transfer};
use tf_script::Command;

/// One of these: one that stands there twice comes twice as often.
pub fn one_of<T: Copy>(dice: &mut Dice, all: &[T]) -> T
    requires { 0 < length all.now }
{
    all[dice.below(all.len() as u64) as usize]
}

/// An account event.
fn account(id: u64, flags: u16) -> Account {
    let mut event = events::account(id, flags);
    event.ledger = 1;
    event
}

/// Flags of accounts: limits, history, closed, linked, and some that no account may have.
const ACCOUNT_FLAGS: [u16; 12] = [
    0,
    0,
    0,
    Account::LINKED,
    Account::LINKED | Account::HISTORY,
    Account::HISTORY,
    Account::DEBITS_MUST_NOT_EXCEED_CREDITS,
    Account::CREDITS_MUST_NOT_EXCEED_DEBITS | Account::HISTORY,
    Account::CLOSED,
    Account::DEBITS_MUST_NOT_EXCEED_CREDITS | Account::CREDITS_MUST_NOT_EXCEED_DEBITS,
    Account::IMPORTED,
    64,
];

/// An account event, in which something is wrong once in a while.
fn account_event(dice: &mut Dice) -> Account {
    let flags = dice.one_of(&ACCOUNT_FLAGS);
    let ledger = one_of(dice, &[1, 1, 1, 2]);
    let user_data_64 = one_of(dice, &[0, 2]);
    let mut event = account(dice.below(12), flags);
    event.ledger = ledger;
    event.user_data_64 = user_data_64;
    match dice.below(40) {
        0 => event.id = u128::MAX,
        1 => event.ledger = 0,
        2 => event.code = 0,
        3 => event.reserved = 1,
        4 => event.timestamp = 1,
        5 => event.debits_posted = 1,
        6 => event.credits_pending = 1,
        _ => {}
    }
    event
}

/// How many transfer ids are drawn from.
const IDS: u64 = 100;

/// How many of them, the first, are those of pending transfers.
const PENDING_IDS: u64 = 12;

/// A transfer event between two accounts of seven, of which the last is seldom there.
pub fn transfer_event(dice: &mut Dice, id: u64) -> Transfer {
    let debit = dice.below(7);
    let credit = (debit + 1 + dice.below(6)) % 7;
    Transfer {
        id: u128::from(id),
        debit_account_id: u128::from(debit) + 1,
        credit_account_id: u128::from(credit) + 1,
        amount: one_of(dice, &[0, 1, 3, 10, 10, 50, 200, u128::MAX]),
        pending_id: 0,
        user_data_128: one_of(dice, &[0, 0, 5]),
        user_data_64: one_of(dice, &[0, 0, 6]),
        user_data_32: one_of(dice, &[0, 0, 7]),
        timeout: 0,
        ledger: 1,
        code: 1,
        flags: 0,
        timestamp: 0,
    }
}

/// A transfer event that moves an amount.
fn posted_event(dice: &mut Dice) -> Transfer {
    let id = dice.below(IDS);
    let flags = dice.one_of(&[0, 0, 0, 0, 0, Transfer::LINKED]);
    Transfer {
        flags,
        ..transfer_event(dice, id)
    }
}

/// Flags of pending transfers.
const PENDING_FLAGS: [u16; 12] = [
    0,
    0,
    0,
    0,
    0,
    0,
    0,
    Transfer::LINKED,
    Transfer::LINKED,
    Transfer::CLOSING_DEBIT,
    Transfer::CLOSING_CREDIT,
    Transfer::CLOSING_DEBIT | Transfer::CLOSING_CREDIT,
];

/// A transfer event that sets an amount aside.
fn pending_event(dice: &mut Dice) -> Transfer {
    let id = dice.below(PENDING_IDS);
    let flags = Transfer::PENDING | dice.one_of(&PENDING_FLAGS);
    let timeout = one_of(dice, &[0, 0, 1, 1, 2, 3, 3, u32::MAX]);
    Transfer {
        flags,
        timeout,
        ..transfer_event(dice, id)
    }
}

/// A transfer event that posts or voids, and names most of the time no more than the pending transfer.
fn settling_event(dice: &mut Dice) -> Transfer {
    let id = dice.below(IDS);
    let settles = dice.one_of(&[
        Transfer::POST_PENDING_TRANSFER,
        Transfer::VOID_PENDING_TRANSFER,
    ]);
    let flags = settles | dice.one_of(&[0, 0, 0, 0, 0, Transfer::LINKED]);
    let pending_id = u128::from(dice.below(PENDING_IDS));
    let amount = one_of(dice, &[0, 0, 1, 10, u128::MAX, u128::MAX]);
    let event = Transfer {
        pending_id,
        flags,
        amount,
        ..transfer_event(dice, id)
    };
    if dice.below(5) == 0 {
        return event;
    }
    Transfer {
        debit_account_id: 0,
        credit_account_id: 0,
        ledger: 0,
        code: 0,
        ..event
    }
}

/// Makes something wrong in a transfer event, if it wasn't before.
fn spoil(dice: &mut Dice, event: &mut Transfer) {
    match dice.below(13) {
        0 => event.id = u128::MAX,
        1 => event.timestamp = 1,
        2 => event.flags |= 512,
        3 => event.flags |= Transfer::IMPORTED,
        4 => event.flags |= Transfer::VOID_PENDING_TRANSFER,
        5 => event.flags |= Transfer::CLOSING_CREDIT,
        6 => event.pending_id = event.id,
        7 => event.pending_id = u128::MAX,
        8 => event.timeout = 9,
        9 => event.ledger = 2,
        10 => event.debit_account_id = event.credit_account_id,
        11 => event.flags |= Transfer::BALANCING_DEBIT,
        _ => {
            event.ledger = 3;
            event.code = 0;
        }
    }
}

/// Changes a field of an event that comes again, or none.
fn vary(dice: &mut Dice, event: &mut Transfer) {
    match dice.below(8) {
        0 => event.amount = 2,
        1 => event.user_data_128 = 9,
        2 => event.code = 9,
        3 => event.timeout = 4,
        4 => event.credit_account_id = 1,
        _ => {}
    }
}

/// A transfer event of any kind.
fn any_transfer_event(dice: &mut Dice) -> Transfer {
    let mut event = match dice.below(10) {
        0..4 => posted_event(dice),
        4..7 => pending_event(dice),
        _ => settling_event(dice),
    };
    if dice.below(16) == 0 {
        spoil(dice, &mut event);
    }
    event
}

fn account_events(alloc: Global, dice: &mut Dice) -> Result<Vec<Account, Global>, Refusal> {
    let mut events = Vec::new(alloc);
    for _ in 0..dice.below(4) {
        push(&mut events, account_event(dice))?;
    }
    Ok(events)
}

fn transfer_events(alloc: Global, dice: &mut Dice) -> Result<Vec<Transfer, Global>, Refusal> {
    let mut events = Vec::new(alloc);
    let mut last = any_transfer_event(dice);
    for _ in 0..dice.below(9) {
        if dice.below(10) == 0 {
            vary(dice, &mut last);
        } else {
            last = any_transfer_event(dice);
        }
        push(&mut events, last)?;
    }
    Ok(events)
}

/// A batch or a pulse at a moment.
fn any_command(alloc: Global, dice: &mut Dice, now: u64) -> Result<Command<Global>, Refusal> {
    match dice.below(10) {
        0 => Ok(Command::Accounts {
            now,
            events: account_events(alloc, dice)?,
        }),
        1..3 => Ok(Command::Pulse {
            now,
            max: one_of(dice, &[0, 1, 2, u32::MAX, u32::MAX]),
        }),
        _ => Ok(Command::Transfers {
            now,
            events: transfer_events(alloc, dice)?,
        }),
    }
}

/// Six accounts that most transfers are between, two of them with limits and two with history.
pub fn first_accounts(alloc: Global) -> Result<Command<Global>, Refusal> {
    let events = [
        account(1, 0),
        account(2, 0),
        account(3, Account::HISTORY),
        account(4, Account::HISTORY),
        account(5, Account::DEBITS_MUST_NOT_EXCEED_CREDITS),
        account(6, Account::CREDITS_MUST_NOT_EXCEED_DEBITS),
    ];
    Ok(Command::Accounts {
        now: 1000,
        events: events.to_vec(alloc)?,
    })
}

/// How much later than the last command the next one comes, in nanoseconds.
const PAUSES: [u64; 7] = [
    0,
    0,
    7,
    400_000_000,
    1_000_000_000,
    1_000_000_000,
    2_500_000_000,
];

/// A moment for the next command, mostly by the clock, or one that is over or past all clocks.
fn moment(dice: &mut Dice, clock: u64) -> u64 {
    match dice.below(30) {
        0 => 0,
        1 => u64::MAX,
        _ => clock,
    }
}

/// Six accounts, and so many commands after them. Some come at a moment that is over or past all clocks.
pub fn commands(
    alloc: Global,
    seed: u64,
    count: usize,
) -> Result<Vec<Command<Global>, Global>, Refusal> {
    let mut dice = Dice::new(seed);
    let mut commands = only(alloc, first_accounts(alloc))?;
    let mut clock: u64 = 1000;
    for _ in 0..count {
        clock = clock.saturating_add(one_of(&mut dice, &PAUSES));
        let now = moment(&mut dice, clock);
        add(&mut commands, any_command(alloc, &mut dice, now))?;
    }
    Ok(commands)
}
