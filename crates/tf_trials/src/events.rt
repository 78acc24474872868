//! Events, rounds of them that have something for each row, and random commands.

use crate::dice::Dice;
use crate::lists::{add, only, push};
use std::alloc::Global;
use tf_records::{Account, Refusal, Transfer};
use tf_script::Command;

/// Nanoseconds of a second.
const SECOND: u64 = 1_000_000_000;

/// An account event.
pub fn account(id: u64, flags: u16) -> Account {
    Account {
        id: u128::from(id),
        debits_pending: 0,
        debits_posted: 0,
        credits_pending: 0,
        credits_posted: 0,
        user_data_128: 1,
        user_data_64: 2,
        user_data_32: 3,
        reserved: 0,
        ledger: 700,
        code: 10,
        flags,
        timestamp: 0,
    }
}

/// A transfer event of an amount of 1 from account 1 to account 2.
pub fn transfer(id: u64, flags: u16) -> Transfer {
    Transfer {
        id: u128::from(id),
        debit_account_id: 1,
        credit_account_id: 2,
        amount: 1,
        pending_id: 0,
        user_data_128: 4,
        user_data_64: 5,
        user_data_32: 6,
        timeout: 0,
        ledger: 700,
        code: 1,
        flags,
        timestamp: 0,
    }
}

/// The accounts 1 to 4, the second with history and the third with a limit.
pub fn accounts(alloc: Global) -> Result<Command<Global>, Refusal> {
    let events = [
        account(1, 0),
        account(2, Account::HISTORY),
        account(3, Account::DEBITS_MUST_NOT_EXCEED_CREDITS),
        account(4, 0),
    ];
    Ok(Command::Accounts {
        now: 0,
        events: events.to_vec(alloc)?,
    })
}

/// A batch of so many transfers, with ids from the first on.
pub fn transfers(alloc: Global, first: u64, count: u64) -> Result<Command<Global>, Refusal> {
    let mut events = Vec::new(alloc);
    for before in 0..count {
        push(&mut events, transfer(first.wrapping_add(before), 0))?;
    }
    Ok(Command::Transfers { now: 0, events })
}

/// A batch of one account.
fn one_account(alloc: Global, id: u64) -> Result<Command<Global>, Refusal> {
    let events = only(alloc, Ok(account(id, 0)))?;
    Ok(Command::Accounts { now: 0, events })
}

/// A transfer that is posted, one that fails for a passing reason, one that stays pending, and one whose time is over soon.
fn four_transfers(alloc: Global, first: u64, now: u64) -> Result<Command<Global>, Refusal> {
    let events = [
        transfer(first, 0),
        of_account_3(first.wrapping_add(1)),
        pending(first.wrapping_add(2), 1000),
        pending(first.wrapping_add(3), 1),
    ];
    Ok(Command::Transfers {
        now,
        events: events.to_vec(alloc)?,
    })
}

/// A transfer event of account 3, which may have no debits.
fn of_account_3(id: u64) -> Transfer {
    let mut event = transfer(id, 0);
    event.debit_account_id = 3;
    event
}

/// A pending transfer event with a timeout.
fn pending(id: u64, timeout: u32) -> Transfer {
    let mut event = transfer(id, Transfer::PENDING);
    event.timeout = timeout;
    event
}

/// One of the three commands of a round: an account, transfers, or a pulse.
pub fn one_of_round(alloc: Global, number: u64, place: u64) -> Result<Command<Global>, Refusal> {
    let second = number.wrapping_add(1).wrapping_mul(10);
    match place {
        0 => one_account(alloc, number.wrapping_add(11)),
        1 => {
            let first = number.wrapping_mul(4).wrapping_add(1);
            four_transfers(alloc, first, second.wrapping_mul(SECOND))
        }
        _ => Ok(Command::Pulse {
            now: second.wrapping_add(5).wrapping_mul(SECOND),
            max: 10,
        }),
    }
}

/// The commands of a round, which store something in each row once they are published: an account, transfers, and a pulse, by
/// which one expires. It uses an account id from 11 on and four transfer ids from 1 on.
pub fn round(alloc: Global, number: u64) -> Result<Vec<Command<Global>, Global>, Refusal> {
    let mut commands = Vec::new(alloc);
    for place in 0..3u64 {
        add(&mut commands, one_of_round(alloc, number, place))?;
    }
    Ok(commands)
}

/// Flags of transfers that move an amount, and of pending ones.
const FLAGS: [u16; 10] = [
    0,
    0,
    0,
    Transfer::LINKED,
    Transfer::PENDING,
    Transfer::PENDING,
    Transfer::PENDING | Transfer::LINKED,
    Transfer::PENDING | Transfer::CLOSING_DEBIT,
    Transfer::POST_PENDING_TRANSFER | Transfer::VOID_PENDING_TRANSFER,
    Transfer::IMPORTED,
];

/// A transfer between two accounts of five, of which the last is seldom there.
fn moving(dice: &mut Dice) -> Transfer {
    let flags = dice.one_of(&FLAGS);
    Transfer {
        debit_account_id: u128::from(dice.below(5)).wrapping_add(1),
        credit_account_id: u128::from(dice.below(5)).wrapping_add(1),
        amount: u128::from(dice.below(40)),
        timeout: dice.one_of(&[0, 0, 0, 1, 3]).into(),
        user_data_32: dice.below(3) as u32,
        code: dice.one_of(&[1, 1, 1, 2, 0]),
        ..transfer(dice.below(40), flags)
    }
}

/// A post or a void.
fn settling(dice: &mut Dice) -> Transfer {
    let flags = dice.one_of(&[
        Transfer::POST_PENDING_TRANSFER,
        Transfer::POST_PENDING_TRANSFER,
        Transfer::VOID_PENDING_TRANSFER,
    ]);
    Transfer {
        debit_account_id: 0,
        credit_account_id: 0,
        amount: if dice.below(2) == 0 { u128::MAX } else { 0 },
        pending_id: u128::from(dice.below(40)),
        user_data_128: 0,
        user_data_64: 0,
        user_data_32: 0,
        ledger: 0,
        code: 0,
        ..transfer(dice.below(40), flags)
    }
}

/// A batch of up to seven transfers.
fn any_transfers(alloc: Global, dice: &mut Dice) -> Result<Command<Global>, Refusal> {
    let mut events = Vec::new(alloc);
    for _ in 0..dice.below(8) {
        let event = if dice.below(4) == 0 {
            settling(dice)
        } else {
            moving(dice)
        };
        push(&mut events, event)?;
    }
    Ok(Command::Transfers {
        now: dice.below(20).wrapping_mul(SECOND),
        events,
    })
}

/// A batch of up to two accounts.
fn any_accounts(alloc: Global, dice: &mut Dice) -> Result<Command<Global>, Refusal> {
    let mut events = Vec::new(alloc);
    for _ in 0..dice.below(3) {
        let flags = dice.one_of(&[0, Account::LINKED, Account::HISTORY, Account::IMPORTED]);
        push(&mut events, account(dice.below(7), flags))?;
    }
    Ok(Command::Accounts { now: 0, events })
}

/// A batch or a pulse: accounts for 0, a pulse for 1, and transfers for any other number.
pub fn any_batch(alloc: Global, dice: &mut Dice, kind: u64) -> Result<Command<Global>, Refusal> {
    match kind {
        0 => any_accounts(alloc, dice),
        1 => Ok(Command::Pulse {
            now: dice.below(20).wrapping_mul(SECOND),
            max: dice.below(4) as u32,
        }),
        _ => any_transfers(alloc, dice),
    }
}

/// A command of any kind: most are batches of transfers.
fn any_command(alloc: Global, dice: &mut Dice) -> Result<Command<Global>, Refusal> {
    match dice.below(12) {
        2 | 3 => Ok(Command::Publish),
        4 => Ok(Command::Compact),
        kind => any_batch(alloc, dice, kind),
    }
}

/// So many commands, the first of which stores accounts.
pub fn any_commands(
    alloc: Global,
    seed: u64,
    count: u64,
) -> Result<Vec<Command<Global>, Global>, Refusal> {
    let mut dice = Dice::new(seed);
    let mut commands = only(alloc, accounts(alloc))?;
    for _ in 1..count {
        add(&mut commands, any_command(alloc, &mut dice))?;
    }
    Ok(commands)
}
