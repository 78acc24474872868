//! What clients of one store are given to do, each on accounts of its own, so that they store as much in any order.
ghost use Rattle.std.specs.Prelude.{◌≡◌, vec_len, IfOk};

use crate::dice::Dice;
use crate::events::{account, transfer};
use crate::lists::{add, only, push};
use crate::plain::Plain;
use std::alloc::Global;
use tf_records::{Account, Refusal, Transfer};
use tf_script::Command;

/// What a client does, one command after another.
pub type Commands = Vec<Command<Global>, Global>;

/// An account event without user data.
pub fn bare_account(id: u64) -> Account {
    let mut event = account(id, 0);
    event.user_data_128 = 0;
    event.user_data_64 = 0;
    event.user_data_32 = 0;
    event
}

/// A transfer event of 10 without user data, from one account to the next.
fn posted(id: u64, debit: u64) -> Transfer {
    Transfer {
        debit_account_id: u128::from(debit),
        credit_account_id: u128::from(debit.wrapping_add(1)),
        amount: 10,
        user_data_128: 0,
        user_data_64: 0,
        user_data_32: 0,
        ..transfer(id, 0)
    }
}

/// The same, pending, with a timeout of one second.
fn pending(id: u64, debit: u64) -> Transfer {
    let mut event = posted(id, debit);
    event.timeout = 1;
    event.flags = Transfer::PENDING;
    event
}

/// The same, posted, from an account that isn't there.
fn failing(id: u64, credit: u64) -> Transfer {
    let mut event = posted(id, 0);
    event.debit_account_id = u128::MAX - 1;
    event.credit_account_id = u128::from(credit);
    event
}

/// A batch of two accounts, of which the second has the next id.
fn two_accounts(alloc: Global, id: u64, now: u64) -> Result<Command<Global>, Refusal> {
    let events = [bare_account(id), bare_account(id.wrapping_add(1))];
    Ok(Command::Accounts {
        now,
        events: events.to_vec(alloc)?,
    })
}

/// A batch of one pending transfer from account 1 to account 2.
fn one_transfer(alloc: Global, id: u64) -> Result<Command<Global>, Refusal> {
    let events = only(alloc, Ok(pending(id, 1)))?;
    Ok(Command::Transfers { now: 0, events })
}

/// A batch of accounts 1 and 2, and so many batches of one pending transfer between them.
pub fn transfers_between_two(alloc: Global, count: u64) -> Result<Commands, Refusal> {
    let mut commands = only(alloc, two_accounts(alloc, 1, 1000))?;
    for number in 0..count {
        add(&mut commands, one_transfer(alloc, number.wrapping_add(1)))?;
    }
    Ok(commands)
}

/// Six batches of two accounts each, with ids from the first on.
fn six_batches(alloc: Global, first: u64) -> Result<Commands, Refusal> {
    let mut commands = Vec::new(alloc);
    for number in 0..6u64 {
        let id = first.wrapping_add(number.wrapping_mul(2));
        add(&mut commands, two_accounts(alloc, id, 0))?;
    }
    Ok(commands)
}

/// Four clients with six batches each.
pub fn that_meet(alloc: Global) -> Result<Vec<Commands, Global>, Refusal>
    ensures { IfOk result (λ scripts. vec_len scripts ≡ 4) }
{
    let mut scripts = Vec::new(alloc);
    for client in 0..4u32 {
        scripts.push(six_batches(alloc, u64::from(client * 100 + 1))?)?;
    }
    Ok(scripts)
}

/// A transfer from one account to the next, pending or posted, or one of an account that isn't there.
fn random_transfer(dice: &mut Dice, id: u64, first: u64) -> Transfer {
    match dice.below(4) {
        0 => failing(id, first.wrapping_add(1)),
        1 => posted(id, first),
        _ => pending(id, first),
    }
}

/// A few transfers from one account to the next. Some are pending, and some are of an account that isn't there.
fn random_transfers(
    alloc: Global,
    dice: &mut Dice,
    id: u64,
    first: u64,
) -> Result<Command<Global>, Refusal> {
    let mut events = Vec::new(alloc);
    for number in 0..=dice.below(3) {
        push(
            &mut events,
            random_transfer(dice, id.wrapping_add(number), first),
        )?;
    }
    Ok(Command::Transfers { now: 0, events })
}

/// A random command for a client with these first two accounts.
fn random_command(
    alloc: Global,
    dice: &mut Dice,
    id: u64,
    first: u64,
) -> Result<Command<Global>, Refusal> {
    match dice.below(5) {
        0 => two_accounts(alloc, id, 0),
        1 => Ok(Command::Pulse { now: 0, max: 10 }),
        2 => Ok(Command::Publish),
        _ => random_transfers(alloc, dice, id, first),
    }
}

/// A random script of five commands on accounts of its own.
fn random_script(alloc: Global, dice: &mut Dice, first: u64) -> Result<Commands, Refusal> {
    let mut commands = only(alloc, two_accounts(alloc, first, 0))?;
    for number in 1..5u64 {
        let id = first.wrapping_add(number.wrapping_mul(10));
        add(&mut commands, random_command(alloc, dice, id, first))?;
    }
    Ok(commands)
}

/// Random scripts for so many clients.
pub fn random_scripts(
    alloc: Global,
    dice: &mut Dice,
    clients: u32,
) -> Result<Vec<Commands, Global>, Refusal>
    ensures { IfOk result (λ scripts. vec_len scripts ≡ clients) }
{
    let mut scripts = Vec::new(alloc);
    for client in 0..clients {
        scripts.push(random_script(alloc, dice, u64::from(client) * 100 + 1)?)?;
    }
    Ok(scripts)
}

/// How many accounts, transfers and expiries the plain ledger stores once all clients' commands were run, one client after another.
pub fn stored_by(alloc: Global, scripts: &Vec<Commands, Global>) -> Result<u64, Refusal> {
    let mut plain = Plain::new(alloc);
    for script in scripts {
        for command in script {
            let _answer = plain.run(alloc, command)?;
        }
    }
    Ok(plain.book() as u64)
}
