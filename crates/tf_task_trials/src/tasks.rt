//! What workers are given to do.
ghost use Rattle.std.specs.Prelude.{◌≡◌, ◌≤◌, vec_len, IfOk};

use std::alloc::{AllocError, Global};
use tf_records::{AccountFilter, QueryFilter, Refusal};
use tf_script::Command;
use tf_trials::{Commands, Dice, random_scripts, stored_by};
use tf_workers::{Ask, Work};

/// What clients and query workers are given to do, a list for each.
#[derive(Drop)]
pub struct Tasks {
    pub works: Vec<Vec<Work>, Global>,
    pub asks: Vec<Vec<Ask>, Global>,
    /// How many questions each reader answers before it is refused memory.
    pub answers: u64,
    /// How many accounts, transfers and expiries the plain ledger stores by the clients' work.
    pub stored: u64,
}

/// All transfers of account 1.
pub fn transfers_of_first() -> AccountFilter {
    AccountFilter {
        account_id: 1,
        user_data_128: 0,
        user_data_64: 0,
        user_data_32: 0,
        code: 0,
        reserved: [0; 58],
        timestamp_min: 0,
        timestamp_max: 0,
        limit: 10,
        flags: AccountFilter::DEBITS | AccountFilter::CREDITS,
    }
}

/// All accounts.
fn all_accounts() -> QueryFilter {
    QueryFilter {
        user_data_128: 0,
        user_data_64: 0,
        user_data_32: 0,
        ledger: 700,
        code: 0,
        reserved: [0; 6],
        timestamp_min: 0,
        timestamp_max: 0,
        limit: 8190,
        flags: 0,
    }
}

/// A command as a client's work.
fn work_of(command: Command<Global>) -> Work {
    match command {
        Command::Accounts { now, events } => Work::Accounts(events, now),
        Command::Transfers { now, events } => Work::Transfers(events, now),
        Command::Pulse { now, max } => Work::Pulse(now, max),
        _ => Work::Publish,
    }
}

/// A script as a client's work.
fn works_of(alloc: Global, script: Commands) -> Result<Vec<Work>, AllocError> {
    let mut works = Vec::new(alloc);
    for command in script {
        works.push(work_of(command))?;
    }
    Ok(works)
}

/// What a query worker is asked in turn with others: transfers of account 1, twice.
fn asked_of_transfers(alloc: Global) -> Result<Vec<Ask, Global>, AllocError> {
    let mut asks = Vec::new(alloc);
    asks.push(Ask::AccountTransfers(transfers_of_first()))?;
    asks.push(Ask::AccountTransfers(transfers_of_first()))?;
    Ok(asks)
}

/// What a query worker is asked in a storm: all accounts, so many times.
fn asked_of_accounts(alloc: Global, count: u64) -> Result<Vec<Ask, Global>, AllocError> {
    let mut asks = Vec::new(alloc);
    for _place in 0..count {
        asks.push(Ask::QueryAccounts(all_accounts()))?;
    }
    Ok(asks)
}

/// One client with this script, and a query worker that is asked of its transfers.
pub fn one_client(alloc: Global, script: Commands) -> Result<Tasks, AllocError>
    ensures { IfOk result (λ tasks. (vec_len tasks.works ≡ 1) × (vec_len tasks.asks ≡ 2)) }
{
    let mut works = Vec::with_capacity(alloc, 1)?;
    works.push(works_of(alloc, script)?)?;
    let mut asks = Vec::with_capacity(alloc, 2)?;
    asks.push(asked_of_transfers(alloc)?)?;
    asks.push(Vec::new(alloc))?;
    Ok(Tasks {
        works,
        asks,
        answers: 2,
        stored: 0,
    })
}

/// Tasks of a storm: a client for each script, and two query workers that are asked of all accounts, so many times each, and are
/// refused memory after so many answers.
pub fn storm_of(
    alloc: Global,
    scripts: Vec<Commands, Global>,
    questions: u64,
    answers: u64,
) -> Result<Tasks, Refusal>
    ensures { IfOk result (λ tasks. (vec_len tasks.works ≡ vec_len scripts) × (vec_len tasks.asks ≡ 2)) }
{
    let stored = stored_by(alloc, &scripts)?;
    let mut works = Vec::new(alloc);
    for script in scripts {
        works.push(works_of(alloc, script)?)?;
    }
    let mut asks = Vec::with_capacity(alloc, 2)?;
    asks.push(asked_of_accounts(alloc, questions)?)?;
    asks.push(asked_of_accounts(alloc, questions)?)?;
    Ok(Tasks {
        works,
        asks,
        answers,
        stored,
    })
}

/// So many clients with random scripts, and query workers that are refused memory after so many answers.
pub fn random_tasks(
    alloc: Global,
    dice: &mut Dice,
    clients: u32,
    answers: u64,
) -> Result<Tasks, Refusal>
    ensures { IfOk result (λ tasks. (vec_len tasks.works ≡ clients) × (vec_len tasks.asks ≡ 2)) }
{
    storm_of(alloc, random_scripts(alloc, dice, clients)?, 8, answers)
}
