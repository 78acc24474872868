//! What the commands of scripts are for the workers of a storm.
ghost use Rattle.std.specs.List.{flat_map};
ghost use Rattle.std.specs.Prelude.{◌≡◌, [], ◌∷◌, ◌++◌, length, map, vec_len, None, IfOk, MatchResult, OnOk};
ghost use Rattle.tf_script.specs.CommandViews.{command_view, commands_of};
ghost use Rattle.tf_storm.specs.Storm.{StopsReading, first_fault_of};
ghost use Rattle.tf_script.specs.Command.{query};
ghost use Rattle.tf_storm.specs.Tasks.{ask_view, asked_part, asked_work, client_part, client_work, work_view};

use crate::faults::RunStormFault;
use std::alloc::{AllocError, Global};
use tf_main::{RunFault, read_script};
use tf_script::{Command, Query};
use tf_workers::{Ask, Work};

/// What clients and query workers are given to do, a list for each of them.
#[derive(Drop)]
pub(crate) struct Tasks {
    pub(crate) works: Vec<Vec<Work>, Global>,
    pub(crate) asks: Vec<Vec<Ask>, Global>,
}

/// What a query asks a query worker.
fn ask_of(asked: Query) -> Ask
    ensures { ask_view result ≡ query asked }
{
    match asked {
        Query::AccountTransfers(filter) => Ask::AccountTransfers(filter),
        Query::AccountBalances(filter) => Ask::AccountBalances(filter),
        Query::Accounts(filter) => Ask::QueryAccounts(filter),
        Query::Transfers(filter) => Ask::QueryTransfers(filter),
    }
}

/// Hands a command out: a batch, a pulse or a publish to a client, a query or a look-up to a query worker. A compaction is nobody's
/// work: compactors merge what there is to merge.
fn hand_out(
    command: Command<Global>,
    works: &mut Vec<Work, Global>,
    asks: &mut Vec<Ask, Global>,
) -> Result<(), AllocError>
    ensures works { OnOk result (map work_view works.new.items ≡ map work_view works.old.items ++ client_part (command_view command)) }
    ensures asks { OnOk result (map ask_view asks.new.items ≡ map ask_view asks.old.items ++ asked_part (command_view command)) }
{
    match command {
        Command::Accounts { now, events } => works.push(Work::Accounts(events, now))?,
        Command::Transfers { now, events } => works.push(Work::Transfers(events, now))?,
        Command::Pulse { now, max } => works.push(Work::Pulse(now, max))?,
        Command::Publish => works.push(Work::Publish)?,
        Command::Compact => {}
        Command::Query(query) => asks.push(ask_of(query))?,
        Command::LookupAccounts(ids) => asks.push(Ask::Accounts(ids))?,
        Command::LookupTransfers(ids) => asks.push(Ask::Transfers(ids))?,
    }
    Ok(())
}

/// Hands a script's commands out, in their order: gives its client's work.
fn hand_out_all(
    alloc: Global,
    commands: Vec<Command<Global>, Global>,
    asks: &mut Vec<Ask, Global>,
) -> Result<Vec<Work, Global>, AllocError>
    ensures works { IfOk result (λ works. map work_view works.items ≡ flat_map client_part (commands_of commands.items)) }
    ensures asks { OnOk result (map ask_view asks.new.items ≡ map ask_view asks.old.items ++ flat_map asked_part (commands_of commands.items)) }
{
    let mut works = Vec::new(alloc);
    for command in commands {
        hand_out(command, &mut works, asks)?;
    }
    Ok(works)
}

/// Reads a script and hands its commands out: gives its client's work.
fn read_one(
    alloc: Global,
    script: &[u8],
    asks: &mut Vec<Ask, Global>,
) -> Result<Vec<Work, Global>, RunStormFault>
    ensures reading { MatchResult result (λ _. first_fault_of (script.now ∷ []) ≡ None) (StopsReading (first_fault_of (script.now ∷ []))) }
    ensures works { IfOk result (λ works. map work_view works.items ≡ client_work script.now) }
    ensures asks { OnOk result (map ask_view asks.new.items ≡ map ask_view asks.old.items ++ asked_work script.now) }
{
    let commands = match read_script(alloc, script) {
        Ok(commands) => commands,
        Err(fault) => return Err(RunStormFault::Run(fault)),
    };
    match hand_out_all(alloc, commands, asks) {
        Ok(works) => Ok(works),
        Err(_) => Err(RunStormFault::Run(RunFault::NoMemory)),
    }
}

/// Reads all scripts, in order up to the first fault. What script `i` asks goes to query worker `i` mod 2.
pub(crate) fn read_tasks(alloc: Global, scripts: &[Vec<u8>]) -> Result<Tasks, RunStormFault>
    ensures reading { MatchResult result (λ _. first_fault_of (map (λ s. s.items) scripts.now) ≡ None)
        (StopsReading (first_fault_of (map (λ s. s.items) scripts.now))) }
    ensures works { IfOk result (λ tasks. map (λ w. map work_view w.items) tasks.works.items ≡ map (λ s. client_work s.items) scripts.now) }
    ensures clients { IfOk result (λ tasks. vec_len tasks.works ≡ length scripts.now) }
    ensures asks { IfOk result (λ tasks. vec_len tasks.asks ≡ 2) }
{
    let mut works = Vec::new(alloc);
    let mut even = Vec::new(alloc);
    let mut odd = Vec::new(alloc);
    let mut turn = false;
    for script in scripts {
        let asks = if turn { &mut odd } else { &mut even };
        let work = match read_one(alloc, script.as_slice(), asks) {
            Ok(work) => work,
            Err(fault) => return Err(fault),
        };
        match works.push(work) {
            Ok(()) => {}
            Err(_) => return Err(RunStormFault::Run(RunFault::NoMemory)),
        }
        turn = !turn;
    }
    match both(alloc, even, odd) {
        Ok(asks) => Ok(Tasks { works, asks }),
        Err(_) => Err(RunStormFault::Run(RunFault::NoMemory)),
    }
}

/// What the two query workers are asked.
fn both(
    alloc: Global,
    even: Vec<Ask, Global>,
    odd: Vec<Ask, Global>,
) -> Result<Vec<Vec<Ask, Global>, Global>, AllocError>
    ensures { IfOk result (λ asks. vec_len asks ≡ 2) }
{
    let mut asks = Vec::with_capacity(alloc, 2)?;
    asks.push(even)?;
    asks.push(odd)?;
    Ok(asks)
}
