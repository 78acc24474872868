//! Random scripts, with publishes, compactions, queries and look-ups strewn in, print the same over the store as over the
//! plain ledger.

use super::lines::push_command;
use crate::asserts::assert_at;
use std::alloc::AllocError;
use std::process::Abort;
use std::sync::Wait;
use std::test::Fail;
use tf_main::run_script_plainly;
use tf_served::run_script;
use tf_trials::Dice;
use tf_trials::random::{commands, one_of};

/// What is asked for beside an account or the fields of records.
const FURTHER: [&str; 10] = [
    "limit=8190",
    "limit=max",
    "limit=3",
    "limit=2 code=1",
    "limit=20 user_data_64=6",
    "limit=20 timestamp_min=1010",
    "limit=20 timestamp_max=1009 user_data_32=7",
    "limit=5 code=1 user_data_128=5",
    "limit=0",
    "limit=1 timestamp_min=9 timestamp_max=8",
];

/// Sides and directions.
const SIDES: [&str; 5] = [
    "debits",
    "credits",
    "debits|credits",
    "debits|credits|reversed",
    "credits|reversed",
];

/// Adds a query of an account's transfers, or of its balances.
fn push_account_query(
    rt: &impl AllocGlobal,
    script: &mut String,
    dice: &mut Dice,
    name: &str,
) -> Result<(), AllocError> {
    let id = dice.below(8);
    let further = one_of(dice, &FURTHER);
    let sides = one_of(dice, &SIDES);
    let line = format!(in rt.alloc(); "{name} account_id={id} {further} flags={sides}\n")?;
    script.push_str(line.as_str())
}

/// Adds a query of all accounts or transfers.
fn push_query(
    rt: &impl AllocGlobal,
    script: &mut String,
    dice: &mut Dice,
    name: &str,
) -> Result<(), AllocError> {
    let further = one_of(dice, &FURTHER);
    let flags = one_of(dice, &["", " flags=reversed"]);
    let line = format!(in rt.alloc(); "{name} {further}{flags}\n")?;
    script.push_str(line.as_str())
}

/// Adds a look-up of three ids.
fn push_look_up(
    rt: &impl AllocGlobal,
    script: &mut String,
    dice: &mut Dice,
    name: &str,
) -> Result<(), AllocError> {
    let (first, second) = (dice.below(9), dice.below(100));
    let line = format!(in rt.alloc(); "{name} {first} {second} {first}\n")?;
    script.push_str(line.as_str())
}

/// Adds a publish, a compaction, a query or a look-up.
fn push_line(
    rt: &impl AllocGlobal,
    script: &mut String,
    dice: &mut Dice,
) -> Result<(), AllocError> {
    match dice.below(12) {
        0..4 => script.push_str("publish\n"),
        4..6 => script.push_str("compact\n"),
        6 => push_account_query(rt, script, dice, "get_account_transfers"),
        7 => push_account_query(rt, script, dice, "get_account_balances"),
        8 => push_query(rt, script, dice, "query_accounts"),
        9 => push_query(rt, script, dice, "query_transfers"),
        10 => push_look_up(rt, script, dice, "lookup_accounts"),
        _ => push_look_up(rt, script, dice, "lookup_transfers"),
    }
}

/// A script of random batches and pulses, each followed by up to three lines that store nothing.
fn random_script(rt: &impl AllocGlobal, seed: u64) -> Result<String, Fail> {
    let mut dice = Dice::new(seed ^ 4242);
    let mut script = String::new(rt.alloc());
    for command in commands(rt.alloc(), seed, 8)? {
        push_command(rt, &mut script, &command)?;
        for _ in 0..dice.below(4) {
            push_line(rt, &mut script, &mut dice)?;
        }
    }
    Ok(script)
}

/// 2,000 random scripts print the same over both.
pub fn assert_scripts_alike(rt: &(impl Abort + AllocGlobal + Wait)) -> Result<(), Fail> {
    for seed in 0..2000 {
        let script = random_script(rt, seed)?;
        let mut expected = Vec::new(rt.alloc());
        run_script_plainly(rt.alloc(), script.as_bytes(), &mut expected)?;
        let mut written = Vec::new(rt.alloc());
        run_script(rt, rt.alloc(), script.as_bytes(), &mut written)?;
        assert_at(
            rt,
            written.as_slice() == expected.as_slice(),
            "script",
            seed,
        );
    }
    Ok(())
}
