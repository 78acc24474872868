//! A version of which several queries are asked at once.

use crate::calls::does;
use crate::publishing::run_list;
use crate::questions::any_query;
use crate::refusals::queries_of_scripts;
use crate::scripts::commands_at;
use crate::tried::{Act, Tried};
use std::alloc::Global;
use tf_journal::PlainLedger;
use tf_records::Refusal;
use tf_script::{Command, Query};
use tf_trials::random::commands;
use tf_trials::{Dice, Plain};

/// So many random queries.
fn queries(
    alloc: Global,
    plain: &PlainLedger<Global>,
    count: u32,
) -> Result<Vec<Query, Global>, Refusal> {
    let mut dice = Dice::new(4096);
    let mut queries = Vec::new(alloc);
    for _ in 0..count {
        queries.push(any_query(&mut dice, plain))?;
    }
    Ok(queries)
}

/// What is asked at once.
#[derive(Clone, Copy)]
pub enum AtOnce {
    /// 5,000 random queries of a random journal.
    Many,
    /// Each kind of query once, of a worked script's journal, by its place.
    Script(usize),
}

/// The commands of the journal.
fn journal(alloc: Global, asked: AtOnce) -> Result<Vec<Command<Global>, Global>, Refusal> {
    match asked {
        AtOnce::Many => commands(alloc, 4096, 60),
        AtOnce::Script(place) => commands_at(alloc, place),
    }
}

/// Runs a journal, takes a version, and gives queries of it. It is stale where a forest answers otherwise than the plain ledger.
pub fn take_for_queries<F: Tried>(
    alloc: Global,
    plain: &mut Plain,
    forest: &mut F,
    asked: AtOnce,
) -> Result<Vec<Query, Global>, Refusal> {
    if !(run_list(alloc, plain, forest, journal(alloc, asked))? && does(forest, Act::Take)) {
        return Err(Refusal::Stale);
    }
    match asked {
        AtOnce::Many => queries(alloc, plain.ledger(), 5000),
        AtOnce::Script(_) => queries_of_scripts(alloc),
    }
}

/// A version of a random journal, the plain ledger with the same journal, and queries of it.
#[derive(Drop)]
pub struct Taken<V> {
    pub version: V,
    pub plain: Plain,
    pub queries: Vec<Query, Global>,
}

/// The three, where each is there. It is stale where the version isn't.
pub fn all_taken<V: Drop>(
    version: Option<V>,
    plain: Plain,
    queries: Result<Vec<Query, Global>, Refusal>,
) -> Result<Taken<V>, Refusal> {
    let queries = queries?;
    match version {
        Some(version) => Ok(Taken {
            version,
            plain,
            queries,
        }),
        None => Err(Refusal::Stale),
    }
}
