//! Commands of one line.

ghost use Rattle.std.specs.Prelude.{◌≡◌, IfOk, MatchResult};
ghost use Rattle.tf_script.specs.Statements.{ids_of};
ghost use Rattle.tf_script.specs.CommandViews.{command_view};
ghost use Rattle.tf_script.specs.Reader.WordViews.{words_of, HasColumns};
ghost use Rattle.tf_script.specs.Reader.LineViews.{leading_ids, request_view, IsReadable};

use crate::command::{Command, Query};
use crate::value::number;
use crate::word::{Rest, next_word};
use std::alloc::{AllocError, Allocator};

/// A command of one line. The ids of a lookup are still words, so it takes no memory.
#[derive(Clone, Copy)]
pub enum Request<'a> {
    Pulse { now: u64, max: u32 },
    Publish,
    Compact,
    Query(Query),
    LookupAccounts(Rest<'a>),
    LookupTransfers(Rest<'a>),
}

impl Request<'_> {
    /// The command, with memory for its ids.
    pub fn to_command<A: Allocator + Clone>(self, alloc: &A) -> Result<Command<A>, AllocError>
        requires { IsReadable self }
        ensures { IfOk result (λ command. command_view command ≡ request_view self.entry) }
    {
        Ok(match self {
            Request::Pulse { now, max } => Command::Pulse { now, max },
            Request::Publish => Command::Publish,
            Request::Compact => Command::Compact,
            Request::Query(query) => Command::Query(query),
            Request::LookupAccounts(words) => {
                Command::LookupAccounts(collect_ids(alloc.clone()?, words)?)
            }
            Request::LookupTransfers(words) => {
                Command::LookupTransfers(collect_ids(alloc.clone()?, words)?)
            }
        })
    }
}

/// Passes words on if each is an id. An `Err` is the column of the first that isn't.
pub fn id_words(words: Rest<'_>) -> Result<Rest<'_>, u64>
    requires { HasColumns words }
    ensures value { MatchResult result
        (λ ids. ids_of (words_of words.entry) ≡ Ok (leading_ids (words_of ids)))
        (λ column. ids_of (words_of words.entry) ≡ Err column) }
    ensures columns { IfOk result (λ ids. HasColumns ids) }
{
    let mut rest = words;
    while let Some((word, after)) = next_word(rest) {
        if number(word.bytes, u128::MAX).is_none() {
            return Err(word.column);
        }
        rest = after;
    }
    Ok(words)
}

/// The ids that words spell, up to the first that spells none.
fn collect_ids<A: Allocator>(alloc: A, words: Rest<'_>) -> Result<Vec<u128, A>, AllocError>
    requires { HasColumns words }
    ensures { IfOk result (λ ids. ids.items ≡ leading_ids (words_of words.entry)) }
{
    let mut ids = Vec::new(alloc);
    let mut rest = words;
    while let Some((word, after)) = next_word(rest) {
        let Some(id) = number(word.bytes, u128::MAX) else {
            return Ok(ids);
        };
        ids.push(id)?;
        rest = after;
    }
    Ok(ids)
}
