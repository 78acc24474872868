//! Requests for memory that are refused to queries and look-ups, each in turn.

use crate::asking::{Outcome, ask_plain, count_of};
use crate::calls::{ask, ask_on, does};
use crate::publishing::run_list;
use crate::refused::AMPLE;
use crate::tried::{Act, Asked, Tried};
use linked_list_allocator::LocalHeap;
use std::alloc::{AllocError, Global};
use tf_records::Refusal;
use tf_script::{Command, Query, parse};
use tf_trials::random::commands;
use tf_trials::{Plain, take_all_but};

/// How many bytes more are free at each further try.
const STEP: usize = 16;

/// The same for a look-up of as many ids as it may have: room for 8,190 rows of 128 bytes after eight tries.
const LONG_STEP: usize = 8190 * 128 / 8;

/// Each query with a limit, of an account with history on both sides and by two fields, or by three fields; and each look-up of
/// 20 ids.
const VALID: &str = "\
     get_account_transfers account_id=3 user_data_32=7 code=1 limit=20 flags=debits|credits|reversed\n\
     get_account_balances account_id=3 user_data_32=7 code=1 limit=20 flags=debits|credits|reversed\n\
     query_accounts user_data_32=3 ledger=1 code=10 limit=20\n\
     query_transfers user_data_32=7 ledger=1 code=1 limit=20\n\
     lookup_accounts 1 2 3 4 5 6 1 2 3 4 5 6 1 2 3 4 5 6 1 2\n\
     lookup_transfers 1 2 3 4 5 6 1 2 3 4 5 6 1 2 3 4 5 6 1 2\n";

/// The same queries with no limit, which is invalid.
const INVALID: &str = "\
     get_account_transfers account_id=3 user_data_32=7 code=1 flags=debits|credits|reversed\n\
     get_account_balances account_id=3 user_data_32=7 code=1 flags=debits|credits|reversed\n\
     query_accounts user_data_32=3 ledger=1 code=10\n\
     query_transfers user_data_32=7 ledger=1 code=1\n";

/// Each query and look-up of what worked scripts store, some of which find nothing there.
const OF_SCRIPTS: &str = "\
     get_account_transfers account_id=1 code=1 limit=20 flags=debits|credits|reversed\n\
     get_account_balances account_id=1 limit=20 flags=debits|credits\n\
     query_accounts ledger=700 code=10 limit=20\n\
     query_transfers ledger=700 code=1 limit=20\n\
     lookup_accounts 1 2 9 2\n\
     lookup_transfers 5 13 41 42 43 46 50 52\n";

/// So many ids, from 1 to 6.
fn ids(alloc: Global, count: u32) -> Result<Vec<u128, Global>, AllocError> {
    let mut ids = Vec::new(alloc);
    for before in 0..count {
        ids.push(u128::from(before % 6) + 1)?;
    }
    Ok(ids)
}

/// Asks a version on a heap with a hole of so many bytes.
fn ask_in_room<F: Tried>(
    alloc: Global,
    heap: &LocalHeap,
    forest: &mut F,
    question: &Command<Global>,
    expected: &Outcome<Global>,
    room: usize,
) -> Result<Asked, AllocError> {
    let mut taken = Vec::new(alloc);
    take_all_but(&mut taken, heap, room)?;
    let asked = ask_on(heap, forest, 0, question, expected);
    drop(taken);
    Ok(asked)
}

/// Asks a version with hardly any memory at first and then more and more, until it isn't refused any more. Tells how often it was
/// refused, or None where it didn't answer as was expected then, or with memory after a refusal.
fn refusals<F: Tried>(
    alloc: Global,
    heap: &LocalHeap,
    forest: &mut F,
    question: &Command<Global>,
    expected: &Outcome<Global>,
    step: usize,
) -> Result<Option<usize>, AllocError> {
    for refused in 0..AMPLE / 16 {
        let room = refused.saturating_mul(step);
        match ask_in_room(alloc, heap, forest, question, expected, room)? {
            Asked::NoMemory => {}
            Asked::Expected => return Ok(Some(refused)),
            Asked::Wrong => return Ok(None),
        }
        if !matches!(ask(forest, 0, question, expected), Asked::Expected) {
            return Ok(None);
        }
    }
    Ok(None)
}

/// What questions find, and whether they take memory for it.
#[derive(Clone, Copy)]
enum Finds {
    /// Each finds something, and takes memory.
    Rows,
    /// None finds anything, and none takes memory.
    Nothing,
    /// Some find nothing; those that find something take memory.
    RowsOrNothing,
}

/// Whether questions that find so much may have found this and been refused so often.
fn may_be(finds: Finds, has_rows: bool, refused: usize) -> bool {
    match finds {
        Finds::Rows => has_rows && refused > 0,
        Finds::Nothing => !has_rows && refused == 0,
        Finds::RowsOrNothing => !has_rows || refused > 0,
    }
}

/// Whether a query or a look-up is refused in turn on a heap where it takes memory, and is answered as the plain ledger does.
fn is_right_on<F: Tried>(
    alloc: Global,
    heap: &LocalHeap,
    plain: &Plain,
    forest: &mut F,
    question: &Command<Global>,
    step: usize,
    finds: Finds,
) -> bool {
    let expected = ask_plain(alloc, plain.ledger(), question);
    let has_rows = count_of(&expected) > 0;
    let refused = refusals(alloc, heap, forest, question, &expected, step);
    drop(expected);
    matches!(refused, Ok(Some(refused)) if may_be(finds, has_rows, refused))
}

/// The same on a heap of its own.
fn is_right<F: Tried>(
    alloc: Global,
    plain: &Plain,
    forest: &mut F,
    question: &Command<Global>,
    step: usize,
    finds: Finds,
) -> bool {
    let Ok(heap) = LocalHeap::new(alloc, AMPLE) else {
        return false;
    };
    let is_right = is_right_on(alloc, &heap, plain, forest, question, step, finds);
    drop(heap);
    is_right
}

/// The same with several.
fn are_right<F: Tried>(
    alloc: Global,
    plain: &Plain,
    forest: &mut F,
    questions: &[Command<Global>],
    finds: Finds,
) -> bool {
    for question in questions {
        if !is_right(alloc, plain, forest, question, STEP, finds) {
            return false;
        }
    }
    true
}

/// The same with those of a text.
fn is_text_right<F: Tried>(
    alloc: Global,
    plain: &Plain,
    forest: &mut F,
    text: &str,
    finds: Finds,
) -> bool {
    let Ok(questions) = parse(alloc, text.as_bytes()) else {
        return false;
    };
    let are_right = are_right(alloc, plain, forest, questions.as_slice(), finds);
    drop(questions);
    are_right
}

/// The same with a look-up of so many accounts.
fn are_accounts_right<F: Tried>(
    alloc: Global,
    plain: &Plain,
    forest: &mut F,
    count: u32,
    step: usize,
    finds: Finds,
) -> bool {
    let Ok(ids) = ids(alloc, count) else {
        return false;
    };
    let question = Command::LookupAccounts(ids);
    let is_right = is_right(alloc, plain, forest, &question, step, finds);
    drop(question);
    is_right
}

/// The same with a look-up of so many transfers.
fn are_transfers_right<F: Tried>(
    alloc: Global,
    plain: &Plain,
    forest: &mut F,
    count: u32,
    step: usize,
    finds: Finds,
) -> bool {
    let Ok(ids) = ids(alloc, count) else {
        return false;
    };
    let question = Command::LookupTransfers(ids);
    let is_right = is_right(alloc, plain, forest, &question, step, finds);
    drop(question);
    is_right
}

/// Whether look-ups of as many ids as they may have, and of one more, are right so.
fn are_long_right<F: Tried>(alloc: Global, plain: &Plain, forest: &mut F) -> bool {
    are_accounts_right(alloc, plain, forest, 8190, LONG_STEP, Finds::Rows)
        && are_accounts_right(alloc, plain, forest, 8191, STEP, Finds::Nothing)
        && are_transfers_right(alloc, plain, forest, 8190, LONG_STEP, Finds::Rows)
        && are_transfers_right(alloc, plain, forest, 8191, STEP, Finds::Nothing)
}

/// Whether a version of a random journal answers as before when it is refused memory in turn for each query and look-up.
pub fn are_refusals_right<F: Tried>(
    alloc: Global,
    plain: &mut Plain,
    forest: &mut F,
) -> Result<bool, Refusal> {
    let is_run = run_list(alloc, plain, forest, commands(alloc, 5, 30))?;
    Ok(
        is_run
            && does(forest, Act::Take)
            && is_text_right(alloc, plain, forest, VALID, Finds::Rows)
            && is_text_right(alloc, plain, forest, INVALID, Finds::Nothing)
            && are_long_right(alloc, plain, forest),
    )
}

/// The queries among those.
pub fn queries_of_scripts(alloc: Global) -> Result<Vec<Query, Global>, Refusal> {
    let commands = parse(alloc, OF_SCRIPTS.as_bytes())?;
    let mut queries = Vec::new(alloc);
    for command in &commands {
        if let Command::Query(query) = command {
            queries.push(*query)?;
        }
    }
    Ok(queries)
}

/// Whether a version of a worked script's journal answers as before when it is refused memory in turn for each query and look-up.
pub fn are_script_refusals_right<F: Tried>(
    alloc: Global,
    plain: &Plain,
    forest: &mut F,
) -> Result<bool, Refusal> {
    Ok(
        does(forest, Act::Take)
            && is_text_right(alloc, plain, forest, OF_SCRIPTS, Finds::RowsOrNothing),
    )
}
