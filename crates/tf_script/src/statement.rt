//! What one line of a script means.

ghost use Rattle.std.specs.Prelude.{◌≡◌, IfOk};
ghost use Rattle.tf_script.specs.Statements.{◌<&>◌, moment_of, pulse_of, command_of, outer_line_of, event_of, batch_line_of, statement_of};
ghost use Rattle.tf_script.specs.Script.{batch_after};
ghost use Rattle.tf_script.specs.Reader.WordViews.{word_of, words_of, HasColumns};
ghost use Rattle.tf_script.specs.Reader.LineViews.{request_view, statement_view, CanStand, IsReadable};

use crate::command::Query;
use crate::record::{Spelling, read_filter, read_record};
use crate::request::{Request, id_words};
use crate::verb::{Verb, read_verb};
use crate::word::{Rest, Word, ends_line, next_number, next_word};
use tf_records::{Account, Transfer};

/// The batch that a script is in.
#[derive(Clone, Copy)]
pub enum Batch {
    Accounts { now: u64 },
    Transfers { now: u64 },
}

/// What a line means.
#[derive(Clone, Copy)]
pub enum Statement<'a> {
    /// Nothing: a line without words, or a comment.
    Blank,
    /// A batch begins.
    Opens(Batch),
    /// An event of a batch of accounts.
    AccountEvent(Account),
    /// An event of a batch of transfers.
    TransferEvent(Transfer),
    /// The batch ends.
    Closes,
    /// A command of one line.
    Asks(Request<'a>),
}

impl Statement<'_> {
    /// The batch that is open after the line, where this one is open before it.
    pub fn batch_after(&self, batch: Option<Batch>) -> Option<Batch>
        ensures { result ≡ batch_after batch (statement_view self.now) }
    {
        match self {
            Statement::Opens(opened) => Some(*opened),
            Statement::Closes => None,
            _ => batch,
        }
    }
}

/// The moment of a batch, the last word of its line.
fn moment(end: u64, rest: Rest<'_>) -> Result<u64, u64>
    requires { HasColumns rest }
    ensures { result ≡ moment_of end (words_of rest.entry) }
{
    let (now, rest) = next_number(u64::MAX as u128, end, rest)?;
    ends_line(now as u64, rest)
}

/// A pulse: its moment and the most that it expires, the last words of its line.
fn pulse(end: u64, rest: Rest<'_>) -> Result<Request<'_>, u64>
    requires { HasColumns rest }
    ensures value { (result <&> request_view) ≡ pulse_of end (words_of rest.entry) }
    ensures readable { IfOk result IsReadable }
{
    let (now, rest) = next_number(u64::MAX as u128, end, rest)?;
    let (max, rest) = next_number(u32::MAX as u128, end, rest)?;
    let (now, max) = ends_line((now as u64, max as u32), rest)?;
    Ok(Request::Pulse { now, max })
}

/// A command, by the words after its first.
fn command(verb: Verb, end: u64, rest: Rest<'_>) -> Result<Statement<'_>, u64>
    requires { HasColumns rest }
    ensures value { (result <&> statement_view) ≡ command_of verb end (words_of rest.entry) }
    ensures outside { IfOk result (CanStand None) }
{
    Ok(match verb {
        Verb::Accounts => Statement::Opens(Batch::Accounts {
            now: moment(end, rest)?,
        }),
        Verb::Transfers => Statement::Opens(Batch::Transfers {
            now: moment(end, rest)?,
        }),
        Verb::Pulse => Statement::Asks(pulse(end, rest)?),
        Verb::Publish => Statement::Asks(ends_line(Request::Publish, rest)?),
        Verb::Compact => Statement::Asks(ends_line(Request::Compact, rest)?),
        Verb::GetAccountTransfers => {
            Statement::Asks(Request::Query(Query::AccountTransfers(read_filter(end, rest)?)))
        }
        Verb::GetAccountBalances => {
            Statement::Asks(Request::Query(Query::AccountBalances(read_filter(end, rest)?)))
        }
        Verb::QueryAccounts => {
            Statement::Asks(Request::Query(Query::Accounts(read_filter(end, rest)?)))
        }
        Verb::QueryTransfers => {
            Statement::Asks(Request::Query(Query::Transfers(read_filter(end, rest)?)))
        }
        Verb::LookupAccounts => Statement::Asks(Request::LookupAccounts(id_words(rest)?)),
        Verb::LookupTransfers => Statement::Asks(Request::LookupTransfers(id_words(rest)?)),
    })
}

/// A line outside a batch, by its first word.
fn outer_line<'a>(end: u64, word: Word<'_>, rest: Rest<'a>) -> Result<Statement<'a>, u64>
    requires { HasColumns rest }
    ensures value { (result <&> statement_view)
        ≡ outer_line_of end (word_of word.entry) (words_of rest.entry) }
    ensures outside { IfOk result (CanStand None) }
{
    match read_verb(word.bytes) {
        None => Err(word.column),
        Some(verb) => command(verb, end, rest),
    }
}

/// An event of a batch.
fn event<'a>(
    batch: Batch,
    spelling: Spelling,
    end: u64,
    rest: Rest<'a>,
) -> Result<Statement<'a>, u64>
    requires { HasColumns rest }
    ensures value { (result <&> statement_view)
        ≡ event_of batch spelling end (words_of rest.entry) }
    ensures inside { IfOk result (CanStand (Some batch)) }
{
    Ok(match batch {
        Batch::Accounts { .. } => Statement::AccountEvent(read_record(spelling, end, rest)?),
        Batch::Transfers { .. } => Statement::TransferEvent(read_record(spelling, end, rest)?),
    })
}

/// A line inside a batch, by its first word.
#[tactic(auto, unfolding(crate::specs::Statements::batch_line_of))]
fn batch_line<'a>(
    batch: Batch,
    end: u64,
    word: Word<'_>,
    rest: Rest<'a>,
) -> Result<Statement<'a>, u64>
    requires { HasColumns rest }
    ensures value { (result <&> statement_view)
        ≡ batch_line_of batch end (word_of word.entry) (words_of rest.entry) }
    ensures inside { IfOk result (CanStand (Some batch)) }
{
    if word.bytes == b"+".as_slice() {
        event(batch, Spelling::Fields, end, rest)
    } else if word.bytes == b"raw".as_slice() {
        event(batch, Spelling::Raw, end, rest)
    } else if word.bytes == b"end".as_slice() {
        ends_line(Statement::Closes, rest)
    } else {
        Err(word.column)
    }
}

/// What a line means where this batch is open. An `Err` is the column of its fault. Takes no memory.
#[tactic(auto, unfolding(crate::specs::Statements::statement_of))]
pub fn read_line(batch: Option<Batch>, line: &[u8]) -> Result<Statement<'_>, u64>
    ensures value { (result <&> statement_view) ≡ statement_of batch line.now }
    ensures placed { IfOk result (CanStand batch) }
{
    let Some((word, rest)) = next_word(Rest {
        column: 1,
        bytes: line,
    }) else {
        return Ok(Statement::Blank);
    };
    if word.bytes.first() == Some(&b'#') {
        return Ok(Statement::Blank);
    }
    let end = line.len() as u64 + 1;
    match batch {
        None => outer_line(end, word, rest),
        Some(batch) => batch_line(batch, end, word, rest),
    }
}
