//! Tables of cases as one text, a line a case.

use std::alloc::Global;
use std::process::Abort;
use tf_records::Refusal;
use tf_script::{Command, parse};

/// It holds, or the test fails and says of which line it doesn't. A message is dear to prove, so it is spelled out once.
pub fn assert_in(rt: &impl Abort, holds: bool, line: &str) {
    assert!(rt; holds, "not so: {line}");
}

/// The first word of a line, and what stands behind the space after it.
pub fn first_word(line: &str) -> (&str, &str) {
    line.split_once(' ').unwrap_or((line, ""))
}

/// The number that a word of a table spells.
pub fn number(rt: &impl Abort, word: &str) -> u64 {
    word.parse::<u64>().expect(rt, "a number in a table")
}

/// The batch of one record, or of two with ` -> ` between them. Its kind is `accounts` or `transfers`.
pub fn batch(alloc: Global, kind: &str, records: &str) -> Result<Option<Command<Global>>, Refusal> {
    let (first, second) = records.split_once(" -> ").unwrap_or((records, ""));
    let script = format!(in alloc; "{kind} 0\n+ {first}\n{second}\nend")?;
    last_command(alloc, script.as_str())
}

/// The last command of a script.
pub fn last_command(alloc: Global, script: &str) -> Result<Option<Command<Global>>, Refusal> {
    let mut commands = parse(alloc, script.as_bytes())?;
    Ok(commands.pop())
}

/// What is asked of a record, and the number behind ` at `, which is 0 where there is none.
pub fn asked_at<'t>(rt: &impl Abort, words: &'t str) -> (&'t str, u64) {
    match words.split_once(" at ") {
        Some((asked, word)) => (asked, number(rt, word)),
        None => (words, 0),
    }
}
