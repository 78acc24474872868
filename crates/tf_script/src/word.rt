//! The words of a line.

ghost use Rattle.std.specs.Prelude.{◌≡◌, ◌<◌, ◌≤◌, [], ◌∷◌, length, MatchOption, MatchResult, IfSome, IfOk};
ghost use Rattle.tf_script.specs.Values.{number_of};
ghost use Rattle.tf_script.specs.Statements.{◌<&>◌, ends_line, next_of};
ghost use Rattle.tf_script.specs.Reader.WordViews.{word_of, words_of, end_of, HasColumns};
ghost use Rattle.tf_script.specs.Reader.LineViews.{read_view};

use crate::bytes::{leading_spaces, length_before};
use crate::value::number;

/// A word of a line.
#[derive(Clone, Copy)]
pub struct Word<'a> {
    /// The place of its first byte in the line, from 1 on.
    pub column: u64,
    /// Its bytes, one or more and none of them a space.
    pub bytes: &'a [u8],
}

/// What is left of a line.
#[derive(Clone, Copy)]
pub struct Rest<'a> {
    /// The place of its first byte in the line, from 1 on.
    pub column: u64,
    /// All bytes of the line from there on.
    pub bytes: &'a [u8],
}

/// The first word of what is left, and what is left after it; nothing where no word is left.
///
/// Linear in the bytes that it passes.
pub fn next_word(rest: Rest<'_>) -> Option<(Word<'_>, Rest<'_>)>
    requires { HasColumns rest }
    ensures words { MatchOption result (words_of rest.entry ≡ [])
        (λ found. words_of rest.entry ≡ word_of found.0 ∷ words_of found.1) }
    ensures same_end { IfSome result (λ found. end_of found.1 ≡ end_of rest.entry) }
    ensures shorter { IfSome result (λ found. length found.1.bytes.now < length rest.entry.bytes.now) }
{
    let spaces = leading_spaces(rest.bytes);
    let (_, from) = rest.bytes.split_at(spaces);
    if from.is_empty() {
        return None;
    }
    let column = rest.column + spaces as u64;
    let count = length_before(from, b' ');
    let (bytes, after) = from.split_at(count);
    Some((
        Word { column, bytes },
        Rest {
            column: column + count as u64,
            bytes: after,
        },
    ))
}

/// The first word of what is left, and what is left after it. An `Err` is `end`, where no word is left.
pub fn next_word_or(end: u64, rest: Rest<'_>) -> Result<(Word<'_>, Rest<'_>), u64>
    requires { HasColumns rest }
    ensures words { MatchResult result
        (λ found. words_of rest.entry ≡ word_of found.0 ∷ words_of found.1)
        (λ column. (words_of rest.entry ≡ []) × (column ≡ end)) }
    ensures columns { IfOk result (λ found. HasColumns found.1) }
{
    next_word(rest).ok_or(end)
}

/// The number that the next word spells, and what is left after it. An `Err` is the column of the fault.
pub fn next_number(greatest: u128, end: u64, rest: Rest<'_>) -> Result<(u128, Rest<'_>), u64>
    requires { HasColumns rest }
    ensures value { (result <&> read_view) ≡ next_of (number_of greatest) end (words_of rest.entry) }
    ensures fits { IfOk result (λ found. found.0 ≤ greatest) }
    ensures columns { IfOk result (λ found. HasColumns found.1) }
{
    let (word, after) = next_word_or(end, rest)?;
    match number(word.bytes, greatest) {
        None => Err(word.column),
        Some(value) => Ok((value, after)),
    }
}

/// Passes a value on where no word is left on its line. An `Err` is the further word's column.
pub fn ends_line<T: Copy>(value: T, rest: Rest<'_>) -> Result<T, u64>
    requires { HasColumns rest }
    ensures { result ≡ ends_line value (words_of rest.entry) }
{
    match next_word(rest) {
        None => Ok(value),
        Some((word, _)) => Err(word.column),
    }
}
