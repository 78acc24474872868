//! The fields of a record, and what a line's words FIELD=VALUE give them.

ghost use Rattle.std.specs.Prelude.{◌≡◌, ℕ, ◌+◌, ◌<◌, ◌≤◌, ◌^◌, length, map, OnOk, IfSome, MatchResult, IsTrue};
ghost use Rattle.tf_script.specs.Values.{place_of};
ghost use Rattle.tf_script.specs.Fields.{names_of, value_of, assignment_of, assigned, number_at};
ghost use Rattle.tf_script.specs.Reader.Tables.{field_of, few_flags, greatest_at, Fit};
ghost use Rattle.tf_script.specs.Reader.WordViews.{words_of, HasColumns};

use crate::bytes::cut;
use crate::table::{Named, place};
use crate::value::{flags, number};
use crate::word::{Rest, next_word};

/// A field of a record, as its table has it.
pub struct FieldEntry {
    /// The name that a script gives it.
    pub name: &'static str,
    /// The greatest number of its type.
    pub greatest: u128,
    /// The names of the field's bits from bit 0 on; none for a field that isn't a set of flags.
    pub flags: &'static [&'static str],
}

impl Named for FieldEntry {
    ghost name_of = { λ entry. entry.name.now };

    fn name(&self) -> &[u8] {
        self.name.as_bytes()
    }
}

/// What a word assigns.
#[derive(Clone, Copy)]
pub struct Assignment {
    /// The field's place in its table, from 0 on.
    pub place: usize,
    /// The number that it is given.
    pub value: u128,
}

/// The value that a text gives a field: a number, or flags by their names. Linear in the text's length.
#[tactic(auto, unfolding(crate::specs::Fields::value_of))]
fn value(entry: &FieldEntry, text: &[u8]) -> Option<u128>
    requires { length entry.now.flags.now < 128 }
    ensures value { result ≡ value_of (field_of entry.now) text.now }
    ensures fits { IfSome result (λ value. value ≤ entry.now.greatest) }
{
    if let Some(value) = number(text, entry.greatest) {
        return Some(value);
    }
    let value = flags(entry.flags, text)?;
    if value <= entry.greatest {
        Some(value)
    } else {
        None
    }
}

/// The place of the first field of that name.
fn field_place(table: &[FieldEntry], name: &[u8]) -> Option<usize>
    ensures value { result ≡ place_of (names_of (map field_of table.now)) name.now }
    ensures within { IfSome result (λ place. place < length table.now) }
{
    place(table, name)
}

/// What a word assigns, where values has the numbers assigned before it.
#[tactic(auto, unfolding(crate::specs::Fields::assignment_of))]
fn read_assignment(table: &[FieldEntry], values: &[Option<u128>], text: &[u8]) -> Option<Assignment>
    requires flags { IsTrue (few_flags table.now) }
    requires values { length values.now ≡ length table.now }
    ensures value { result ≡ assignment_of (map field_of table.now) values.now text.now }
    ensures within { IfSome result (λ found. found.place < length table.now) }
    ensures fits { IfSome result (λ found. found.value ≤ greatest_at (map field_of table.now) found.place) }
{
    let (name, after) = cut(text, b'=');
    let text = after?;
    let place = field_place(table, name)?;
    if values[place].is_some() {
        return None;
    }
    let value = value(&table[place], text)?;
    Some(Assignment { place, value })
}

/// Gives the fields of a table the values that the words of a line assign, each field at most once.
///
/// An `Err` is the column of the first word that assigns nothing; the words before it have been assigned then.
/// Linear in the words' length.
pub fn assign(table: &[FieldEntry], values: &mut [Option<u128>], words: Rest<'_>) -> Result<(), u64>
    requires columns { HasColumns words }
    requires flags { IsTrue (few_flags table.now) }
    requires values { length values.old ≡ length table.now }
    requires fit { Fit (map field_of table.now) values.old }
    ensures value { MatchResult result
        (λ _. assigned (map field_of table.now) values.old (words_of words.entry) ≡ Ok values.new)
        (λ column. assigned (map field_of table.now) values.old (words_of words.entry) ≡ Err column) }
    ensures fit { OnOk result (Fit (map field_of table.now) values.new) }
{
    let mut rest = words;
    while let Some((word, after)) = next_word(rest) {
        let Some(assignment) = read_assignment(table, values, word.bytes) else {
            return Err(word.column);
        };
        values[assignment.place] = Some(assignment.value);
        rest = after;
    }
    Ok(())
}

/// The number of the field at a place: 0 for one that wasn't named.
pub fn number_at(values: &[Option<u128>], place: usize) -> u128
    requires { place < length values.now }
    ensures { result ≡ number_at values.now place }
{
    values[place].unwrap_or(0)
}
