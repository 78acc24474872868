//! The records that a line's words spell.

ghost use Rattle.std.specs.Prelude.{◌≡◌, ◌≤◌, map, length, IsTrue};
ghost use Rattle.tf_script.specs.Statements.{in_hex, record_of, filter_of};
ghost use Rattle.tf_script.specs.Records.{Format};
ghost use Rattle.tf_script.specs.Reader.Tables.{field_of, few_flags, Fit};
ghost use Rattle.tf_script.specs.Reader.WordViews.{words_of, HasColumns};

use crate::field::{FieldEntry, assign};
use crate::word::{Rest, ends_line, next_word, next_word_or};

/// How a record is spelled.
#[derive(Clone, Copy)]
pub enum Spelling {
    /// By words FIELD=VALUE.
    Fields,
    /// By its bytes, as a word of two hexadecimal digits for each.
    Raw,
}

/// A record that a script spells.
pub trait Record: Copy {
    // How a script writes it.
    ghost format: { Format Self };

    /// The table of its fields, at most 13, in the order of the record.
    fn fields() -> &'static [FieldEntry]
        ensures table { map field_of result.now ≡ format.fields }
        ensures flags { IsTrue (few_flags result.now) }
        ensures few { length result.now ≤ 13 };

    /// The record with the values of its fields.
    fn from_values(values: &[Option<u128>]) -> Self
        requires all { length values.now ≡ length format.fields }
        requires fit { Fit format.fields values.now }
        ensures { result ≡ format.from_values values.now };

    /// The record whose bytes a text gives.
    fn from_digits(text: &[u8]) -> Option<Self>
        ensures { result ≡ in_hex format text.now };
}

/// The record that words FIELD=VALUE spell. An `Err` is the column of the first that assigns nothing.
fn by_fields<R: Record>(words: Rest<'_>) -> Result<R, u64>
    requires { HasColumns words }
    ensures { result ≡ record_of R.format Spelling.Fields 0 (words_of words.entry) }
{
    let table = R::fields();
    let mut values = [None; 13];
    let values = &mut values[..table.len()];
    assign(table, values, words)?;
    Ok(R::from_values(values))
}

/// The record whose bytes the only word that is left gives.
fn by_digits<R: Record>(end: u64, words: Rest<'_>) -> Result<R, u64>
    requires { HasColumns words }
    ensures { result ≡ record_of R.format Spelling.Raw end (words_of words.entry) }
{
    let (word, rest) = next_word_or(end, words)?;
    let Some(record) = R::from_digits(word.bytes) else {
        return Err(word.column);
    };
    ends_line(record, rest)
}

/// The record that words spell. An `Err` is the column of the first fault; `end` is that of a missing word.
pub fn read_record<R: Record>(spelling: Spelling, end: u64, words: Rest<'_>) -> Result<R, u64>
    requires { HasColumns words }
    ensures { result ≡ record_of R.format spelling end (words_of words.entry) }
{
    match spelling {
        Spelling::Fields => by_fields(words),
        Spelling::Raw => by_digits(end, words),
    }
}

/// The filter of a query: the word `raw` comes before its bytes.
pub fn read_filter<R: Record>(end: u64, words: Rest<'_>) -> Result<R, u64>
    requires { HasColumns words }
    ensures { result ≡ filter_of R.format end (words_of words.entry) }
{
    match next_word(words) {
        Some((word, rest)) if word.bytes == b"raw".as_slice() => {
            read_record(Spelling::Raw, end, rest)
        }
        _ => read_record(Spelling::Fields, end, words),
    }
}
