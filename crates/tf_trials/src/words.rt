//! The words of lines.

use tf_records::Refusal;

/// A word can't be read.
pub const UNREADABLE: Refusal = Refusal::BadLine { line: 0, column: 0 };

/// The numbers that lines call by a letter.
#[derive(Clone, Copy)]
pub struct Numbers {
    /// How often a line was repeated, which it calls `N`.
    pub turn: u64,
    /// The number of the test, which its text calls `M`.
    pub parameter: u64,
}

/// The first word of a line, and what stands behind the space after it.
pub fn first_word(line: &str) -> (&str, &str) {
    line.split_once(' ').unwrap_or((line, ""))
}

/// The number that a word spells: in digits, `N` for that of a line which is repeated, `M` for that of the test, 0 without a
/// word. Another word is no number.
pub fn number(numbers: Numbers, word: &str) -> Result<u64, Refusal> {
    match word {
        "" => Ok(0),
        "N" => Ok(numbers.turn),
        "M" => Ok(numbers.parameter),
        _ => digits(word),
    }
}

fn digits(word: &str) -> Result<u64, Refusal> {
    match word.parse::<u64>() {
        Ok(number) => Ok(number),
        Err(_) => Err(UNREADABLE),
    }
}

/// Whether a word spells this number in digits.
pub fn is_number(word: &str, number: usize) -> bool {
    match word.parse::<usize>() {
        Ok(spelled) => spelled == number,
        Err(_) => false,
    }
}

/// The first two numbers of a line.
pub fn two_numbers(numbers: Numbers, words: &str) -> Result<(u64, u64), Refusal> {
    let (first, second) = first_word(words);
    Ok((number(numbers, first)?, number(numbers, second)?))
}
