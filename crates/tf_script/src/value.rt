//! What a word means as a number, or as a set of flags.

ghost use Rattle.std.specs.Prelude.{◌≡◌, ◌<◌, ◌≤◌, length, IsTrue, IfSome};
ghost use Rattle.tf_script.specs.Values.{is_decimal, decimal, at_most, number_of, bit_of, flags_of};
ghost use Rattle.tf_script.specs.Reader.Tables.{texts_of};

use crate::bytes::cut;
use crate::table::place;

/// Whether the text is one or more decimal digits.
fn is_decimal(text: &[u8]) -> bool
    ensures { result ≡ is_decimal text.now }
{
    for byte in text {
        if !byte.is_ascii_digit() {
            return false;
        }
    }
    !text.is_empty()
}

/// The number that decimal digits spell, unless it is above the greatest. Any number of zeros may lead.
fn decimal(digits: &[u8], greatest: u128) -> Option<u128>
    requires { IsTrue (is_decimal digits.now) }
    ensures value { result ≡ at_most greatest (decimal digits.now) }
    ensures fits { IfSome result (λ value. value ≤ greatest) }
{
    let mut number: u128 = 0;
    for byte in digits {
        number = number
            .checked_mul(10)?
            .checked_add(u128::from(*byte - b'0'))?;
    }
    if number <= greatest {
        Some(number)
    } else {
        None
    }
}

/// The number up to the greatest that a word spells, in decimal digits or as `max`.
#[tactic(auto, unfolding(crate::specs::Values::number_of))]
pub fn number(text: &[u8], greatest: u128) -> Option<u128>
    ensures value { result ≡ number_of greatest text.now }
    ensures fits { IfSome result (λ value. value ≤ greatest) }
{
    if text == b"max".as_slice() {
        Some(greatest)
    } else if is_decimal(text) {
        decimal(text, greatest)
    } else {
        None
    }
}

/// The bit that a name stands for among names: the first stands for bit 0.
fn bit(names: &[&str], text: &[u8]) -> Option<u128>
    requires { length names.now < 128 }
    ensures { result ≡ bit_of (texts_of names.now) text.now }
{
    let place = place(names, text)?;
    Some(1 << place)
}

/// The bits of names joined by `|`.
#[tactic(auto, unfolding(crate::specs::Values::flags_of))]
pub fn flags(names: &[&str], text: &[u8]) -> Option<u128>
    requires { length names.now < 128 }
    ensures { result ≡ flags_of (texts_of names.now) text.now }
{
    let mut bits = 0;
    let mut rest = text;
    loop {
        let (name, after) = cut(rest, b'|');
        bits |= bit(names, name)?;
        match after {
            Some(left) => rest = left,
            None => return Some(bits),
        }
    }
}
