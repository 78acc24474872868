//! Tables of cases as one text, a line a case.

use std::alloc::{AllocError, Allocator};
use std::process::Abort;

/// The bytes of a text in which `\n`, `\r`, `\t` and `\s` stand for a line feed, a carriage return, a tab and a space.
pub fn unescaped<A: Allocator>(alloc: A, text: &str) -> Result<Vec<u8, A>, AllocError> {
    let mut bytes = Vec::new(alloc);
    let mut escaped = false;
    for byte in text.as_bytes() {
        if escaped {
            bytes.push(escaped_byte(*byte))?;
            escaped = false;
        } else if *byte == b'\\' {
            escaped = true;
        } else {
            bytes.push(*byte)?;
        }
    }
    Ok(bytes)
}

fn escaped_byte(letter: u8) -> u8 {
    match letter {
        b'n' => b'\n',
        b'r' => b'\r',
        b't' => b'\t',
        b's' => b' ',
        other => other,
    }
}

/// The first word of a line, and what stands behind the space after it.
pub fn first_word(line: &str) -> (&str, &str) {
    line.split_once(' ').unwrap_or((line, ""))
}

/// The number that a word of a table spells.
pub fn number(rt: &impl Abort, word: &str) -> u64 {
    word.parse::<u64>().expect(rt, "a number in a table")
}

/// The place that begins a line of a table, if it has one, and the script behind it.
pub fn place_and_script<'a>(rt: &impl Abort, line: &'a str) -> (Option<(u64, u64)>, &'a str) {
    let (first, rest) = first_word(line);
    if first == "none" {
        return (None, rest);
    }
    let (second, script) = first_word(rest);
    (Some((number(rt, first), number(rt, second))), script)
}
