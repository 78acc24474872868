//! What is to be said of a worked script or storm.
ghost use Rattle.std.specs.Prelude.{◌≡◌, None};

use std::fmt;

/// Whether a worked script or storm writes what it should.
#[derive(Clone, Copy)]
pub enum Verdict {
    /// All is as it should be.
    Right,
    /// What this names is something else, from this byte on, counted from 1.
    Differs { part: &'static str, byte: usize },
    /// One of its files can't be read.
    Unread,
}

impl Verdict {
    /// The verdict of one part by itself: what was written of it, beside what should be.
    pub fn of(part: &'static str, written: &[u8], wanted: &[u8]) -> Verdict
        ensures { result ≡ Verdict.Right → written.now ≡ wanted.now }
    {
        match first_difference(written, wanted) {
            None => Verdict::Right,
            Some(byte) => Verdict::Differs { part, byte },
        }
    }

    /// Whether all is as it should be.
    pub fn is_right(self) -> bool {
        matches!(self, Verdict::Right)
    }
}

impl fmt::Display for Verdict {
    fn fmt<W: fmt::Write>(&self, f: &mut fmt::Formatter<W>) -> fmt::Result {
        match self {
            Verdict::Right => write!(f, "ok"),
            Verdict::Differs { part, byte } => write!(f, "{part}: byte {byte} differs"),
            Verdict::Unread => write!(f, "cannot be read"),
        }
    }
}

/// The first byte, counted from 1, that two texts don't share.
fn first_difference(one: &[u8], other: &[u8]) -> Option<usize>
    ensures { result ≡ None → one.now ≡ other.now }
{
    if one == other {
        return None;
    }
    let shared = one
        .iter()
        .zip(other)
        .take_while(|(byte, counterpart)| byte == counterpart)
        .count();
    Some(shared.saturating_add(1))
}
