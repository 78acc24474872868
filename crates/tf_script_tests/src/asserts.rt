//! Assertions that say where they failed. A message is dear to prove, so each is spelled out once.

use std::process::Abort;

/// It holds, or the test fails and says of what and at which place it doesn't.
pub fn assert_at(rt: &impl Abort, holds: bool, what: &str, place: u64) {
    assert!(rt; holds, "{what} at {place}");
}

/// It holds, or the test fails and says of which line it doesn't.
pub fn assert_in(rt: &impl Abort, holds: bool, line: &str) {
    assert!(rt; holds, "not so: {line}");
}
