//! Assertions that say where they failed. A message is dear to prove, so it is spelled out once.

use std::process::Abort;

/// It holds, or the test fails and says of what and at which place it doesn't.
pub fn assert_at(rt: &impl Abort, holds: bool, what: &str, place: u64) {
    assert!(rt; holds, "{what} at {place}");
}
