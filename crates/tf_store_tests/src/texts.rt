//! Texts that hold of a store.

use std::process::Abort;
use std::sync::Wait;
use tf_text_trials::{Fixture, try_text};
use tf_trials::Stopped;

/// A text runs to its end on an empty store. Where it doesn't, the part is told at which it stopped.
pub fn assert_text<R: Abort + AllocGlobal + Wait>(rt: &R, fixture: Fixture, text: &str) {
    if let Err(Stopped { part, refusal }) = try_text(rt, rt.alloc(), fixture, text) {
        assert!(rt; false, "not so: {part} ({refusal:?})");
    }
}
