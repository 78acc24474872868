//! Sealed tables, whose rows no longer change and are sorted by key, with their merge.
//!
//! A row is a key with a value, or with a tombstone, which says that the key is absent.
#![tactic(auto)]

mod column;
mod cursor;
mod draft;
mod entries;
mod fences;
mod filter;
mod fitted;
mod front;
mod growing_filter;
mod hints;
mod key;
mod laws;
mod merging;
mod pair;
mod probe;
mod sealed;
mod search;
mod span;

pub use column::Column;
pub use cursor::Cursor;
pub use draft::Draft;
pub use entries::Repeats;
pub use growing_filter::GrowingFilter;
pub use key::Key;
pub use laws::content_is_a_map;
pub use merging::merge;
pub use probe::{Probe, take_turns};
pub use sealed::{Row, Sealed};
pub use span::Span;
