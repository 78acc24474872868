//! Boxed B-trees under any allocator, seen by contracts as the list of their rows in key order.
#![tactic(auto)]

mod back_cursor;
mod cursor;
mod node;
mod run;
mod search;
mod tree;

pub use back_cursor::BackCursor;
pub use cursor::Cursor;
pub use tree::Tree;
