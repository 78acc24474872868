//! Rows whose mutable tables are sealed, put in front of the sealed tables of a manifest, and counted.
#![tactic(auto)]

mod counted;
mod in_front;
mod published;
mod publishing;
mod pushing;
mod rows;

pub use published::{Prepared, Published};
pub use publishing::{has_room, prepare_rows};
pub use rows::Rows;
