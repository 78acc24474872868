//! Trials of forests and of their versions, which answer as the plain ledger does: commands, merges, queries and look-ups, and
//! requests for memory that are refused.
//!
//! It knows no type that a forest is made of, but what a ledger does, and a trait with one call ([`Tried`]), so that it is proved
//! once, where that is cheap. For tests alone.
#![tactic(auto)]

mod alike;
mod asking;
mod calls;
mod counts;
mod journals;
mod ledgers;
mod look_ups;
mod many;
mod merges;
mod parts;
mod publishing;
mod questions;
mod refusals;
mod refused;
mod scripts;
mod stays;
mod trial;
mod tried;
mod worked;

pub use alike::are_commands_alike;
pub use asking::{Outcome, Rows, ask_plain, is_same_outcome};
pub use ledgers::run;
pub use many::{AtOnce, Taken, all_taken, take_for_queries};
pub use refused::{AMPLE, refused_in_turn};
pub use scripts::{commands_at, lists_of_commands};
pub use trial::{Course, Trial, try_out};
pub use tried::{Act, Answered, Asked, Call, Counted, Tried};
