//! Trials of a store, told by texts: lines that say what is done with it and what it answers. One driver runs them over whatever
//! makes a store's calls ([`Tried`]) and over the plain ledger beside it. [`run_text`] says what a line is.
//!
//! It knows no type that a store is made of, so that it is proved once, where that is cheap. For tests alone.
#![tactic(auto)]

mod asks;
mod attempts;
mod batches;
mod calls;
mod clients;
mod dice;
mod events;
mod lines;
mod lists;
mod memory;
mod outcomes;
mod parts;
mod plain;
pub mod random;
mod room;
mod settings;
mod soak;
mod trial;
mod tried;
mod twin;
mod words;

pub use clients::{
    Commands, bare_account, random_scripts, stored_by, that_meet, transfers_between_two,
};
pub use dice::Dice;
pub use lines::{Stopped, run_text};
pub use memory::{AMPLE, Taken, has_room, take_all_but};
pub use outcomes::{acted, done, found, keep, keep_given, last_of, let_go};
pub use plain::{Answer, Outcome, Plain, batch_outcome, is_same, pulse_outcome};
pub use room::{Growth, Room};
pub use trial::{Noted, Outlives, Trial};
pub use tried::{Act, Acted, Answered, Call, Counted, ROWS, Tally, Told, Tried, Whom};
pub use twin::Twin;
pub use words::Numbers;
