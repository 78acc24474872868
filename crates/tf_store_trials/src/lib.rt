//! A store as trials call it ([`Tested`]), which answers as `tf_trials` asks, and versions beside the plain ledger. It makes no
//! store. For tests alone.
#![tactic(auto)]

mod alike;
mod answers;
mod calls;
mod seen;
mod tested;

pub use seen::{ID, sees, stores};
pub use tested::{Parties, Tested, answers_held, answers_of};
