//! Forests and their versions, as `tf_forest_trials` tries them: empty forests over registries, each tried and let go.
//!
//! It is generic in all that a forest is made of, and ends what it makes, so that a test which calls it has no part of a forest to
//! let go, and its proof spells none out. For tests alone.
#![tactic(auto)]

mod asking;
mod resting;
mod taken;
mod tried;
mod turns;

pub use taken::{TakenVersion, are_answered, let_go, take_version};
pub use turns::try_each;
