//! Empty stores, each on a heap of its own, on which texts of `tf_trials` are run, and which are ended. Whoever calls it has no part
//! of a store, so that no test spells one out. For tests alone.
#![tactic(auto)]

mod ending;
mod fixture;
mod opening;
mod ran;
mod running;

pub use fixture::Fixture;
pub use opening::try_text;
pub use ran::Ran;
