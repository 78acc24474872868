//! Empty stores on which workers are tried, all at once or one after another, and which are ended. Whoever calls it has no part of a
//! store, so that no test spells one out. For tests alone.
#![tactic(auto)]

mod opening;

pub use opening::try_out;
