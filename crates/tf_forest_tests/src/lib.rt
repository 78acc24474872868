//! Tests of forests and of their versions by public calls: both answer as the plain ledger does, also where memory is refused. What
//! is done with them, and what they have to answer, say `tf_forest_trials` and `tf_version_trials`. There is no code here beside them.
#![tactic(auto)]

#[cfg(test)]
mod forest;
#[cfg(test)]
mod versions;
