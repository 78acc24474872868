//! Tests of the store by public calls alone: receipts, shares, versions, publishes, merges, pulses, limits, readers, and every
//! request for memory refused in turn. A test is a text whose lines are run over a store and over the plain ledger, as
//! `tf_trials` says, by `tf_text_trials`. There is no code here beside them.
#![tactic(auto)]

#[cfg(test)]
mod limits;
#[cfg(test)]
mod merges;
#[cfg(test)]
mod readers;
#[cfg(test)]
mod receipts;
#[cfg(test)]
mod refusals;
#[cfg(test)]
mod soak;
#[cfg(test)]
mod texts;
#[cfg(test)]
mod versions;
