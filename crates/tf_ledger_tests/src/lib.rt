//! Tests of the journal, of pending transfers and of batches, by public calls alone. There is no code here beside them. What
//! a script can ask is asked by worked scripts instead.
//!
//! Most are texts: scripts, and lines that ask of the ledger that they leave. [`asked`] says what a line is.
#![tactic(auto)]

#[cfg(test)]
mod asked;
#[cfg(test)]
mod entries;
#[cfg(test)]
mod events;
#[cfg(test)]
mod filters;
#[cfg(test)]
mod ledgers;
#[cfg(test)]
mod memory;
#[cfg(test)]
mod pending;
#[cfg(test)]
mod queries;
#[cfg(test)]
mod state;
#[cfg(test)]
mod tables;
#[cfg(test)]
mod verdicts;
