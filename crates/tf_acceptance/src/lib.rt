//! Tests that cross crates: random scripts over a store and over the plain ledger, the largest batches, and how runs end. There
//! is no code here beside them.
#![tactic(auto)]

#[cfg(test)]
mod asserts;
#[cfg(test)]
mod endings;
#[cfg(test)]
mod memory;
#[cfg(test)]
mod scripts;
#[cfg(test)]
mod sizes;
#[cfg(test)]
mod spelling;
