//! Tests of scans by public calls alone: what no contract says, that memory suffices where it is there, how many tables are
//! searched, and that the definitions are the plain filter. There is no code here beside them.
#![tactic(auto)]

#[cfg(test)]
mod joins;
#[cfg(test)]
mod lists;
#[cfg(test)]
mod prefixes;
#[cfg(test)]
mod reading;
#[cfg(test)]
mod refusals;
#[cfg(test)]
mod rows;
#[cfg(test)]
mod taking;
