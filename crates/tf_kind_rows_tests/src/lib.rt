//! Tests of rows of one kind, by public calls alone: each call on its happy path, each refusal, want of memory among them, and a
//! merge in another thread. There is no code here beside them.
#![tactic(auto)]

#[cfg(test)]
mod installs;
#[cfg(test)]
mod refusals;
#[cfg(test)]
mod rows;
#[cfg(test)]
mod tried;
