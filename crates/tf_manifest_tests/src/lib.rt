//! Tests of the manifest, by public calls alone: its kinds, runs that are installed once and under its limit, and a merge in another
//! thread. There is no code here beside them.
#![tactic(auto)]

#[cfg(test)]
mod kinds;
#[cfg(test)]
mod manifests;
