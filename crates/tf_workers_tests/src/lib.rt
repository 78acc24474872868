//! Tests of workers by public calls alone: each kind of worker by itself, storms, gates at which workers meet, workers that are
//! refused memory, and a store in a lock that threads share. `tf_storm_trials` has the stores. There is no code here beside them.
#![tactic(auto)]

#[cfg(test)]
mod sharing;
#[cfg(test)]
mod storms;
