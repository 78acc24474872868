//! Scripts over the store: each query is answered by a version of sealed tables.
//!
//! [`run_script`] makes registries and a store with one share, and runs a script's commands by it.
#![tactic(auto)]

mod script;

pub use script::run_script;
