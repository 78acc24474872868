//! Tests of crews by public calls alone. There is no code here beside them.
#![tactic(auto)]

#[cfg(test)]
mod crews;
