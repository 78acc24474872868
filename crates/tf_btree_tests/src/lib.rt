//! Tests of the tree, by public calls alone. There is no code here beside them.
#![tactic(auto)]

#[cfg(test)]
mod asserts;
#[cfg(test)]
mod trees;
