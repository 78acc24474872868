//! Tests of rows of counted tables, by public calls alone: memory that comes back with the last reference, pushes that are
//! refused, what installs answer, and many pushes in little memory. There is no code here beside them.
#![tactic(auto)]

#[cfg(test)]
mod fixture;
#[cfg(test)]
mod memory;
#[cfg(test)]
mod rows;
#[cfg(test)]
mod trials;
