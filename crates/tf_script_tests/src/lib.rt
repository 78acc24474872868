//! Tests of records and of the script language, by public calls alone: bytes, names, numbers and texts typed by hand. There is
//! no code here beside them.
#![tactic(auto)]

#[cfg(test)]
mod asserts;
#[cfg(test)]
mod records;
#[cfg(test)]
mod script;
#[cfg(test)]
mod tables;
