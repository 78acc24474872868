//! The mutable tables of the 21 rows. A row that is looked up or changed before it is sealed lies in a hash table where the ledger
//! itself gives its keys, timestamps, which nobody can make collide, and else in a tree. Each other has a log, but for the indexes
//! of transfers, which are read off the log of transfers. They are made where a store is opened; what stores, seals and undoes knows
//! them by what [`tf_rows::MutableRows`] says.
#![tactic(auto)]

mod entry;
mod hashed;
mod held;
mod index_words;
mod mutable_tables;
mod places;
mod rising;
mod transfers;

pub use mutable_tables::MutableTables;
