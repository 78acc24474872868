//! Rows of sealed tables: the registry that they are pushed into, counted references to them, and merges of their runs.
//!
//! A row keeps its tables newest first. The newest table that has a key decides, and a tombstone says that the key is
//! absent. The registry keeps a short description of each table for good, and under one number no other table is ever
//! shown; a table itself is given back with the last reference to it.
#![tactic(auto)]

mod body;
mod description;
mod install;
mod job;
mod naming;
mod picking;
mod place;
mod pushes;
mod reference;
mod registry;
mod tables;
mod uninstalled;

pub use body::{Body, Held};
pub use description::Description;
pub use job::{Job, Merged};
pub use naming::{Naming, TableValue};
pub use pushes::Pushes;
pub use reference::{Name, TableRef};
pub use registry::Registry;
pub use tables::Tables;
pub use uninstalled::{RowUninstalled, Uninstalled};
