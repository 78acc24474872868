//! The sealed tables of the 21 rows of a journal: what each row has, and the manifest of references to its tables.
//!
//! A manifest owns its tables together with all who refer to them: a table's rows are given back with the last reference.
#![tactic(auto)]

mod choosing;
mod four;
mod jobs;
mod kind;
mod kind_rows;
mod kinds;
mod laws;
mod making;
mod manifest;
mod merging;
mod registries;
mod row;
mod value;

pub use jobs::{Job, Merged};
pub use kind::{Kind, StampRow, UnitRow};
pub use kind_rows::KindRows;
pub use kinds::{RowValue, Stored};
pub use laws::{
    manifest_shows_one_journal, rows_are_maps, rows_show_one_journal, rows_spell_their_journal,
};
pub use manifest::Manifest;
pub use registries::Registries;
pub use row::{Row, rows_are_these};
pub use value::{IdStamp, State, Value};
