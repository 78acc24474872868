//! The history of what was published: a journal that only grows, by one chunk of entries for each publication.
//!
//! It exists in proofs alone. What runs is how many publications and entries there are. A front says that the history has
//! come so far, so of any two fronts one begins the other, whatever the schedule. The writer has the whole history.
#![tactic(auto)]

mod adding;
mod beginning;
mod front;
mod law;
mod name;
mod opened;
mod writer;

pub use beginning::Beginning;
pub use front::Front;
pub use name::HistoryName;
pub use opened::Opened;
pub use writer::Writer;
