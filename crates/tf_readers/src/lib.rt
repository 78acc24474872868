//! What readers enter without a lock, and the readers: two copies of the version that was published last, each with the
//! history as far as it goes.
//!
//! Readers take no memory and wait for nobody. Of any two journals that readers of one store have seen, one begins the
//! other, whatever the schedule.
#![tactic(auto)]

mod asked;
mod copies;
mod publishable;
mod published;
mod reader;

pub use asked::{Asked, Found};
pub use copies::{Copies, open, show};
pub use publishable::{Publishable, Shows};
pub use published::Published;
pub use reader::Reader;
