//! The store: what lies under the lock, with the shares and receipts that are of it.
#![tactic(auto)]

mod assembly;
mod batches;
mod bring_up;
mod compaction;
mod copies;
mod events;
mod facts;
mod gathering;
mod names;
mod opening;
mod public;
mod publishing;
mod queue;
mod receipt;
mod run;
mod share;
mod store;
mod tally;

pub use copies::{StoredCopies, VersionCopies, VersionOf};
pub use events::Events;
pub use names::{BlankStore, StoreName};
pub use opening::NewStore;
pub use receipt::Receipt;
pub use share::Share;
pub use store::{Store, StoreOf, StoredForest};
