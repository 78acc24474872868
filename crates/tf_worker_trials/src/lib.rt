//! Workers all at once or one after another at a store, which they end, by what `tf_task_trials` gives them to do. It makes no store.
//! For tests alone.
#![tactic(auto)]

mod calls;
mod lock;
mod new_store;
mod receipts;
mod trials;
mod turns;

pub use new_store::try_on;
pub use tf_task_trials::{
    CountingGate, Meetings, Tasks, WatchedReader, one_client, random_tasks, storm_of,
};
pub use trials::{Trial, Tried};
pub use turns::{Merges, Turns};
