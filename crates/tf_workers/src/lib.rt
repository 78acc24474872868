//! Workers round the lock of a store: clients that store, compactors that merge, and query workers that take no lock.
//!
//! A store lies in a [`Mutex`](std::sync::Mutex), as a [`SharedStore`]. A [`client`] runs batches under the lock, publishes in the
//! critical section of each, and offers what is to be merged to a queue. A [`compactor`] takes jobs from the queue, merges them
//! outside the lock, and installs what it merged under it. A [`query_worker`] has a reader and takes no lock. [`storm`] runs all of
//! them in threads of their own and joins them: what the clients counted together is what is stored.
#![tactic(auto)]

mod books;
mod by_lock;
mod clients;
mod compactors;
mod desk;
mod sections;
mod shared;
mod storms;
mod work;

pub use clients::client;
pub use compactors::compactor;
pub use shared::SharedStore;
pub use storms::{Totals, storm, storm_shared};
pub use tf_asking::{Ask, VersionReader, query_worker};
pub use tf_crew::{Asked, Compacted, Done, Ended, Gate, OpenGate, StormFault};
pub use tf_jobs::{JobQueue, JobSeat, Reckoning, reckon};
pub use work::Work;
