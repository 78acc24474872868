//! Workers in threads of their own, whatever they work on: clients, compactors and query workers round one queue of jobs.
//!
//! What a worker does once is a closure that its caller gives, so that nothing here knows what is stored, or under which lock it lies.
//! [`run_crew`] starts all of them in one scope and joins them; [`client_by`], [`compactor_by`] and [`query_worker_by`] are the
//! workers themselves.
#![tactic(auto)]

mod clients;
mod compactors;
mod crew;
mod ended;
mod faults;
mod gate;
mod join;
mod query_workers;
mod start;
mod threads;

pub use clients::client_by;
pub use compactors::compactor_by;
pub use crew::run_crew;
pub use ended::{Answered, Asked, Compacted, Done, Ended, Joined, Section, WantOfMemory};
pub use faults::StormFault;
pub use gate::{Gate, OpenGate};
pub use query_workers::query_worker_by;
