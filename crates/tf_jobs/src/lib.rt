//! A bounded queue of jobs between threads, whose seats know what they offered and took.
//!
//! Whatever threads do, each job that was offered was taken or is left, together as often as it was offered, and no other job was
//! taken: [`reckon`] says so of all seats of a queue.
#![tactic(auto)]

mod known;
mod queue;
mod reckoning;
mod rule;
mod seat;

pub use known::Known;
pub use queue::JobQueue;
pub use reckoning::{Reckoning, reckon};
pub use seat::JobSeat;
