//! Scans: timestamps in one direction, of leaves and of their unions and intersections.
#![tactic(auto)]

mod buffer;
mod buffered;
mod direction;
mod expected;
mod head;
mod leaf;
mod node;
mod operation;
mod place;
mod places;
mod posting_list;
mod prefix;
mod rows;
mod run;
mod scan;
mod turn;

pub use direction::Direction;
pub use expected::{ANYWHERE, expected_in, expected_places};
pub use leaf::Leaf;
pub use posting_list::PostingList;
pub use prefix::Prefix;
pub use scan::Scan;
