//! Lists of timestamps, and leaves over them.
ghost use Rattle.std.specs.Prelude.{◌≡◌, IfOk};

use std::alloc::{AllocError, Allocator};
use std::test::Fail;
use tf_scan::{Direction, PostingList};

/// Both directions.
pub const DIRECTIONS: [Direction; 2] = [Direction::Rising, Direction::Falling];

/// The first multiples of a number, 0 among them.
#[derive(Clone, Copy)]
pub struct Multiples {
    pub of: u64,
    pub count: u64,
}

impl Multiples {
    /// Whether a timestamp is one of them.
    pub fn has(self, timestamp: u64) -> bool {
        timestamp.checked_rem(self.of) == Some(0)
            && timestamp
                .checked_div(self.of)
                .is_some_and(|place| place < self.count)
    }

    /// The first timestamp above all of them, or a greater one.
    pub fn end(self) -> u64 {
        self.of.saturating_mul(self.count)
    }
}

/// All of them in a direction.
pub fn list_of<A: Allocator>(
    alloc: A,
    direction: Direction,
    multiples: Multiples,
) -> Result<Vec<u64, A>, AllocError> {
    let mut list = Vec::new(alloc);
    for place in 0..multiples.count {
        let multiple = multiples.of.saturating_mul(match direction {
            Direction::Rising => place,
            Direction::Falling => multiples.count - 1 - place,
        });
        list.push(multiple)?;
    }
    Ok(list)
}

/// The first multiples of a number, in rising order.
pub fn rising_of<A: Allocator>(alloc: A, of: u64, count: u64) -> Result<Vec<u64, A>, AllocError> {
    list_of(alloc, Direction::Rising, Multiples { of, count })
}

/// A leaf of the timestamps in a list.
pub fn leaf_of(direction: Direction, list: &[u64]) -> Result<PostingList<'_>, Fail>
    ensures { IfOk result (λ leaf. leaf.direction ≡ direction) }
{
    Ok(PostingList::new(direction, list).ok_or("out of order")?)
}
