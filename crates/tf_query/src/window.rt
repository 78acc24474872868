//! The part of time that a filter asks for.
ghost use Rattle.std.specs.Prelude.{◌≡◌};
ghost use Rattle.tf_journal.specs.Filter.{is_within};
ghost use Rattle.tf_query.specs.Matches.{direction_of};
ghost use Rattle.tf_query.specs.Windows.{account_window, query_window};

use tf_records::{AccountFilter, BATCH_MAX, QueryFilter};
use tf_scan::Direction;

/// So few timestamps mostly need one or two of the tables of a row, and no memory of their own: one part has them all.
pub const FEW: u32 = 32;

/// From when to when timestamps are asked for, in which direction, and how many at most.
#[derive(Clone, Copy)]
pub struct Window {
    pub direction: Direction,
    /// The least timestamp, 0 for no bound.
    pub low: u64,
    /// The greatest timestamp, 0 for no bound.
    pub high: u64,
    pub most: usize,
}

/// The direction in which a filter takes records.
fn direction_of(is_reversed: bool) -> Direction
    ensures { result ≡ direction_of is_reversed }
{
    if is_reversed {
        Direction::Falling
    } else {
        Direction::Rising
    }
}

impl Window {
    /// What a filter of an account's transfers asks for.
    pub fn of_account_filter(filter: &AccountFilter) -> Window
        ensures { result ≡ account_window filter.now }
    {
        Window {
            direction: direction_of(filter.flags & AccountFilter::REVERSED != 0),
            low: filter.timestamp_min,
            high: filter.timestamp_max,
            most: filter.limit.min(BATCH_MAX) as usize,
        }
    }

    /// What a filter of all records asks for.
    pub fn of_query_filter(filter: &QueryFilter) -> Window
        ensures { result ≡ query_window filter.now }
    {
        Window {
            direction: direction_of(filter.flags & QueryFilter::REVERSED != 0),
            low: filter.timestamp_min,
            high: filter.timestamp_max,
            most: filter.limit.min(BATCH_MAX) as usize,
        }
    }

    /// Whether most tables of a row will be read for it: it asks for many timestamps, of any time.
    pub fn reads_most_tables(&self) -> bool {
        self.most > FEW as usize && self.low == 0 && self.high == 0
    }

    /// Whether a timestamp is within the bounds.
    pub fn contains(&self, timestamp: u64) -> bool
        ensures { result ≡ is_within self.now.low self.now.high timestamp }
    {
        self.low <= timestamp && (self.high == 0 || timestamp <= self.high)
    }
}
