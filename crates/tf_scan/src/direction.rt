//! Directions.
ghost use Rattle.std.specs.Prelude.{◌≡◌, [], MatchOption};
ghost use Rattle.tf_scan.specs.Order as order;
ghost use Rattle.tf_scan.specs.Place.{is_past, IsTaken};

/// The order in which the timestamps of a scan come.
#[derive(Clone, Copy, Debug, PartialEq, Eq)]
pub enum Direction {
    /// The least timestamp comes first.
    Rising,
    /// The greatest timestamp comes first.
    Falling,
}

impl Direction {
    /// Whether the first timestamp comes before the second.
    #[inline]
    pub fn is_before(self, first: u64, second: u64) -> bool
        ensures { result ≡ order.is_before self first second }
    {
        match self {
            Direction::Rising => first < second,
            Direction::Falling => second < first,
        }
    }

    /// Whether the first timestamp comes before the second, or there is no second.
    #[inline]
    pub(crate) fn is_past(self, first: u64, second: Option<u64>) -> bool
        ensures { result ≡ is_past self first second }
    {
        match second {
            Some(second) => self.is_before(first, second),
            None => true,
        }
    }

    /// The one of these that comes first, and the others, where they stand by rising timestamp.
    #[inline]
    pub fn split_first<T>(self, items: &[T]) -> Option<(&T, &[T])>
        ensures { MatchOption result (items.now ≡ []) (λ split. IsTaken self split.0.now items.now split.1.now) }
    {
        match self {
            Direction::Rising => items.split_first(),
            Direction::Falling => items.split_last(),
        }
    }
}
