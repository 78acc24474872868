//! Keys of rows.
ghost use Rattle.std.specs.Prelude.{◌≡◌};
ghost use Rattle.std.specs.Ordering.{is_gt, is_lt};
ghost use Rattle.tf_table.specs.First.{lesser_key};
ghost use Rattle.tf_table.specs.Key.{key_cmp};

/// The key of a row: an indexed value, and the timestamp of the record that has it.
///
/// Keys are ordered by value, and then by timestamp.
#[derive(Clone, Copy, Debug, PartialEq, Eq, PartialOrd, Ord)]
pub struct Key {
    pub value: u128,
    pub timestamp: u64,
}

impl Key {
    /// No key is below this one.
    pub const LEAST: Key = Key {
        value: 0,
        timestamp: 0,
    };

    /// Whether this key is below another one, found without a branch: a search can't foretell the answer.
    #[inline]
    pub(crate) fn is_below(&self, other: &Key) -> bool
        ensures { result ≡ is_lt (key_cmp self.now other.now) }
    {
        (self.value < other.value)
            | ((self.value == other.value) & (self.timestamp < other.timestamp))
    }

    /// Whether this key is above another one, found in the same way.
    #[inline]
    pub(crate) fn is_above(&self, other: &Key) -> bool
        ensures { result ≡ is_gt (key_cmp self.now other.now) }
    {
        other.is_below(self)
    }

    /// The lesser of two keys, or the one that is there.
    #[inline]
    pub fn lesser(first: Option<Key>, second: Option<Key>) -> Option<Key>
        ensures { result ≡ lesser_key first second }
    {
        match (first, second) {
            (None, second) => second,
            (first, None) => first,
            (Some(first), Some(second)) => Some(first.min(second)),
        }
    }
}
