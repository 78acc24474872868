//! The span of a table: its earliest and its latest timestamp.
ghost use Rattle.std.specs.Prelude.{◌≡◌, map, min, max};
ghost use Rattle.tf_table.specs.Span.{HasSpan};

use crate::Key;

/// The earliest and the latest timestamp of some rows. The timestamp of a row is that of its key.
#[derive(Clone, Copy, Debug, PartialEq, Eq)]
pub struct Span {
    pub earliest: u64,
    pub latest: u64,
}

impl Span {
    /// The span with a timestamp more.
    #[inline]
    fn with(self, timestamp: u64) -> Span
        ensures earliest { result.earliest ≡ min self.earliest timestamp }
        ensures latest { result.latest ≡ max self.latest timestamp }
    {
        Span {
            earliest: self.earliest.min(timestamp),
            latest: self.latest.max(timestamp),
        }
    }
}

/// The span of the rows with these keys. It goes over them once.
pub(crate) fn span_of(keys: &[Key]) -> Option<Span>
    ensures { HasSpan result (map (λ key. key.timestamp) keys.now) }
{
    let mut span = match keys.first() {
        Some(key) => Span {
            earliest: key.timestamp,
            latest: key.timestamp,
        },
        None => return None,
    };
    for key in keys {
        span = span.with(key.timestamp);
    }
    Some(span)
}
