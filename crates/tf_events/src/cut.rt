//! Where a chain of events ends.

ghost use Rattle.std.specs.Prelude.{◌≡◌, ◌+◌, length};
ghost use Rattle.tf_events.specs.Walk.{chain_length};

use crate::event::Event;

/// How many of these events their first chain has: those up to the first that isn't linked, or all.
pub fn chain_len<E: Event>(events: &[E]) -> usize
    ensures { result ≡ chain_length E.kind events.now }
{
    for (i, event) in events.iter().enumerate() {
        if !event.is_linked() {
            return i + 1;
        }
    }
    events.len()
}
