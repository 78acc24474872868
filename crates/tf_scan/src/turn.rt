//! Whose turn it is among the tables of a row.
ghost use Rattle.std.specs.Prelude.{◌≡◌};
ghost use Rattle.tf_scan.specs.Place.{is_past, nearest_of, nearer};
ghost use Rattle.tf_scan.specs.Turn.{nearest_at, IsTurn};

use crate::Direction;
use crate::place::Place;
use std::alloc::Allocator;

/// A place, and how long it alone has the next timestamp.
#[derive(Clone, Copy)]
pub(crate) struct Turn {
    pub(crate) place: usize,
    /// The nearest timestamp of all other places, None where each is at its end.
    pub(crate) until: Option<u64>,
}

impl Turn {
    /// Whether the timestamp comes before those of all other places.
    #[inline]
    pub(crate) fn has(self, direction: Direction, timestamp: u64) -> bool
        ensures { result ≡ is_past direction timestamp self.until }
    {
        direction.is_past(timestamp, self.until)
    }

    /// The turn of a place with the nearest timestamp. It goes over the places once.
    pub(crate) fn of<V, A: Allocator>(direction: Direction, places: &[Place<'_, V, A>]) -> Turn
        ensures { IsTurn direction result places.now }
    {
        let mut turn = Turn {
            place: places.len(),
            until: None,
        };
        let mut found = None;
        let mut rest = places.len();
        while rest > 0 {
            rest -= 1;
            let nearest = places[rest].nearest(direction);
            if comes_first(direction, nearest, found) {
                turn = Turn {
                    place: rest,
                    until: nearer_of(direction, found, turn.until),
                };
                found = nearest;
            } else {
                turn.until = nearer_of(direction, nearest, turn.until);
            }
        }
        turn
    }

    /// The nearest timestamp of all places.
    #[inline]
    pub(crate) fn nearest<V, A: Allocator>(
        self,
        direction: Direction,
        places: &[Place<'_, V, A>],
    ) -> Option<u64>
        requires { IsTurn direction self places.now }
        ensures { result ≡ nearest_of direction places.now }
    {
        nearer_of(
            direction,
            nearest_of_place(direction, places, self.place),
            self.until,
        )
    }
}

/// The nearest timestamp of one of the places, if there is such a place.
#[inline]
fn nearest_of_place<V, A: Allocator>(
    direction: Direction,
    places: &[Place<'_, V, A>],
    place: usize,
) -> Option<u64>
    ensures { result ≡ nearest_at direction place places.now }
{
    if place < places.len() {
        places[place].nearest(direction)
    } else {
        None
    }
}

/// Of two timestamps the one that comes first.
#[inline]
fn nearer_of(direction: Direction, first: Option<u64>, second: Option<u64>) -> Option<u64>
    ensures { result ≡ nearer direction first second }
{
    match (first, second) {
        (None, second) => second,
        (first, None) => first,
        (Some(t), Some(u)) => Some(if direction.is_before(u, t) { u } else { t }),
    }
}

/// Whether the first timestamp comes before the second.
#[inline]
fn comes_first(direction: Direction, first: Option<u64>, second: Option<u64>) -> bool {
    match (first, second) {
        (Some(t), Some(u)) => direction.is_before(t, u),
        (Some(_), None) => true,
        (None, _) => false,
    }
}
