//! Prefixes of a row.
ghost use Rattle.std.specs.Prelude.{◌≡◌, ℕ, is_some};
ghost use Rattle.tf_registry.specs.Row.{content_at};
ghost use Rattle.tf_manifest.specs.Rows.{key_of};
ghost use Rattle.tf_scan.specs.Order.{IsInOrder};
ghost use Rattle.tf_scan.specs.Sets.{is_among};

use crate::expected::expected_in;
use crate::place::Place;
use crate::turn::Turn;
use crate::{Direction, Leaf, places};
use arrayvec::ArrayVec;
use std::alloc::Allocator;
use std::marker::Model;
use tf_manifest::RowValue;
use tf_registry::{Naming, Tables};

/// The timestamps under one value in a row: those t for which the content of the row's sealed tables has something at
/// the key of the value and t.
///
/// A contract sees it as its direction and the timestamps that are still to come. For each of the tables, at most 64, it
/// has a place in itself, so it takes no memory and has some 2,100 bytes; a scan keeps it in a box. A table is searched only
/// once its span of timestamps begins at the nearest one: of tables that follow each other in time, a few timestamps search
/// one or two.
#[derive(Drop)]
pub struct Prefix<'r, V, A: Allocator> {
    direction: Direction,
    value: u128,
    pub(crate) places: ArrayVec<Place<'r, V, A>, 64>,
    turn: Turn,
}

impl<'r, V, A: Allocator> Model for Prefix<'r, V, A> {
    ghost use Rattle.std.specs.List.{AllByRecursion};
    ghost use Rattle.tf_scan.specs.Sequence.{Sequence};

    ghost Value = { Sequence };

    ghost use Rattle.tf_scan.specs.Prefix.{prefix_of};
    ghost use Rattle.tf_scan.specs.Place.{lists_left, IsPlace};
    ghost use Rattle.tf_scan.specs.Turn.{IsTurn};

    ghost view = { λ p. record { direction = p.direction; left = prefix_of p.direction p.value (lists_left p.direction p.value p.places.items) } };

    ghost invariant = { λ p. AllByRecursion (IsPlace p.direction p.value) p.places.items × IsTurn p.direction p.turn p.places.items };
}

impl<'r, V: RowValue, A: Allocator> Prefix<'r, V, A> {
    /// The prefix of a value in the content of these tables. It takes no memory, and looks at the span of each table.
    pub fn new<N: Naming>(
        tables: &'r Tables<V, A, N>,
        value: u128,
        direction: Direction,
    ) -> Prefix<'r, V, A>
        ensures direction { result.direction ≡ direction }
        // What is left is the list in order of the timestamps at which the content has something.
        ensures in_order { IsInOrder direction result.left }
        ensures members { (t : ℕ) → is_among t result.left ≡ is_some (content_at (key_of value t) tables.now) }
    {
        Prefix::expecting(tables, value, direction, &[])
    }

    /// The same, where the first row of the value is expected at these places in the first tables, and anywhere in the others.
    ///
    /// A table that is read is searched from its place on, ever further, which takes a few comparisons where the value stands
    /// there. Where most of the tables will be read, `expected_places` tells the places of all of them.
    pub fn expecting<N: Naming>(
        tables: &'r Tables<V, A, N>,
        value: u128,
        direction: Direction,
        expected: &[usize],
    ) -> Prefix<'r, V, A>
        ensures direction { result.direction ≡ direction }
        // What is left is the list in order of the timestamps at which the content has something.
        ensures in_order { IsInOrder direction result.left }
        ensures members { (t : ℕ) → is_among t result.left ≡ is_some (content_at (key_of value t) tables.now) }
    {
        let mut places = ArrayVec::new();
        for reference in tables.references() {
            let place = expected_in(expected, places.len());
            places.push(Place::new(direction, reference.table().table(), place));
        }
        let turn = Turn::of(direction, places.as_slice());
        Prefix {
            direction,
            value,
            places,
            turn,
        }
    }

    /// How many of its tables weren't searched yet, and may have something. Any answer is right: it tells what the prefix costs.
    pub fn unsearched(&self) -> usize {
        let places = self.places.as_slice();
        places
            .iter()
            .filter(|place| matches!(place, Place::Closed(..)))
            .count()
    }
}

impl<'r, V, A: Allocator> Leaf for Prefix<'r, V, A> {
    ghost left = { λ p. p.left };

    ghost direction = { λ p. p.direction };

    fn direction(&self) -> Direction {
        self.direction
    }

    /// As long as the timestamps of one table come before those of all others, it looks at that one's place alone. Then
    /// it goes over the places once, and where several tables have the timestamp, twice more. Of the tables it reads
    /// those alone whose nearest timestamp this is.
    fn next(&mut self) -> Option<u64> {
        places::next(
            self.direction,
            self.value,
            self.places.as_mut_slice(),
            &mut self.turn,
        )
    }

    /// It looks at one place where no other has timestamps before this one, and else goes over the places twice. A table
    /// that wasn't searched yet isn't read, and in each other one the number of keys that it looks at grows with the
    /// logarithm of the rows that it passes over.
    fn seek(&mut self, timestamp: u64) {
        places::seek(
            self.direction,
            self.value,
            self.places.as_mut_slice(),
            &mut self.turn,
            timestamp,
        );
    }

    /// As long as the timestamps of one table come before those of all others, it goes over that one's rows alone, and
    /// over their keys alone where they have one value, which is stored once. Then it goes over the places as `next`
    /// does.
    fn take_into(&mut self, out: &mut [u64]) -> usize {
        places::take_into(
            self.direction,
            self.value,
            self.places.as_mut_slice(),
            &mut self.turn,
            out,
        )
    }

    /// The first timestamp, as `next` finds it, and what the same table's place alone has behind it.
    fn take_some(&mut self, out: &mut [u64]) -> usize {
        if out.is_empty() {
            return 0;
        }
        places::take_some(
            self.direction,
            self.value,
            self.places.as_mut_slice(),
            &mut self.turn,
            out,
            0,
        )
    }
}
