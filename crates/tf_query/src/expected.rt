//! Where the rows of a value are expected in the tables of a row, by what a query asks for.
//!
//! What is found there says what a table has: an expected place saves time, and no answer hangs on it.

use crate::window::Window;
use std::alloc::Allocator;
use tf_manifest::RowValue;
use tf_registry::{Naming, Tables};
use tf_scan::expected_places;

/// The places at which the rows of a value are expected in the tables of a row, each at the place of its table; none where
/// nothing is known.
#[derive(Clone, Copy)]
pub struct Expected {
    places: Option<[usize; 64]>,
}

impl Expected {
    /// By what a window asks for. Where most of the tables will be read for it, they are searched together, so that what the
    /// searches read comes from memory together. Else none is searched.
    #[inline]
    pub fn by<V: RowValue, A: Allocator, N: Naming>(
        window: &Window,
        tables: &Tables<V, A, N>,
        value: u128,
    ) -> Expected {
        let places = if window.reads_most_tables() {
            Some(expected_places(tables, value))
        } else {
            None
        };
        Expected { places }
    }

    /// The places in the first tables.
    #[inline]
    pub fn as_slice(&self) -> &[usize] {
        match &self.places {
            Some(places) => places,
            None => &[],
        }
    }
}
