//! Two rows of numbers, of which the second is tried.
ghost use Rattle.std.specs.Prelude.{◌≡◌, ◌≤◌, length};
ghost use Rattle.std.specs.Arc.{arc_value};

use crate::tried::Tried;
use std::alloc::Allocator;
use std::sync::{Arc, Wait};
use tf_manifest::KindRows;
use tf_records::Refusal;
use tf_registry::{Held, Job, Merged, Naming, Pushes, Registry};
use tf_row_trials::{Outcome, Subject, keep, keep_found, key, outcome_of, push, table};

/// Two rows, how many tables were pushed for them, and how many may be.
#[derive(Drop)]
pub struct Numbers<A: Allocator, N: Naming> {
    rows: KindRows<u64, A, N>,
    pushes: Pushes,
    limit: u32,
    ghost two: { length rows ≡ 2 },
}

impl<A: Allocator + Clone + Copy, N: Naming> Numbers<A, N> {
    /// Rows without tables, for which no more than this limit may be pushed.
    pub fn new(
        registry: &Arc<Registry<u64, A>, A>,
        limit: u32,
        alloc: A,
    ) -> Result<Numbers<A, N>, Refusal>
        requires here { arc_value registry.now ≡ N.shelf 0 }
        requires limit { limit ≤ 1048576 }
    {
        let rows = KindRows::new(registry, 2, alloc)?;
        let pushes = Pushes::new(limit);
        Ok(Numbers {
            rows,
            pushes,
            limit,
        })
    }

    /// A table with one row, to be put in front of those of the second row.
    fn sealed(&self, alloc: A, number: u64, entry: Option<u64>) -> Result<Held<u64, A>, Refusal> {
        table(alloc, number, entry, self.rows.row(1).is_empty())
    }

    /// Pushes a table, and puts it in front of those of the second row. It is handed back where there is no room for it.
    fn gain<R: Wait>(&mut self, rt: &R, table: Held<u64, A>) -> Result<(), Held<u64, A>> {
        let pushed = push(rt, &self.rows, 1, &mut self.pushes, table)?;
        self.rows.add(1, pushed);
        Ok(())
    }

    /// Whether the content of the second row has exactly the numbers below `numbers`, each with itself as its value.
    fn has_numbers(&self, numbers: u64) -> bool {
        for number in 0..numbers {
            if self.find(number) != Some(number) {
                return false;
            }
        }
        self.find(numbers).is_none()
    }

    /// The value of a number in the content of the second row.
    fn find(&self, number: u64) -> Option<u64> {
        self.rows.row(1).find(&key(number)).copied()
    }
}

impl<A: Allocator + Clone + Copy, N: Naming> Subject<A> for Numbers<A, N> {
    type Job = Job<u64, A, N>;

    type Merged = Merged<u64, A, N>;

    fn grow<R: Wait>(&mut self, rt: &R, alloc: A, number: u64, entry: Option<u64>) -> bool {
        match self.sealed(alloc, number, entry) {
            Ok(table) => self.gain(rt, table).is_ok(),
            Err(_) => false,
        }
    }

    fn next_run(&self, place: &mut Option<Job<u64, A, N>>) {
        keep_found(self.rows.row(1).pick(), place);
    }

    fn put_in_place<R: Wait>(
        &mut self,
        rt: &R,
        place: &mut Option<Merged<u64, A, N>>,
    ) -> Option<Outcome> {
        let out = place.take()?;
        let answer = self.rows.install(rt, 1, &mut self.pushes, out);
        Some(outcome_of(answer, place))
    }

    fn copy(&self, alloc: A, place: &mut Option<Self>) {
        if let Ok(rows) = self.rows.again(alloc) {
            let (pushes, limit) = (self.pushes, self.limit);
            *place = Some(Numbers {
                rows,
                pushes,
                limit,
            });
        }
    }

    fn value(&self, number: u64) -> Option<Option<u64>> {
        match self.rows.row(1).entry(&key(number)) {
            Some(entry) => Some(entry.copied()),
            None => None,
        }
    }

    fn looks(&self, tables: u32, numbers: u64, pushed: u32) -> bool {
        self.rows.references(1) == tables
            && self.rows.references(0) == 0
            && self.pushes.count() == pushed
            && self.pushes.limit() == self.limit
            && self.has_numbers(numbers)
    }
}

impl<A: Allocator + Clone + Copy, N: Naming> Tried<A> for Numbers<A, N> {
    type Table = Held<u64, A>;

    fn table(
        &self,
        alloc: A,
        number: u64,
        place: &mut Option<Held<u64, A>>,
    ) -> Result<(), Refusal> {
        keep(self.sealed(alloc, number, Some(number)), place)
    }

    fn has(table: &Held<u64, A>, number: u64) -> bool {
        matches!(table.table().find(&key(number)), Some(Some(_)))
    }

    fn put<R: Wait>(&mut self, rt: &R, place: &mut Option<Held<u64, A>>) -> bool {
        let Some(table) = place.take() else {
            return false;
        };
        match self.gain(rt, table) {
            Ok(()) => true,
            Err(back) => {
                *place = Some(back);
                false
            }
        }
    }

    fn entries(merged: &Merged<u64, A, N>) -> usize {
        merged.entries()
    }

    fn newest(&self) -> u128 {
        match self.rows.row(1).references().first() {
            Some(newest) => newest.number(),
            None => 0,
        }
    }
}
