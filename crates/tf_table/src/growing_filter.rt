//! A filter that grows, of which the values are put one by one.
ghost use Rattle.std.specs.Prelude.{◌≡◌, ◌<◌, ℕ, length, true, OnOk, OnErr, IfOk};
ghost use Rattle.tf_table.specs.Filter.{Holds};
ghost use Rattle.tf_table.specs.GrowingFilter.{HasPut, Knows};

use crate::filter::{filter_words_of, may_hold, put};
use std::alloc::{AllocError, Allocator};
use std::marker::Model;
use std::mem;

/// How many values the first part is made for.
const FIRST_PART: usize = 256;

/// Which values were put, by a few bits of each: a value that was put is known, and of those that weren't some one in 70 is
/// where values are random, and one in 170 where they rise, among a million.
///
/// It lies in parts, each made for four times as many values as the one before it, with some 21 bits for each: of a million
/// values there are seven. So nothing is put anew where it grows, and nothing is moved. No value is taken out. Contracts see the
/// words of each part.
#[derive(Drop)]
pub struct GrowingFilter<A: Allocator> {
    newest: Vec<u64, A>,
    /// How many values the newest part is made for.
    size: usize,
    /// How many more of them it takes.
    room: usize,
    older: Vec<Vec<u64, A>, A>,
}

impl<A: Allocator> Model for GrowingFilter<A> {
    ghost use Rattle.std.specs.Prelude.{ℕ, List, ◌∷◌, ◌<◌, map, length};

    ghost Value = { List (List ℕ) };

    ghost view = { λ f. f.newest.items ∷ map (λ part. part.items) f.older.items };

    ghost invariant = { λ f. 0 < f.room → 0 < length f.newest.items };
}

/// The words of a part for so many values, none of which is put.
fn part_for<A: Allocator>(alloc: A, values: usize) -> Result<Vec<u64, A>, AllocError>
    ensures { IfOk result (λ part. 0 < length part.items) }
{
    Vec::from_elem(alloc, 0, filter_words_of(values.saturating_mul(2)))
}

/// Puts a value into a part.
#[inline]
fn put_into<A: Allocator>(part: &mut Vec<u64, A>, value: u128)
    ensures value { Holds part.new.items (length part.new.items) value }
    ensures others { (other : ℕ) → HasPut part.old.items other → HasPut part.new.items other }
    ensures length { length part.new.items ≡ length part.old.items }
{
    let count = part.len();
    put(part, count, value);
}

/// Whether a part has a value. It reads one word.
#[inline]
fn has_put<A: Allocator>(part: &Vec<u64, A>, value: u128) -> bool
    ensures has { HasPut part.now.items value → result ≡ true }
    ensures only { result ≡ true → HasPut part.now.items value }
{
    !part.is_empty() && may_hold(part, part.len(), value)
}

impl<A: Allocator + Copy> GrowingFilter<A> {
    /// No value. It takes no memory.
    pub fn new(alloc: A) -> GrowingFilter<A>
        ensures { (value : ℕ) → Knows result value → ⊥ }
    {
        GrowingFilter {
            newest: Vec::new(alloc),
            size: 0,
            room: 0,
            older: Vec::new(alloc),
        }
    }

    /// Whether the value is known: by one word of each part.
    #[inline]
    pub fn knows(&self, value: u128) -> bool
        ensures has { Knows self.now value → result ≡ true }
        ensures only { result ≡ true → Knows self.now value }
    {
        if has_put(&self.newest, value) {
            return true;
        }
        for words in self.older.iter() {
            if has_put(words, value) {
                return true;
            }
        }
        false
    }

    /// Puts a value: into one word, and where the newest part has no room left into one of four times its size, which is set to 0.
    ///
    /// A refusal leaves all as it was.
    #[inline]
    pub fn put(&mut self, value: u128) -> Result<(), AllocError>
        ensures known { OnOk result (Knows self.new value) }
        ensures others { (other : ℕ) → Knows self.old other → Knows self.new other }
        ensures err { OnErr result (self.new ≡ self.old) }
    {
        if self.room == 0 {
            let size = self.size.saturating_mul(4).max(FIRST_PART);
            let part = part_for(*self.older.allocator(), size)?;
            self.older.reserve(1)?;
            let full = mem::replace(&mut self.newest, part);
            self.older.push_reserved(full);
            self.size = size;
            self.room = size;
        }
        self.room -= 1;
        put_into(&mut self.newest, value);
        Ok(())
    }
}
