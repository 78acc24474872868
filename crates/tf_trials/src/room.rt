//! The heap on which a store lies, and what a trial takes of it.

use crate::memory::{AMPLE, Taken, take_all_but, take_all_but_holes};
use linked_list_allocator::LocalHeap;
use std::alloc::{AllocError, Global};

/// How the room for a call grows while it is refused.
#[derive(Clone, Copy)]
pub struct Growth {
    /// Bytes by which it grows, or 0 where the call isn't tried again.
    pub step: usize,
    /// Bytes at first.
    pub first: usize,
    /// How often a call is refused at least.
    pub refusals: usize,
}

impl Growth {
    /// A call is tried once, and has all of the heap that isn't taken.
    const NONE: Growth = Growth {
        step: 0,
        first: 0,
        refusals: 0,
    };

    /// How often a call is tried.
    pub fn tries(self) -> usize {
        if self.step == 0 { 1 } else { AMPLE / self.step }
    }

    /// Bytes for a call that was refused so often.
    fn after(self, refused: usize) -> usize {
        refused.saturating_mul(self.step).saturating_add(self.first)
    }
}

/// A heap, and what is taken of it.
#[derive(Drop)]
pub struct Room<'h> {
    pub heap: &'h LocalHeap,
    taken: Taken<'h>,
    pub growth: Growth,
}

impl<'h> Room<'h> {
    /// All of a heap is free.
    pub fn new(alloc: Global, heap: &'h LocalHeap) -> Room<'h> {
        Room {
            heap,
            taken: Vec::new(alloc),
            growth: Growth::NONE,
        }
    }

    /// Takes all of the heap but so many bytes.
    pub fn fill(&mut self, room: usize) -> Result<(), AllocError> {
        take_all_but(&mut self.taken, self.heap, room)
    }

    /// Takes all of the heap but holes that are no greater than so many bytes.
    pub fn fill_but_holes(&mut self, alloc: Global, size: usize) -> Result<(), AllocError> {
        take_all_but_holes(&mut self.taken, self.heap, alloc, size)
    }

    /// Gives the heap back.
    pub fn free(&mut self) {
        self.taken.clear();
    }

    /// Takes all of the heap but the room for a call that was refused so often, if calls are tried again.
    pub fn limit(&mut self, refused: usize) -> Result<(), AllocError> {
        let growth = self.growth;
        if growth.step == 0 {
            return Ok(());
        }
        self.fill(growth.after(refused))
    }

    /// Gives the heap back, if calls are tried again.
    pub fn end_limit(&mut self) {
        if self.growth.step != 0 {
            self.taken.clear();
        }
    }
}
