//! What a trial knows beside its store.

use crate::room::Room;
use crate::tried::Counted;
use crate::twin::Twin;
use crate::words::Numbers;
use linked_list_allocator::LocalHeap;
use std::alloc::Global;

/// What the store counted, and how much of the heap was used, when that was noted.
#[derive(Clone, Copy)]
pub struct Noted {
    pub counted: Counted,
    pub used: usize,
}

/// What is asked once more when the store is dropped. It has 200 transfers at least, and answers as the plain ledger did when it
/// was marked.
#[derive(Clone, Copy)]
pub struct Outlives {
    /// The version that the first reader holds.
    pub held: bool,
    /// The first version that was taken and not let go.
    pub taken: bool,
}

/// What a trial knows beside its store. Few functions have all of it, since each that names a part spells out the others.
#[derive(Drop)]
pub struct Trial<'h> {
    /// The plain ledger beside the store.
    pub twin: Twin,
    /// The heap, and what is taken of it.
    pub room: Room<'h>,
    /// What lines call `N` and `M`.
    pub numbers: Numbers,
    pub noted: Noted,
    pub outlives: Outlives,
}

impl<'h> Trial<'h> {
    /// A trial of an empty store that lies on a heap.
    pub fn new(alloc: Global, heap: &'h LocalHeap, parameter: u64) -> Trial<'h> {
        Trial {
            twin: Twin::new(alloc),
            room: Room::new(alloc, heap),
            numbers: Numbers { turn: 0, parameter },
            noted: Noted {
                counted: Counted::NOTHING,
                used: 0,
            },
            outlives: Outlives {
                held: false,
                taken: false,
            },
        }
    }
}
