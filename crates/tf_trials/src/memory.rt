//! Heaps of which all but a hole is taken.

use crate::lists::push;
use linked_list_allocator::LocalHeap;
use std::alloc::{AllocError, Global};

/// Bytes of a heap on which all of most trials has room.
pub const AMPLE: usize = 1 << 22;

/// What was taken of a heap.
pub type Taken<'h> = Vec<Vec<u8, &'h LocalHeap>, Global>;

/// Takes a block of a size, unless there is no room for it.
fn take_one<'h>(
    taken: &mut Taken<'h>,
    heap: &'h LocalHeap,
    size: usize,
) -> Result<bool, AllocError> {
    match Vec::with_capacity(heap, size) {
        Ok(block) => {
            push(taken, block)?;
            Ok(true)
        }
        Err(_) => Ok(false),
    }
}

/// Takes blocks of a size until there is none left.
fn take<'h>(taken: &mut Taken<'h>, heap: &'h LocalHeap, size: usize) -> Result<(), AllocError> {
    for _ in 0..AMPLE / 16 {
        if !take_one(taken, heap, size)? {
            return Ok(());
        }
    }
    Ok(())
}

/// Takes all of a heap but a hole of so many bytes.
pub fn take_all_but<'h>(
    taken: &mut Taken<'h>,
    heap: &'h LocalHeap,
    room: usize,
) -> Result<(), AllocError> {
    let hole = Vec::<u8, _>::with_capacity(heap, room)?;
    for level in 0..20u32 {
        take(taken, heap, AMPLE >> level)?;
    }
    drop(hole);
    Ok(())
}

/// Takes all of a heap but holes that are no greater than so many bytes.
pub fn take_all_but_holes<'h>(
    taken: &mut Taken<'h>,
    heap: &'h LocalHeap,
    alloc: Global,
    size: usize,
) -> Result<(), AllocError> {
    let mut holes = Vec::new(alloc);
    for _ in 0..AMPLE / 32 {
        if !(take_one(taken, heap, size)? && take_one(&mut holes, heap, size)?) {
            return Ok(());
        }
    }
    Ok(())
}

/// Whether a heap has room for so many bytes in one piece.
pub fn has_room(heap: &LocalHeap, room: usize) -> bool {
    Vec::<u8, _>::with_capacity(heap, room).is_ok()
}
