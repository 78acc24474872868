//! Merges of a forest's sealed tables.

use crate::calls::act;
use crate::tried::{Act, Tried};
use tf_records::Refusal;
use tf_trials::{Dice, ROWS};

/// Merges the next run of a row, and puts it in its place. Tells whether there was one.
fn merge_next<F: Tried>(forest: &mut F, row: usize) -> Result<bool, Refusal> {
    if !act(forest, Act::Merge(row))? {
        return Ok(false);
    }
    if act(forest, Act::Install)? {
        Ok(true)
    } else {
        Err(Refusal::Stale)
    }
}

/// Merges the next runs of so many rows, in any order, some of them again.
pub fn merge_some<F: Tried>(forest: &mut F, dice: &mut Dice, count: u32) -> Result<(), Refusal> {
    for _ in 0..count {
        let _is_merged = merge_next(forest, dice.below(ROWS as u64) as usize)?;
    }
    Ok(())
}

/// Merges the next run of each row. Tells how many had one.
fn merge_each<F: Tried>(forest: &mut F) -> Result<u32, Refusal> {
    let mut merges: u32 = 0;
    for row in 0..ROWS {
        if merge_next(forest, row)? {
            merges = merges.wrapping_add(1);
        }
    }
    Ok(merges)
}

/// Merges the runs of all rows until none has one. Tells how many there were. It is stale where there is no end.
pub fn merge_all<F: Tried>(forest: &mut F) -> Result<u32, Refusal> {
    let mut merges: u32 = 0;
    for _ in 0..1000u32 {
        let more = merge_each(forest)?;
        if more == 0 {
            return Ok(merges);
        }
        merges = merges.wrapping_add(more);
    }
    Err(Refusal::Stale)
}
