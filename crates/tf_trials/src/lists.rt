//! Lists that are made item by item, by functions that are generic in the item: a push hands back what it had no memory for, and a
//! proof that names its type spells out its parts.

use std::alloc::{AllocError, Global};
use tf_records::Refusal;

/// Adds an item to a list, or drops it.
pub fn push<X: Drop>(list: &mut Vec<X, Global>, item: X) -> Result<(), AllocError> {
    list.push(item)?;
    Ok(())
}

/// Adds what was made to a list.
pub fn add<X: Drop>(list: &mut Vec<X, Global>, made: Result<X, Refusal>) -> Result<(), Refusal> {
    push(list, made?)?;
    Ok(())
}

/// A list of what was made.
pub fn only<X: Drop>(alloc: Global, made: Result<X, Refusal>) -> Result<Vec<X, Global>, Refusal> {
    let mut list = Vec::new(alloc);
    add(&mut list, made)?;
    Ok(list)
}

/// A list that has an item so often.
pub fn repeated<X: Copy + Drop>(
    alloc: Global,
    item: X,
    count: u64,
) -> Result<Vec<X, Global>, Refusal> {
    let mut list = Vec::new(alloc);
    for _ in 0..count {
        push(&mut list, item)?;
    }
    Ok(list)
}
