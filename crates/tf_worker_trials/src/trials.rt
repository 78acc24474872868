//! What is tried on a store.

use crate::turns::Turns;
use tf_workers::Totals;

/// What is tried on a store.
#[derive(Clone, Copy)]
pub enum Trial {
    /// All workers at once.
    Storm,
    /// A client, a compactor and a query worker, one after another.
    Turns,
    /// A batch of whose receipt a reader learns.
    Receipt,
    /// A batch that a thread publishes, which locks the store.
    Lock,
}

/// What came of a trial.
#[derive(Clone, Copy)]
pub enum Tried {
    Storm(Totals),
    Turns(Turns),
    /// Whether a reader saw what was stored once it was published, of its receipt or by a thread.
    Seen(bool),
    /// A growth was refused, or a thread.
    Nothing,
}
