//! What names a store.
ghost use Rattle.std.specs.Prelude.{◌≡◌};

use std::marker::Brand;
use std::sync::ledger::{Blank, Ledger};
use tf_history::{HistoryName, Opened};
use tf_registry::Naming;

/// Which store a value is of: which registries its tables lie in, which ledger its shares count in, and which history its
/// readers follow. Shares, receipts and readers of one store agree in this parameter, since nothing that is known of a
/// store outlasts the lock but what its type says.
pub trait StoreName: Naming + Ledger + HistoryName {}

impl StoreName for Brand {}

/// A store that has no name yet. Whoever makes a store takes the names from it.
pub struct BlankStore {
    /// The ledger that shares count in, cut into as many parts as there are shares.
    pub ledger: Blank,
    /// The history of what is published, with nothing in it.
    pub history: Opened,
}

impl BlankStore {
    /// Names for a store with so many shares. It takes no memory.
    pub fn new(shares: u32) -> BlankStore
        ensures { result.ledger.parts ≡ shares }
    {
        BlankStore {
            ledger: Blank::new(u64::from(shares)),
            history: Opened::new(),
        }
    }
}
