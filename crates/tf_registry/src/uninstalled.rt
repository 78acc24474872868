//! Why an install was refused.
use crate::Merged;

/// A refused install. It left everything as it was.
#[derive(Drop)]
pub enum Uninstalled<M> {
    /// The registry's growth was refused. The merged table is handed back.
    NoMemory(M),
    /// The references that were merged aren't in the row any more. The merged table is dropped.
    Stale,
    /// No more tables may be pushed. The merged table is dropped.
    RegistryFull,
}

/// A refused install among the tables of one row.
pub type RowUninstalled<V, A, N> = Uninstalled<Merged<V, A, N>>;
