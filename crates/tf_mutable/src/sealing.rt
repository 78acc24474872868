//! The seal of a tree.
ghost use Rattle.std.specs.Prelude.{◌≡◌, IfOk, IfErr};

use std::alloc::{AllocError, Allocator};
use tf_btree::Tree;
use tf_records::Refusal;
use tf_table::{Draft, Key, Repeats, Sealed};

/// The rows of a tree as a table. An empty tree gives an empty table.
///
/// It goes over the tree once and copies each row once, and then over the keys alone, for their span, their filter and their
/// fences.
/// The keys have their room from the start; so do the entries, from the first one on that differs from the others. The
/// only refusal is `NoMemory`.
pub fn seal<V: Repeats, A: Allocator + Clone>(
    alloc: A,
    tree: &Tree<Key, Option<V>, A>,
) -> Result<Sealed<V, A>, Refusal>
    ensures rows { IfOk result (λ sealed. sealed ≡ tree.now) }
    ensures err { IfErr result (λ refusal. refusal ≡ Refusal.NoMemory) }
{
    sealed_rows(alloc, tree).map_err(|_| Refusal::NoMemory)
}

fn sealed_rows<V: Repeats, A: Allocator + Clone>(
    alloc: A,
    tree: &Tree<Key, Option<V>, A>,
) -> Result<Sealed<V, A>, AllocError>
    ensures { IfOk result (λ sealed. sealed ≡ tree.now) }
{
    let mut draft = Draft::with_room(alloc.clone()?, tree.len())?;
    for (key, entry) in tree.seek(&Key::LEAST) {
        draft.add(key, entry)?;
    }
    draft.seal(alloc)
}
