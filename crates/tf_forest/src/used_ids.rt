//! Ids of transfers that are in use, told beside the rows.
ghost use Rattle.std.specs.Prelude.{◌≡◌, ◌∷◌, ◌++◌, [], List, true, OnOk, IfErr};
ghost use Rattle.tf_journal.specs.declared.entry.Entry.{Entry};
ghost use Rattle.tf_journal.specs.declared.id_use.IdUse.TheVariants.{Free};
ghost use Rattle.tf_journal.specs.Lookup.{id_use_of};
ghost use Rattle.tf_forest.specs.UsedIds.{AreKnown, used_id};

use std::alloc::Allocator;
use std::marker::Model;
use tf_journal::Entry;
use tf_records::Refusal;
use tf_table::GrowingFilter;

/// The ids that transfers are stored or failed with, in a filter: so that the id of a new transfer is found to be free by one
/// word of each of its parts, where the rows have a filter for each sealed table.
///
/// What an undo takes back stays known, which costs look-ups alone. Contracts see the words of the filter.
#[derive(Drop)]
pub(crate) struct UsedIds<A: Allocator + Copy> {
    ids: GrowingFilter<A>,
}

impl<A: Allocator + Copy> Model for UsedIds<A> {
    ghost use Rattle.std.specs.Prelude.{List, ℕ};

    ghost Value = { List (List ℕ) };

    ghost view = { λ used. used.ids };
}

/// The transfer id that an entry uses, if it uses one.
fn used_id(entry: &Entry) -> Option<u128>
    ensures { result ≡ used_id entry.now }
{
    match entry {
        Entry::Transfer(transfer) => Some(transfer.id),
        Entry::Failed { id, .. } => Some(*id),
        Entry::Account(_) | Entry::Expiry { .. } => None,
    }
}

impl<A: Allocator + Copy> UsedIds<A> {
    /// No id. It takes no memory.
    pub(crate) fn new(alloc: A) -> UsedIds<A>
        ensures { AreKnown result [] }
    {
        UsedIds {
            ids: GrowingFilter::new(alloc),
        }
    }

    /// Knows the id that the next entry of a journal uses, before it is added. All that was known stays so, also where the
    /// entry isn't added then. The only refusal is `NoMemory`.
    pub(crate) fn admit(&mut self, entry: &Entry) -> Result<(), Refusal>
        ensures stays { (journal : List Entry) → AreKnown self.old journal → AreKnown self.new journal }
        ensures holds { OnOk result ((journal : List Entry) → AreKnown self.old journal → AreKnown self.new (journal ++ entry.now ∷ [])) }
        ensures refusal { IfErr result (λ refusal. refusal ≡ Refusal.NoMemory) }
    {
        let Some(id) = used_id(entry) else {
            return Ok(());
        };
        self.ids.put(id)?;
        Ok(())
    }

    /// Whether no entry uses an id, as far as the filter tells: by one word of each of its parts.
    #[inline]
    pub(crate) fn is_unused(&self, id: u128) -> bool
        ensures { result ≡ true → (journal : List Entry) → AreKnown self.now journal → id_use_of journal id ≡ Free }
    {
        !self.ids.knows(id)
    }
}
