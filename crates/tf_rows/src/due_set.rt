//! Keys of expiry, held beside the rows.
ghost use Rattle.std.specs.Prelude.{◌≡◌, ◌+◌, ◌++◌, ◌∷◌, [], None, List, length, ℕ, IsTrue, OnOk, IfErr};
ghost use Rattle.std.specs.Option.{is_some};
ghost use Rattle.tf_journal.specs.declared.entry.Entry.{Entry};
ghost use Rattle.tf_journal.specs.Lawful.{IsSound};
ghost use Rattle.tf_journal.specs.Ledger.{CanGrow};
ghost use Rattle.tf_manifest.specs.Shows.{Shows};
ghost use Rattle.tf_manifest.specs.declared.row.Row.{Row};
ghost use Rattle.tf_rows.specs.DueSet.{AreHeld, StayHeld, given_key};
ghost use Rattle.tf_rows.specs.Next.{content_in};
ghost use Rattle.tf_rows.specs.Parts.{value_of_part};
ghost use Rattle.tf_table.specs.declared.key.Key.{Key};
ghost use Rattle.tf_table.specs.Content.{entry_at};
ghost use Rattle.tf_table.specs.First.{IsFirstFrom};

use crate::floors::expiry_key;
use crate::{RowSet, rows_change_by_edits};
use std::alloc::Allocator;
use std::marker::Model;
use tf_btree::Tree;
use tf_journal::{Entry, is_pending};
use tf_manifest::Row;
use tf_mutable::MutableTable;
use tf_records::{Refusal, Transfer};
use tf_table::Key;

/// The keys of expiry, in order, held beside the rows: so the pending transfer that expires next is found by a search of one
/// tree, however many were posted or voided before it.
///
/// Every key of expiry that has a value is held. One that an entry takes away stays until `sweep`, so that an undo needs no
/// memory; that no more are held than are open, after a sweep, is a matter of speed alone. Contracts see the keys that are held.
#[derive(Drop)]
pub struct DueSet<A: Allocator + Copy> {
    keys: Tree<Key, Option<()>, A>,
    /// Keys that entries gave a value or took it from since the last sweep.
    touched: Vec<Key, A>,
}

impl<A: Allocator + Copy> Model for DueSet<A> {
    ghost use Rattle.tf_rows.specs.DueSet.{Keys};

    ghost Value = { Keys };

    ghost view = { λ d. d.keys };
}

/// The key of expiry that an entry gives a value, if it gives one.
fn given_key(entry: &Entry) -> Option<Key>
    ensures { result ≡ given_key entry.now }
{
    match entry {
        Entry::Transfer(transfer) if is_pending(transfer) && transfer.timeout != 0 => {
            Some(expiry_key(transfer))
        }
        _ => None,
    }
}

/// The key of expiry of a pending transfer that is settled, if it has one.
fn taken_key(settled: &Option<Transfer>) -> Option<Key> {
    match settled {
        Some(pending) if pending.timeout != 0 => Some(expiry_key(pending)),
        _ => None,
    }
}

impl<A: Allocator + Copy> DueSet<A> {
    /// No key. It takes no memory.
    pub fn new(alloc: A) -> DueSet<A>
        ensures { result ≡ [] }
    {
        DueSet {
            keys: Tree::new_in(alloc),
            touched: Vec::new(alloc),
        }
    }

    /// Holds what the next entry of a journal needs, before it is added: by one search of a tree for a pending transfer that can
    /// expire. `settled` is the pending transfer that the entry settles, if it settles one.
    ///
    /// Whatever was held stays so, also where the entry isn't added then. The only refusal is `NoMemory`.
    pub fn admit(&mut self, entry: &Entry, settled: &Option<Transfer>) -> Result<(), Refusal>
        ensures stays { (journal : List Entry) → AreHeld self.old journal → AreHeld self.new journal }
        ensures holds { OnOk result ((journal : List Entry) (kept : ℕ) → IsSound journal → CanGrow journal entry.now → StayHeld self.old journal kept → StayHeld self.new (journal ++ entry.now ∷ []) kept) }
        ensures refusal { IfErr result (λ refusal. refusal ≡ Refusal.NoMemory) }
    {
        rows_change_by_edits();
        if self.touched.reserve(1).is_err() {
            return Err(Refusal::NoMemory);
        }
        if let Some(key) = given_key(entry) {
            match self.keys.put(key, Some(())) {
                Ok(_) => {}
                Err(refusal) => return Err(refusal),
            }
            self.touched.push_reserved(key);
        } else if let Some(key) = taken_key(settled) {
            self.touched.push_reserved(key);
        }
        Ok(())
    }

    /// Lets go of the keys that have no value, of those that were given or taken since the last sweep: by a look-up for each.
    /// It takes no memory.
    pub fn sweep<S: RowSet>(&mut self, rows: &S)
        requires { IsTrue (S.has_row Row.Expiry) }
        ensures { (journal : List Entry) → Shows (content_in (S.parts rows.now)) journal → AreHeld self.old journal → AreHeld self.new journal }
    {
        while let Some(key) = self.touched.pop() {
            if rows.find(Row::Expiry, &key).is_none() {
                let _ = self.keys.remove(&key);
            }
        }
    }

    /// Takes note of an undo that left so many entries which don't stand for good yet: where none is left, it sweeps.
    pub fn undone<S: RowSet>(&mut self, rows: &S, left: usize)
        requires { IsTrue (S.has_row Row.Expiry) }
        ensures { (journal : List Entry) (kept : ℕ) → Shows (content_in (S.parts rows.now)) journal → length journal ≡ kept + left → StayHeld self.old journal kept → StayHeld self.new journal kept }
    {
        if left == 0 {
            self.sweep(rows);
        }
    }

    /// Whether a key has a value: by a look-up in the rows for those that are held alone.
    fn is_open<S: RowSet>(&self, rows: &S, key: &Key) -> bool
        requires has { IsTrue (S.has_row Row.Expiry) }
        requires held { entry_at key.now self.now ≡ None → value_of_part (S.parts rows.now Row.Expiry) key.now ≡ None }
        ensures { result ≡ is_some (value_of_part (S.parts rows.now Row.Expiry) key.now) }
    {
        MutableTable::find(&self.keys, key).is_some() && rows.find(Row::Expiry, key).is_some()
    }

    /// The first key that has a value, at or above a given one: by a search, and a look-up in the rows, for each key that is held
    /// from there to it. After a sweep that is one.
    pub fn first_from<S: RowSet>(&self, rows: &S, from: &Key) -> Option<Key>
        requires has { IsTrue (S.has_row Row.Expiry) }
        requires held { (key : Key) → entry_at key self.now ≡ None → value_of_part (S.parts rows.now Row.Expiry) key ≡ None }
        ensures { IsFirstFrom from.now (value_of_part (S.parts rows.now Row.Expiry)) result }
    {
        let mut place = *from;
        while !self.is_open(rows, &place) {
            place = self.keys.first_above(&place)?;
        }
        Some(place)
    }
}
