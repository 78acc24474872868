//! From which keys on pending transfers can expire.
ghost use Rattle.std.specs.Prelude.{◌≡◌, ◌≤◌, ◌++◌, ◌∷◌, [], List, Option, ℕ, length, take};
ghost use Rattle.tf_rows.specs.Edits.{expiry_key, found_for};
ghost use Rattle.tf_rows.specs.Floors.{HaveFloors, IsFloor, floors_after, floors_at, lowered, raised};
ghost use Rattle.tf_journal.specs.declared.entry.Entry.{Entry};
ghost use Rattle.tf_journal.specs.Lawful.{IsSound};
ghost use Rattle.tf_journal.specs.Ledger.{CanGrow};
ghost use Rattle.tf_manifest.specs.declared.row.Row.{Row};
ghost use Rattle.tf_manifest.specs.Shows.{Content, Shows};
ghost use Rattle.tf_table.specs.declared.key.Key.{Key};
ghost use Rattle.tf_table.specs.First.{IsFirstFrom};

use crate::{Found, rows_change_by_edits};
use tf_journal::{Entry, expires_at, is_pending};
use tf_manifest::rows_are_maps;
use tf_records::Transfer;
use tf_table::Key;

/// Keys of expiry below which there is none: one of the journal itself, and one of each journal that an undo can leave.
///
/// The search for what is due begins at the first. It is the first key of expiry when entries are kept, is lowered to
/// each new key, and raised to each that expires. So a pulse passes over what it made expire but once. The second isn't raised
/// in between.
#[derive(Clone, Copy)]
pub struct Floors {
    pub present: Key,
    pub undone: Key,
}

/// The key of a pending transfer with a timeout.
pub(crate) fn expiry_key(pending: &Transfer) -> Key
    ensures { result ≡ expiry_key pending.now }
{
    Key {
        value: expires_at(pending),
        timestamp: pending.timestamp,
    }
}

impl Floors {
    /// Those of the empty journal.
    pub fn new() -> Floors
        ensures { HaveFloors result [] 0 }
    {
        Floors {
            present: Key::LEAST,
            undone: Key::LEAST,
        }
    }

    /// Those of the journal with one more entry, by what was looked up for it.
    pub fn after(self, entry: &Entry, found: &Found) -> Floors
        ensures is { result ≡ floors_after self entry.now found.now.settled }
        ensures holds { (journal : List Entry) (kept : ℕ) → IsSound journal → CanGrow journal entry.now → found.now ≡ found_for journal entry.now → HaveFloors self journal kept → HaveFloors result (journal ++ entry.now ∷ []) kept }
    {
        rows_change_by_edits();
        rows_are_maps();
        self.moved(entry, &found.settled)
    }

    /// They aren't above a new key of expiry, and what expires has the first key of all.
    fn moved(self, entry: &Entry, settled: &Option<Transfer>) -> Floors
        ensures { result ≡ floors_after self entry.now settled.now }
    {
        match entry {
            Entry::Transfer(transfer) if is_pending(transfer) && transfer.timeout != 0 => {
                self.lowered(expiry_key(transfer))
            }
            Entry::Expiry { .. } => self.raised(settled),
            _ => self,
        }
    }

    /// Those that aren't above a key.
    fn lowered(self, key: Key) -> Floors
        ensures { result ≡ lowered key self }
    {
        Floors {
            present: self.present.min(key),
            undone: self.undone.min(key),
        }
    }

    /// Those of the journal after the first key of expiry is gone, which is this transfer's.
    fn raised(self, expired: &Option<Transfer>) -> Floors
        ensures { result ≡ raised expired.now self }
    {
        match expired {
            Some(expired) => Floors {
                present: expiry_key(expired),
                ..self
            },
            None => self,
        }
    }

    /// Those of a journal whose entries all stand for good: its first key of expiry, found from a floor on. Where there is
    /// none, no key is below it.
    pub fn at(first: Option<Key>) -> Floors
        ensures is { result ≡ floors_at first }
        ensures holds { (journal : List Entry) (content : Content) (floor : Key) → Shows content journal → IsFloor floor journal → IsFirstFrom floor (content Row.Expiry) first → HaveFloors result journal (length journal) }
    {
        let floor = first.unwrap_or(Key {
            value: u128::MAX,
            timestamp: u64::MAX,
        });
        Floors {
            present: floor,
            undone: floor,
        }
    }

    /// Those of what an undo leaves of the journal.
    pub fn back(self) -> Floors
        ensures is { result ≡ record { present = self.undone; undone = self.undone } }
        ensures holds { (journal : List Entry) (kept n : ℕ) → kept ≤ n → HaveFloors self journal kept → HaveFloors result (take n journal) kept }
    {
        Floors {
            present: self.undone,
            undone: self.undone,
        }
    }
}
