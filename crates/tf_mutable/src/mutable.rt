//! Mutable tables: rows that still change, until they are sealed.
ghost use Rattle.std.specs.Prelude.{◌≡◌, ◌==◌, [], List, Option, None, length, IsSome, IfOk, IfErr, OnOk, OnErr, ⊤};
ghost use Rattle.std.specs.Option.{option_copied, option_map};
ghost use Rattle.tf_sorted.specs.Rows.{IsRising, with_row};
ghost use Rattle.tf_table.specs.declared.key.Key.{Key};
ghost use Rattle.tf_table.specs.Key.{key_cmp};
ghost use Rattle.tf_table.specs.Content.{entry_at};
ghost use Rattle.tf_table.specs.First.{IsFirstAbove};
ghost use Rattle.tf_mutable.specs.Mutable.{given_back};

use crate::seal;
use std::alloc::Allocator;
use tf_btree::Tree;
use tf_records::Refusal;
use tf_table::{Key, Repeats, Sealed};

/// Rows that still change, and mean one list in key order. Each is a value, or None for a tombstone.
///
/// There are two kinds. A [`Tree`] finds and changes any row in a number of steps that grows with the logarithm of the
/// rows. A [`Log`](crate::Log) takes a row at its end, and puts the rows in order when they are sealed.
pub trait MutableTable<V: Repeats, A: Allocator + Clone>: Drop {
    /// The rows in key order.
    ghost rows: { Self → List (Key × Option V) };

    /// What has to be so of a key and the rows before `put` takes an entry for the key.
    ghost takes: { Key → List (Key × Option V) → Type 0 };

    /// No rows, with memory from `alloc` once there are some. It takes no memory.
    fn new_in(alloc: A) -> Self
        ensures { rows result ≡ [] };

    /// The number of rows, tombstones included.
    fn len(&self) -> usize
        ensures value { result ≡ length (rows self.now) }
        // No key comes twice.
        ensures rising { IsRising key_cmp (rows self.now) };

    /// Whether there is no row.
    fn is_empty(&self) -> bool
        ensures { result ≡ (length (rows self.now) == 0) };

    /// The entry of a key, if there is one: its value, or None inside for a tombstone.
    fn find(&self, key: &Key) -> Option<Option<&V>>
        ensures { option_map option_copied result ≡ entry_at key.now (rows self.now) };

    /// The first key above `key` that has an entry, a value or a tombstone, if there is one.
    fn first_above(&self, key: &Key) -> Option<Key>
        ensures { IsFirstAbove key.now (λ found. entry_at found (rows self.now)) result };

    /// Gives a key an entry, a value or None for a tombstone, and tells the one that it had.
    ///
    /// The only refusal is `NoMemory`, and it changes nothing. Where the key has an entry it takes no memory.
    fn put(&mut self, key: Key, entry: Option<V>) -> Result<Option<Option<V>>, Refusal>
        requires { takes key (rows self.old) }
        ensures rows { OnOk result (rows self.new ≡ with_row key_cmp key entry (rows self.old)) }
        ensures before { IfOk result (λ before. before ≡ entry_at key (rows self.old)) }
        ensures err { OnErr result (rows self.new ≡ rows self.old) }
        ensures absent { OnErr result (entry_at key (rows self.old) ≡ None) }
        ensures refusal { IfErr result (λ refusal. refusal ≡ Refusal.NoMemory) };

    /// Gives a key the entry back that `put` told, or none. It takes no memory.
    ///
    /// After the `put` it leaves the rows as they were before.
    fn take_back(&mut self, key: &Key, before: Option<Option<V>>)
        requires { IsSome (entry_at key.now (rows self.old)) }
        ensures rows { rows self.new ≡ given_back key.now before (rows self.old) }
        ensures restores { (earlier : List (Key × Option V)) (entry : Option V) → IsRising key_cmp earlier → rows self.old ≡ with_row key_cmp key.now entry earlier → before ≡ entry_at key.now earlier → rows self.new ≡ earlier };

    /// Removes every row. It takes no memory.
    fn clear(&mut self)
        ensures { rows self.new ≡ [] };

    /// The rows as a table, with its memory from `alloc`. The rows stay. The only refusal is `NoMemory`.
    ///
    /// It copies each row once.
    fn seal(&mut self, alloc: A) -> Result<Sealed<V, A>, Refusal>
        ensures sealed { IfOk result (λ sealed. sealed ≡ rows self.old) }
        ensures same { rows self.new ≡ rows self.old }
        ensures err { IfErr result (λ refusal. refusal ≡ Refusal.NoMemory) };

    /// Each kind takes a key that has no entry.
    ghost takes_new: { (key : Key) (rows : List (Key × Option V)) → entry_at key rows ≡ None → takes key rows };
}

/// The rows of a tree. Each step that isn't said to go over all rows grows with the logarithm of the rows.
impl<V: Repeats, A: Allocator + Clone> MutableTable<V, A> for Tree<Key, Option<V>, A> {
    ghost rows = { λ tree. tree };

    ghost takes = { λ key rows. ⊤ };

    ghost takes_new = { λ key rows absent. tt };

    fn new_in(alloc: A) -> Self {
        Tree::new_in(alloc)
    }

    fn len(&self) -> usize {
        Tree::len(self)
    }

    fn is_empty(&self) -> bool {
        Tree::is_empty(self)
    }

    fn find(&self, key: &Key) -> Option<Option<&V>> {
        match self.get(key) {
            Some(entry) => Some(entry.as_ref()),
            None => None,
        }
    }

    fn first_above(&self, key: &Key) -> Option<Key> {
        // Only the length call tells that the keys rise.
        let _rows = Tree::len(self);
        let mut rows = self.seek(key);
        let (first, _) = rows.next()?;
        if first.cmp(key).is_gt() {
            return Some(*first);
        }
        let (second, _) = rows.next()?;
        Some(*second)
    }

    fn put(&mut self, key: Key, entry: Option<V>) -> Result<Option<Option<V>>, Refusal>
        ensures rows { OnOk result (self.new ≡ with_row key_cmp key entry self.old) }
        ensures before { IfOk result (λ before. before ≡ entry_at key self.old) }
        ensures err { OnErr result (self.new ≡ self.old) }
        ensures absent { OnErr result (entry_at key self.old ≡ None) }
        ensures refusal { IfErr result (λ refusal. refusal ≡ Refusal.NoMemory) }
    {
        match self.insert(key, entry) {
            Ok(before) => Ok(before),
            Err(_) => Err(Refusal::NoMemory),
        }
    }

    fn take_back(&mut self, key: &Key, before: Option<Option<V>>)
        requires { IsSome (entry_at key.now self.old) }
        ensures rows { self.new ≡ given_back key.now before self.old }
        ensures restores { (earlier : List (Key × Option V)) (entry : Option V) → IsRising key_cmp earlier → self.old ≡ with_row key_cmp key.now entry earlier → before ≡ entry_at key.now earlier → self.new ≡ earlier }
    {
        match before {
            None => {
                let _ = self.remove(key);
            }
            Some(entry) => match self.insert(*key, entry) {
                Ok(_) => {}
                Err(_) => unreachable!(),
            },
        }
    }

    fn clear(&mut self) {
        Tree::clear(self);
    }

    fn seal(&mut self, alloc: A) -> Result<Sealed<V, A>, Refusal> {
        seal(alloc, self)
    }
}
