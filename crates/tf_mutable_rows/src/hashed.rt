//! A mutable table that finds a row by a hash of its key.
ghost use Rattle.std.specs.Prelude.{◌≡◌, List, Option, None, IsSome, IfSome, IfOk, IfErr, OnOk, OnErr, ⊤};
ghost use Rattle.tf_sorted.specs.Rows.{IsRising, with_row};
ghost use Rattle.tf_table.specs.declared.key.Key.{Key};
ghost use Rattle.tf_table.specs.Key.{key_cmp};
ghost use Rattle.tf_table.specs.Content.{entry_at};
ghost use Rattle.tf_table.specs.First.{IsFirstAbove};
ghost use Rattle.tf_mutable.specs.Mutable.{given_back, in_order};
ghost use Rattle.tf_mutable_rows.specs.Hashed.{key_of, keyed};

use crate::rising::RisingDraft;
use std::alloc::{AllocError, Allocator};
use std::collections::HashMap;
use std::hash::{BuildHasherDefault, FoldHasher};
use std::marker::Model;
use tf_mutable::{Log, MutableTable};
use tf_records::Refusal;
use tf_table::{Key, Repeats, Sealed};

/// A key, as a hash table has it.
#[derive(Clone, Copy, PartialEq, Eq, Hash)]
pub(crate) struct HashedKey {
    value: u128,
    timestamp: u64,
}

impl HashedKey {
    fn new(key: &Key) -> HashedKey
        ensures { key_of result ≡ key.now }
    {
        HashedKey {
            value: key.value,
            timestamp: key.timestamp,
        }
    }

    fn key(&self) -> Key
        ensures { result ≡ key_of self.now }
    {
        Key {
            value: self.value,
            timestamp: self.timestamp,
        }
    }
}

/// Rows in a hash table, in no order. Each key comes once.
///
/// A row is found, changed and taken back by one look-up, unless keys collide: the hash has no seed, so it is for rows whose
/// keys nobody can choose. The table doubles where it is full; `clear` keeps its room. The first key above another is found by a
/// walk over all rows. A seal sorts the timestamps and looks each row up; rows with other keys are copied into a log, which sorts them.
#[derive(Drop)]
pub(crate) struct Hashed<V: Repeats, A: Allocator> {
    rows: HashMap<HashedKey, Option<V>, BuildHasherDefault<FoldHasher>, A>,
}

impl<V: Repeats, A: Allocator> Model for Hashed<V, A> {
    ghost use Rattle.std.specs.Prelude.{List, Option};
    ghost use Rattle.tf_table.specs.declared.key.Key.{Key};
    ghost use Rattle.tf_mutable.specs.Mutable.{in_order};
    ghost use Rattle.tf_mutable_rows.specs.Hashed.{keyed};

    ghost Value = { List (Key × Option V) };

    ghost view = { λ hashed. in_order (keyed hashed.rows.entries) };
}

impl<V: Repeats, A: Allocator + Clone> MutableTable<V, A> for Hashed<V, A> {
    ghost rows = { λ hashed. hashed };

    ghost takes = { λ key rows. ⊤ };

    ghost takes_new = { λ key rows absent. tt };

    fn new_in(alloc: A) -> Self {
        Hashed {
            rows: HashMap::new(alloc),
        }
    }

    fn len(&self) -> usize {
        self.rows.len()
    }

    fn is_empty(&self) -> bool {
        self.len() == 0
    }

    fn find(&self, key: &Key) -> Option<Option<&V>> {
        let sought = HashedKey::new(key);
        match self.rows.get(&sought) {
            Some(entry) => Some(entry.as_ref()),
            None => None,
        }
    }

    fn first_above(&self, key: &Key) -> Option<Key> {
        first_by_walk(&self.rows, key)
    }

    fn put(&mut self, key: Key, entry: Option<V>) -> Result<Option<Option<V>>, Refusal>
        ensures rows { OnOk result (self.new ≡ with_row key_cmp key entry self.old) }
        ensures before { IfOk result (λ before. before ≡ entry_at key self.old) }
        ensures err { OnErr result (self.new ≡ self.old) }
        ensures absent { OnErr result (entry_at key self.old ≡ None) }
        ensures refusal { IfErr result (λ refusal. refusal ≡ Refusal.NoMemory) }
    {
        let put = HashedKey::new(&key);
        let before = match self.rows.insert(put, entry) {
            Ok(before) => before,
            Err(_) => return Err(Refusal::NoMemory),
        };
        Ok(before)
    }

    fn take_back(&mut self, key: &Key, before: Option<Option<V>>)
        requires { IsSome (entry_at key.now self.old) }
        ensures rows { self.new ≡ given_back key.now before self.old }
        ensures restores { (earlier : List (Key × Option V)) (entry : Option V) → IsRising key_cmp earlier → self.old ≡ with_row key_cmp key.now entry earlier → before ≡ entry_at key.now earlier → self.new ≡ earlier }
    {
        let sought = HashedKey::new(key);
        match before {
            None => {
                let _ = self.rows.remove(&sought);
            }
            Some(entry) => match self.rows.insert(sought, entry) {
                Ok(_) => {}
                Err(_) => unreachable!(),
            },
        }
    }

    fn clear(&mut self) {
        self.rows.clear();
    }

    fn seal(&mut self, alloc: A) -> Result<Sealed<V, A>, Refusal> {
        if let Some(sealed) = seal_by_time(&self.rows, alloc.clone()?)? {
            return Ok(sealed);
        }
        let mut log = logged(alloc.clone()?, &self.rows)?;
        let sealed = log.seal(alloc);
        drop(log);
        sealed
    }
}

/// The first key above this one.
fn first_by_walk<V: Repeats, A: Allocator>(
    rows: &HashMap<HashedKey, Option<V>, BuildHasherDefault<FoldHasher>, A>,
    key: &Key,
) -> Option<Key>
    ensures { IsFirstAbove key.now (λ found. entry_at found (keyed rows.now.entries)) result }
{
    let mut first = None;
    for (hashed, _) in rows.iter() {
        let row = hashed.key();
        if row.cmp(key).is_gt() {
            first = Key::lesser(first, Some(row));
        }
    }
    first
}

/// The rows as a sealed table, with memory from `alloc`, or none where a key isn't a timestamp alone.
fn seal_by_time<V: Repeats, A: Allocator + Clone>(
    rows: &HashMap<HashedKey, Option<V>, BuildHasherDefault<FoldHasher>, A>,
    alloc: A,
) -> Result<Option<Sealed<V, A>>, AllocError>
    ensures { IfOk result (λ sealed. IfSome sealed (λ table. table ≡ in_order (keyed rows.now.entries))) }
{
    let times = sorted_times(rows, alloc.clone()?)?;
    let sealed = sealed_in_time(rows, &times, alloc);
    drop(times);
    sealed
}

/// The timestamps of the keys, in order.
fn sorted_times<V, A: Allocator>(
    rows: &HashMap<HashedKey, Option<V>, BuildHasherDefault<FoldHasher>, A>,
    alloc: A,
) -> Result<Vec<u64, A>, AllocError> {
    let mut times = Vec::with_capacity(alloc, rows.len())?;
    for (hashed, _) in rows.iter() {
        times.push(hashed.timestamp)?;
    }
    times.sort_unstable();
    Ok(times)
}

/// The rows as a sealed table, if each of them has one of these timestamps for its key, which rise.
fn sealed_in_time<V: Repeats, A: Allocator + Clone>(
    rows: &HashMap<HashedKey, Option<V>, BuildHasherDefault<FoldHasher>, A>,
    times: &[u64],
    alloc: A,
) -> Result<Option<Sealed<V, A>>, AllocError>
    ensures { IfOk result (λ sealed. IfSome sealed (λ table. table ≡ in_order (keyed rows.now.entries))) }
{
    if times.len() != rows.len() {
        return Ok(None);
    }
    let mut draft = RisingDraft::with_room(alloc.clone()?, times.len())?;
    for timestamp in times {
        let key = Key {
            value: 0,
            timestamp: *timestamp,
        };
        let Some(entry) = rows.get(&HashedKey::new(&key)) else {
            return Ok(None);
        };
        if !draft.add(&key, entry)? {
            return Ok(None);
        }
    }
    Ok(Some(draft.seal(alloc)?))
}

/// The rows as a log, with memory from `alloc`. The only refusal is `NoMemory`.
fn logged<V: Repeats, A: Allocator + Clone>(
    alloc: A,
    rows: &HashMap<HashedKey, Option<V>, BuildHasherDefault<FoldHasher>, A>,
) -> Result<Log<V, A>, Refusal>
    ensures rows { IfOk result (λ log. log ≡ in_order (keyed rows.now.entries)) }
    ensures refusal { IfErr result (λ refusal. refusal ≡ Refusal.NoMemory) }
{
    let mut log = Log::new_in(alloc);
    for (hashed, entry) in rows.iter() {
        log.put(hashed.key(), *entry)?;
    }
    Ok(log)
}
