//! A mutable table whose rows are pushed at its end.
ghost use Rattle.std.specs.Prelude.{◌≡◌, ◌≤◌, [], ◌∷◌, ◌++◌, List, length, Option, Some, None, true, false, IsTrue, IsSome, IfSome, IfNone, IfOk, IfErr, OnOk, OnErr, slice_get};
ghost use Rattle.std.specs.Option.{option_map};
ghost use Rattle.tf_sorted.specs.Rows.{IsRising, with_row};
ghost use Rattle.tf_table.specs.declared.key.Key.{Key};
ghost use Rattle.tf_table.specs.Key.{key_cmp};
ghost use Rattle.tf_table.specs.Content.{entry_at};
ghost use Rattle.tf_table.specs.First.{IsFirstAbove};
ghost use Rattle.tf_mutable.specs.Mutable.{in_order, rows_of_key, IsLogged, given_back};

use crate::MutableTable;
use std::alloc::{AllocError, Allocator};
use std::marker::Model;
use tf_records::Refusal;
use tf_table::{Draft, Key, Repeats, Sealed};

/// Rows in the order in which they came. Each key comes once.
///
/// A row is pushed at the end, and the room doubles where it is full; `clear` keeps it. While the keys rise, as they do from where there
/// is none on, a row is
/// found in a number of steps that grows with the logarithm of the rows, and so is the first key above another; else a row
/// by a walk from the newest one back, and the first key above another by a walk over all. To take the newest row back
/// moves no other. The first seal of rows that don't rise sorts them, with room for as many rows at most beside them, and
/// they rise from then on.
#[derive(Drop)]
pub struct Log<V: Repeats, A: Allocator> {
    rows: Vec<(Key, Option<V>), A>,
    /// Whether the keys are known to rise.
    rises: bool,
}

impl<V: Repeats, A: Allocator> Model for Log<V, A> {
    ghost use Rattle.std.specs.Prelude.{List, Option};
    ghost use Rattle.tf_table.specs.declared.key.Key.{Key};

    ghost Value = { List (Key × Option V) };

    ghost use Rattle.tf_mutable.specs.Mutable.{in_order, IsLogged};

    ghost view = { λ log. in_order log.rows.items };

    ghost invariant = { λ log. IsLogged log.rises log.rows.items };
}

impl<V: Repeats, A: Allocator> Log<V, A> {
    /// The rows in the order in which they came, or in that of their keys where a seal has sorted them.
    pub fn rows(&self) -> &[(Key, Option<V>)]
        ensures order { in_order result.now ≡ self.now }
        ensures once { (key : Key) → length (rows_of_key key result.now) ≤ 1 }
    {
        self.rows.as_slice()
    }
}

impl<V: Repeats, A: Allocator + Clone> MutableTable<V, A> for Log<V, A> {
    ghost rows = { λ log. log };

    // A new row has a key of its own.
    ghost takes = { λ key rows. entry_at key rows ≡ None };

    ghost takes_new = { λ key rows absent. absent };

    fn new_in(alloc: A) -> Self {
        Log {
            rows: Vec::new(alloc),
            rises: true,
        }
    }

    fn len(&self) -> usize {
        self.rows.len()
    }

    fn is_empty(&self) -> bool {
        self.rows.is_empty()
    }

    fn find(&self, key: &Key) -> Option<Option<&V>> {
        match place_of(&self.rows, self.rises, key) {
            Some(place) => Some(self.rows[place].1.as_ref()),
            None => None,
        }
    }

    fn first_above(&self, key: &Key) -> Option<Key> {
        if self.rises {
            first_by_halving(&self.rows, key)
        } else {
            first_by_walk(&self.rows, key)
        }
    }

    fn put(&mut self, key: Key, entry: Option<V>) -> Result<Option<Option<V>>, Refusal>
        requires { entry_at key self.old ≡ None }
        ensures rows { OnOk result (self.new ≡ with_row key_cmp key entry self.old) }
        ensures before { IfOk result (λ before. before ≡ entry_at key self.old) }
        ensures err { OnErr result (self.new ≡ self.old) }
        ensures absent { OnErr result (entry_at key self.old ≡ None) }
        ensures refusal { IfErr result (λ refusal. refusal ≡ Refusal.NoMemory) }
    {
        let rises = self.rises && ends_below(&self.rows, &key);
        match self.rows.push((key, entry)) {
            Ok(()) => {
                self.rises = rises;
                Ok(None)
            }
            Err(_) => Err(Refusal::NoMemory),
        }
    }

    fn take_back(&mut self, key: &Key, before: Option<Option<V>>)
        requires { IsSome (entry_at key.now self.old) }
        ensures rows { self.new ≡ given_back key.now before self.old }
        ensures restores { (earlier : List (Key × Option V)) (entry : Option V) → IsRising key_cmp earlier → self.old ≡ with_row key_cmp key.now entry earlier → before ≡ entry_at key.now earlier → self.new ≡ earlier }
    {
        let Some(place) = place_of(&self.rows, self.rises, key) else {
            return;
        };
        match before {
            None => {
                let _ = self.rows.remove(place);
                self.rises = still_rises(self.rises, &self.rows);
            }
            Some(entry) => self.rows[place] = (*key, entry),
        }
    }

    fn clear(&mut self) {
        self.rows.clear();
        self.rises = true;
    }

    fn seal(&mut self, alloc: A) -> Result<Sealed<V, A>, Refusal> {
        if !self.rises {
            if sort_by_key(&mut self.rows).is_err() {
                return Err(Refusal::NoMemory);
            }
            self.rises = true;
        }
        sealed_run(alloc, &self.rows).map_err(|_| Refusal::NoMemory)
    }
}

/// The place of a key's row: by halving where the keys rise, else by a walk.
fn place_of<V>(rows: &[(Key, Option<V>)], rises: bool, key: &Key) -> Option<usize>
    requires { IsTrue rises → IsRising key_cmp rows.now }
    ensures found { IfSome result (λ place. option_map (λ row. row.0) (slice_get rows.now place) ≡ Some key.now) }
    ensures missing { IfNone result (entry_at key.now rows.now ≡ None) }
{
    if rises {
        place_by_halving(rows, key)
    } else {
        place_by_walk(rows, key)
    }
}

fn place_by_halving<V>(rows: &[(Key, Option<V>)], key: &Key) -> Option<usize>
    requires { IsRising key_cmp rows.now }
    ensures found { IfSome result (λ place. option_map (λ row. row.0) (slice_get rows.now place) ≡ Some key.now) }
    ensures missing { IfNone result (entry_at key.now rows.now ≡ None) }
{
    rows.binary_search_by(|row| row.0.cmp(key)).ok()
}

/// From the newest row back.
fn place_by_walk<V>(rows: &[(Key, Option<V>)], key: &Key) -> Option<usize>
    ensures found { IfSome result (λ place. option_map (λ row. row.0) (slice_get rows.now place) ≡ Some key.now) }
    ensures missing { IfNone result (entry_at key.now rows.now ≡ None) }
{
    let mut rest = rows.len();
    while rest > 0 {
        rest -= 1;
        if rows[rest].0.cmp(key).is_eq() {
            return Some(rest);
        }
    }
    None
}

/// The first key above this one.
fn first_by_halving<V>(rows: &[(Key, Option<V>)], key: &Key) -> Option<Key>
    requires { IsRising key_cmp rows.now }
    ensures { IsFirstAbove key.now (λ found. entry_at found rows.now) result }
{
    let place = rows.partition_point(|row| row.0.cmp(key).is_le());
    Some(rows.get(place)?.0)
}

/// The same of keys in any order.
fn first_by_walk<V>(rows: &[(Key, Option<V>)], key: &Key) -> Option<Key>
    ensures { IsFirstAbove key.now (λ found. entry_at found rows.now) result }
{
    let mut first = None;
    for row in rows {
        if row.0.cmp(key).is_gt() {
            first = Key::lesser(first, Some(row.0));
        }
    }
    first
}

/// Whether the keys of rows that rise still rise with this one behind them.
fn ends_below<V>(rows: &[(Key, Option<V>)], key: &Key) -> bool
    requires { IsRising key_cmp rows.now }
    ensures { (entry : Option V) → IsTrue result → IsRising key_cmp (rows.now ++ (key.now, entry) ∷ []) }
{
    match rows.last() {
        Some(last) => last.0.cmp(key).is_lt(),
        None => true,
    }
}

/// Whether the keys of rows, of which one was taken away, are known to rise: where they were before, and where no row is left.
fn still_rises<V>(rises: bool, rows: &[(Key, Option<V>)]) -> bool
    requires { IsTrue rises → IsRising key_cmp rows.now }
    ensures rising { IsTrue result → IsRising key_cmp rows.now }
    ensures none { rows.now ≡ [] → IsTrue result }
{
    rises || rows.is_empty()
}

/// Puts rows in key order, if there is memory to do so. Up to 20 of them need none.
fn sort_by_key<V, A: Allocator>(rows: &mut Vec<(Key, Option<V>), A>) -> Result<(), AllocError>
    requires { IsLogged false rows.old.items }
    ensures sorted { OnOk result (IsLogged true rows.new.items) }
    ensures same { in_order rows.new.items ≡ in_order rows.old.items }
    ensures err { OnErr result (rows.new.items ≡ rows.old.items) }
{
    rows.sort_by(|row, other| row.0.cmp(&other.0))
}

/// A table of rows that rise.
fn sealed_run<V: Repeats, A: Allocator + Clone>(
    alloc: A,
    rows: &[(Key, Option<V>)],
) -> Result<Sealed<V, A>, AllocError>
    requires { IsRising key_cmp rows.now }
    ensures { IfOk result (λ sealed. sealed ≡ rows.now) }
{
    let mut draft = Draft::with_room(alloc.clone()?, rows.len())?;
    for row in rows {
        draft.add(&row.0, &row.1)?;
    }
    draft.seal(alloc)
}
