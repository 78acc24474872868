//! Entries of one mutable table, written and read by what any row may have.
ghost use Rattle.std.specs.Prelude.{◌≡◌, IsSome, IfSome, IfOk, IfErr, OnOk, OnErr};
ghost use Rattle.std.specs.Option.{option_copied, option_map};
ghost use Rattle.tf_sorted.specs.Rows.{with_row};
ghost use Rattle.tf_table.specs.Content.{entry_at};
ghost use Rattle.tf_table.specs.First.{IsFirstAbove};
ghost use Rattle.tf_table.specs.Key.{key_cmp};
ghost use Rattle.tf_mutable.specs.Mutable.{given_back};
ghost use Rattle.tf_rows.specs.Parts.{seen_rows};

use crate::held::Held;
use std::alloc::Allocator;
use tf_manifest::Value;
use tf_mutable::MutableTable;
use tf_records::Refusal;
use tf_rows::Before;
use tf_table::Key;

/// The entry of a key.
pub(crate) fn entry_in<V: Held, M: MutableTable<V, A>, A: Allocator + Clone>(
    table: &M,
    key: &Key,
) -> Before
    ensures { result ≡ entry_at key.now (seen_rows V.seen (M.rows table.now)) }
{
    match table.find(key) {
        Some(entry) => Some(seen_entry(entry)),
        None => None,
    }
}

/// Gives a key a stored entry, and tells the one that it had.
///
/// The only refusal is `NoMemory`, and it changes nothing.
fn put_stored<V: Held, M: MutableTable<V, A>, A: Allocator + Clone>(
    table: &mut M,
    key: Key,
    stored: Option<V>,
) -> Result<Option<Option<V>>, Refusal>
    requires { M.takes key (M.rows table.old) }
    ensures rows { OnOk result (seen_rows V.seen (M.rows table.new) ≡ with_row key_cmp key (option_map V.seen stored) (seen_rows V.seen (M.rows table.old))) }
    ensures there { OnOk result (IsSome (entry_at key (seen_rows V.seen (M.rows table.new)))) }
    ensures restores { IfOk result (λ before. given_back key (option_map (option_map V.seen) before) (seen_rows V.seen (M.rows table.new)) ≡ seen_rows V.seen (M.rows table.old)) }
    ensures err { OnErr result (M.rows table.new ≡ M.rows table.old) }
    ensures refusal { IfErr result (λ refusal. refusal ≡ Refusal.NoMemory) }
{
    // Only the length call tells that the keys rise.
    let _rows = table.len();
    table.put(key, stored)
}

/// Gives a key an entry, and tells the one that it had.
///
/// The only refusal is `NoMemory`, and it changes nothing.
pub(crate) fn put_entry<V: Held, M: MutableTable<V, A>, A: Allocator + Clone>(
    table: &mut M,
    key: Key,
    entry: &Option<Value>,
) -> Result<Before, Refusal>
    requires takes { M.takes key (M.rows table.old) }
    requires fits { IfSome entry.now (λ value. IsSome (V.held value)) }
    ensures rows { OnOk result (seen_rows V.seen (M.rows table.new) ≡ with_row key_cmp key entry.now (seen_rows V.seen (M.rows table.old))) }
    ensures there { OnOk result (IsSome (entry_at key (seen_rows V.seen (M.rows table.new)))) }
    ensures held { IfOk result (λ before. IfSome before (λ entry. IfSome entry (λ value. IsSome (V.held value)))) }
    ensures restores { IfOk result (λ before. given_back key before (seen_rows V.seen (M.rows table.new)) ≡ seen_rows V.seen (M.rows table.old)) }
    ensures err { OnErr result (M.rows table.new ≡ M.rows table.old) }
    ensures refusal { IfErr result (λ refusal. refusal ≡ Refusal.NoMemory) }
{
    let stored = stored_entry(entry);
    let before = put_stored(table, key, stored)?;
    Ok(seen_before(before))
}

/// Gives a key the entry back that `put_entry` told, or none. It takes no memory.
pub(crate) fn take_back<V: Held, M: MutableTable<V, A>, A: Allocator + Clone>(
    table: &mut M,
    key: &Key,
    before: Before,
)
    requires there { IsSome (entry_at key.now (seen_rows V.seen (M.rows table.old))) }
    requires fits { IfSome before (λ entry. IfSome entry (λ value. IsSome (V.held value))) }
    ensures { seen_rows V.seen (M.rows table.new) ≡ given_back key.now before (seen_rows V.seen (M.rows table.old)) }
{
    let stored = stored_before(before);
    table.take_back(key, stored);
}

/// A stored entry, as any row may have it.
fn seen_entry<V: Held>(entry: Option<&V>) -> Option<Value>
    ensures { result ≡ option_map V.seen (option_copied entry.entry) }
{
    match entry {
        Some(stored) => Some(stored.to_value()),
        None => None,
    }
}

/// An entry, as the row stores it.
fn stored_entry<V: Held>(entry: &Option<Value>) -> Option<V>
    requires { IfSome entry.now (λ value. IsSome (V.held value)) }
    ensures { option_map V.seen result ≡ entry.now }
{
    match entry {
        Some(value) => V::from_value(value),
        None => None,
    }
}

/// What a key had before, as the row stores it.
fn stored_before<V: Held>(before: Before) -> Option<Option<V>>
    requires { IfSome before (λ entry. IfSome entry (λ value. IsSome (V.held value))) }
    ensures { option_map (option_map V.seen) result ≡ before }
{
    match before {
        Some(entry) => Some(stored_entry(&entry)),
        None => None,
    }
}

/// What a key had before, as any row may have it.
fn seen_before<V: Held>(before: Option<Option<V>>) -> Before
    ensures seen { result ≡ option_map (option_map V.seen) before }
    ensures held { IfSome result (λ entry. IfSome entry (λ value. IsSome (V.held value))) }
{
    match before {
        Some(Some(stored)) => Some(Some(stored.to_value())),
        Some(None) => Some(None),
        None => None,
    }
}
