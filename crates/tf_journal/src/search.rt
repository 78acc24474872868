//! The one walk over a journal by which every filter is answered.

ghost use Rattle.std.specs.Prelude.{◌≡◌, false, List, Option, map, IfErr, IfOk, IsOk, take, reverse};
ghost use Rattle.std.specs.List.{filter_map};
ghost use Rattle.tf_journal.specs.declared.entry.Entry.{Entry};
ghost use Rattle.tf_journal.specs.Answer.{answer_of};
ghost use Rattle.tf_journal.specs.Filter.{Search};
ghost use Rattle.tf_journal.specs.Lawful.{IsSound};
ghost use Rattle.tf_journal.specs.Walk.{accepted_row};

use crate::Entry;
use std::alloc::{AllocError, Allocator};
use tf_records::{BATCH_MAX, Refusal};

/// How many rows are asked for, and in which order.
#[derive(Clone, Copy)]
pub struct Order {
    /// Whether the filter is valid: else there are no rows.
    pub is_valid: bool,
    /// By falling timestamp.
    pub is_reversed: bool,
    /// The most rows.
    pub limit: u32,
}

/// What a query asks of the records of a kind, and the row that it answers for each that it finds.
pub trait Query {
    /// A record of the kind.
    type Found: Copy;

    /// A row of the answer.
    type Row: Copy;

    /// What is asked.
    ghost asks: { Self → Search Self.Found };

    /// The record in an entry that has one of the kind.
    ghost found_in: { Entry → Option Self.Found };

    /// The row of a record, after a journal.
    ghost row_of: { Self → List Entry → Self.Found → Self.Row };

    /// Whether it is valid, how many rows it asks for, and in which order.
    fn order(&self) -> Order
        ensures valid { result.is_valid ≡ (asks self.now).is_valid }
        ensures reversed { result.is_reversed ≡ (asks self.now).is_reversed }
        ensures limit { result.limit ≡ (asks self.now).limit };

    /// The record in an entry, where it has one of the kind.
    fn find_in(&self, entry: &Entry) -> Option<Self::Found>
        ensures { result ≡ found_in entry.now };

    /// Whether a record is one that is asked for.
    fn accepts(&self, found: &Self::Found) -> bool
        ensures { result ≡ (asks self.now).accepts found.now };

    /// The row of a record, after these entries.
    fn row(&self, entries: &[Entry], found: Self::Found) -> Self::Row
        requires { ∥ IsSound entries.now ∥₁ }
        ensures { result ≡ row_of self.now entries.now found };
}

/// The answer of a query: nothing where it isn't valid, else a row for each record that it accepts, by rising
/// timestamp, or by falling where it is reversed, and at most `BATCH_MAX` or its limit of them.
///
/// The walk ends at the last row of the answer. It takes memory for the rows alone, and none where the query
/// isn't valid.
pub fn answer<Q: Query, A: Allocator>(
    alloc: A,
    entries: &[Entry],
    query: &Q,
) -> Result<Vec<Q::Row, A>, Refusal>
    requires { ∥ IsSound entries.now ∥₁ }
    ensures ok { IfOk result (λ rows. rows.items ≡ map (Q.row_of query.now entries.now)
        (answer_of (Q.asks query.now) (filter_map Q.found_in entries.now))) }
    ensures refusal { IfErr result (λ refusal. refusal ≡ Refusal.NoMemory) }
    ensures invalid { (Q.asks query.now).is_valid ≡ false → IsOk result }
{
    let order = query.order();
    if !order.is_valid {
        return Ok(Vec::new(alloc));
    }
    let most = order.limit.min(BATCH_MAX) as usize;
    if order.is_reversed {
        Ok(last_rows(alloc, entries, query, most)?)
    } else {
        Ok(first_rows(alloc, entries, query, most)?)
    }
}

/// The row of an entry, where it has a record that a query accepts.
fn row_in<Q: Query>(query: &Q, entries: &[Entry], entry: &Entry) -> Option<Q::Row>
    requires { ∥ IsSound entries.now ∥₁ }
    ensures { result ≡ accepted_row Q.found_in (Q.asks query.now).accepts (Q.row_of query.now entries.now) entry.now }
{
    let found = query.find_in(entry)?;
    if query.accepts(&found) {
        Some(query.row(entries, found))
    } else {
        None
    }
}

/// The rows of the first records that a query accepts.
fn first_rows<Q: Query, A: Allocator>(
    alloc: A,
    entries: &[Entry],
    query: &Q,
    most: usize,
) -> Result<Vec<Q::Row, A>, AllocError>
    requires { ∥ IsSound entries.now ∥₁ }
    ensures { IfOk result (λ rows. rows.items ≡ take most (filter_map
        (accepted_row Q.found_in (Q.asks query.now).accepts (Q.row_of query.now entries.now)) entries.now)) }
{
    entries
        .iter()
        .filter_map(|entry| row_in(query, entries, entry))
        .take(most)
        .collect(alloc)
}

/// The rows of the last records that a query accepts, the last first.
fn last_rows<Q: Query, A: Allocator>(
    alloc: A,
    entries: &[Entry],
    query: &Q,
    most: usize,
) -> Result<Vec<Q::Row, A>, AllocError>
    requires { ∥ IsSound entries.now ∥₁ }
    ensures { IfOk result (λ rows. rows.items ≡ take most (filter_map
        (accepted_row Q.found_in (Q.asks query.now).accepts (Q.row_of query.now entries.now)) (reverse entries.now))) }
{
    entries
        .iter()
        .rev()
        .filter_map(|entry| row_in(query, entries, entry))
        .take(most)
        .collect(alloc)
}
