//! What is looked up for an entry before it is added: all that its changes are computed from.
ghost use Rattle.std.specs.Prelude.{◌≡◌, ℕ, List, IsTrue};
ghost use Rattle.tf_journal.specs.Lawful.{IsSound};
ghost use Rattle.tf_manifest.specs.declared.row.Row.{Row};
ghost use Rattle.tf_manifest.specs.Shows.{Shows};
ghost use Rattle.tf_journal.specs.declared.entry.Entry.{Entry};
ghost use Rattle.tf_rows.specs.Edits.{found_by_expiry, found_by_transfer, found_for, nothing_found};
ghost use Rattle.tf_rows.specs.LookUps.{found_read, party_read, pending_read, transfer_read};
ghost use Rattle.tf_rows.specs.Next.{content_in};
ghost use Rattle.tf_rows.specs.Resident.{AreAmong};

use crate::look_ups::{party, pending, transfer};
use crate::resident::Resident;
use crate::{RowSet, rows_answer_look_ups};
use std::alloc::Allocator;
use tf_journal::{Entry, is_settling};
use tf_manifest::State;
use tf_records::{Account, Transfer};

/// An account as it was stored, and its state before an entry.
#[derive(Clone, Copy, Debug, PartialEq, Eq)]
pub struct Party {
    pub account: Account,
    pub state: State,
}

/// What is looked up for an entry: the account on each side, and the pending transfer that it posts, voids or expires.
#[derive(Clone, Copy, Debug, PartialEq, Eq)]
pub struct Found {
    pub debit: Option<Party>,
    pub credit: Option<Party>,
    pub settled: Option<Transfer>,
}

/// Nothing is looked up for an account or a failed id.
fn nothing() -> Found
    ensures { result ≡ nothing_found }
{
    Found {
        debit: None,
        credit: None,
        settled: None,
    }
}

/// The account with this id and its state: by one look-up among the accounts that are held, and three in rows where it
/// isn't among them.
fn party_with<S: RowSet, A: Allocator + Clone>(
    rows: &S,
    resident: &Resident<A>,
    id: u128,
) -> Option<Party>
    requires has { (r : Row) → IsTrue (S.has_row r) }
    requires held { AreAmong (party_read (content_in (S.parts rows.now))) resident.now }
    ensures { result ≡ party_read (content_in (S.parts rows.now)) id }
{
    match resident.get(id) {
        Some(party) => Some(party),
        None => party(rows, id),
    }
}

/// What rows have for a transfer.
fn for_transfer<S: RowSet, A: Allocator + Clone>(
    rows: &S,
    resident: &Resident<A>,
    adding: &Transfer,
) -> Found
    requires has { (r : Row) → IsTrue (S.has_row r) }
    requires held { AreAmong (party_read (content_in (S.parts rows.now))) resident.now }
    ensures { result ≡ found_by_transfer (party_read (content_in (S.parts rows.now))) (transfer_read (content_in (S.parts rows.now))) adding.now }
{
    let debit = party_with(rows, resident, adding.debit_account_id);
    let credit = party_with(rows, resident, adding.credit_account_id);
    let settled = if is_settling(adding) {
        transfer(rows, adding.pending_id)
    } else {
        None
    };
    Found {
        debit,
        credit,
        settled,
    }
}

/// What rows have for an expiry of the pending transfer with this timestamp.
fn for_expiry<S: RowSet, A: Allocator + Clone>(
    rows: &S,
    resident: &Resident<A>,
    timestamp: u64,
) -> Found
    requires has { (r : Row) → IsTrue (S.has_row r) }
    requires held { AreAmong (party_read (content_in (S.parts rows.now))) resident.now }
    ensures { result ≡ found_by_expiry (party_read (content_in (S.parts rows.now))) (pending_read (content_in (S.parts rows.now)) timestamp) }
{
    let Some(expiring) = pending(rows, timestamp) else {
        return nothing();
    };
    let debit = party_with(rows, resident, expiring.debit_account_id);
    let credit = party_with(rows, resident, expiring.credit_account_id);
    Found {
        debit,
        credit,
        settled: Some(expiring),
    }
}

/// Looks up what the changes of an entry are computed from: two accounts, each among those that are held or by three
/// look-ups in rows, and a pending transfer by two. Takes no memory.
pub fn look_up<S: RowSet, A: Allocator + Clone>(
    rows: &S,
    resident: &Resident<A>,
    entry: &Entry,
) -> Found
    requires has { (r : Row) → IsTrue (S.has_row r) }
    requires held { AreAmong (party_read (content_in (S.parts rows.now))) resident.now }
    ensures read { result ≡ found_read (content_in (S.parts rows.now)) entry.now }
    ensures found { (journal : List Entry) → IsSound journal → Shows (content_in (S.parts rows.now)) journal → result ≡ found_for journal entry.now }
{
    rows_answer_look_ups();
    match entry {
        Entry::Transfer(adding) => for_transfer(rows, resident, adding),
        Entry::Expiry { pending, .. } => for_expiry(rows, resident, *pending),
        Entry::Account(_) | Entry::Failed { .. } => nothing(),
    }
}
