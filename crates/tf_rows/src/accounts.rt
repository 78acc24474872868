//! What a new account changes in rows.
ghost use Rattle.std.specs.Prelude.{◌≡◌};
ghost use Rattle.tf_journal.specs.declared.entry.Entry.{Entry};
ghost use Rattle.tf_rows.specs.Changes.{present};
ghost use Rattle.tf_rows.specs.Edits.{new_state, nothing_found};
ghost use Rattle.tf_rows.specs.Next.{changes_by};
ghost use Rattle.tf_rows.specs.Resident.{new_party};

use crate::row_change::{index, put};
use crate::{Change, Party};
use tf_journal::is_marked_closed;
use tf_manifest::{Row, State, Value};
use tf_records::{Account, Sums};

/// The state of a new account: all sums 0, closed as its own flag says.
fn new_state(account: &Account) -> State
    ensures { result ≡ new_state account.now }
{
    State {
        sums: Sums {
            debits_pending: 0,
            debits_posted: 0,
            credits_pending: 0,
            credits_posted: 0,
        },
        closed: is_marked_closed(account),
    }
}

/// A new account, with its state.
pub(crate) fn new_party(account: &Account) -> Party
    ensures { result ≡ new_party account.now }
{
    Party {
        account: *account,
        state: new_state(account),
    }
}

/// What a new account changes.
pub(crate) fn account_changes(account: &Account) -> [Option<Change>; 8]
    ensures { present result ≡ changes_by nothing_found (Entry.Account account.now) }
{
    let stamp = account.timestamp;
    let state = new_state(account);
    [
        put(Row::AccountObjects, 0, stamp, Value::Account(*account)),
        put(Row::AccountIds, account.id, 0, Value::Stamp(stamp)),
        index(Row::AccountUserData128, account.user_data_128, stamp),
        index(Row::AccountUserData64, account.user_data_64 as u128, stamp),
        index(Row::AccountUserData32, account.user_data_32 as u128, stamp),
        index(Row::AccountLedger, account.ledger as u128, stamp),
        index(Row::AccountCode, account.code as u128, stamp),
        put(Row::AccountSums, 0, stamp, Value::State(state)),
    ]
}
