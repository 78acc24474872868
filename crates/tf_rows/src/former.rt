//! The accounts that an entry changes, as they were before it.
ghost use Rattle.std.specs.Prelude.{◌≡◌, ◌++◌, ◌∷◌, [], List, ℕ};
ghost use Rattle.std.specs.Option.{option_map};
ghost use Rattle.tf_rows.specs.Edits.{found_for, party_of};
ghost use Rattle.tf_rows.specs.Resident.{accounts_before, former_of, formers_of};
ghost use Rattle.tf_journal.specs.declared.entry.Entry.{Entry};
ghost use Rattle.tf_journal.specs.Lawful.{IsSound};
ghost use Rattle.tf_journal.specs.Ledger.{CanGrow};

use crate::laws::accounts_change_as_found;
use crate::{Found, Party};
use tf_journal::Entry;
use tf_manifest::State;

/// An account before an entry: its id, and its state, if it was there.
#[derive(Clone, Copy)]
pub struct Former {
    pub id: u128,
    pub state: Option<State>,
}

/// The accounts that an entry changes, two at most, before it.
#[derive(Clone, Copy)]
pub struct Formers {
    pub first: Option<Former>,
    pub second: Option<Former>,
}

/// An account as it was found, if it was.
fn as_found(party: &Option<Party>) -> Option<Former>
    ensures { result ≡ option_map former_of party.now }
{
    let party = (*party)?;
    Some(Former {
        id: party.account.id,
        state: Some(party.state),
    })
}

/// The accounts that an entry changes, by what was looked up for it. A new account wasn't there.
pub fn formers_of(found: &Found, entry: &Entry) -> Formers
    ensures is { result ≡ formers_of found.now entry.now }
    ensures back { (journal : List Entry) → IsSound journal → CanGrow journal entry.now → found.now ≡ found_for journal entry.now → (id : ℕ) → accounts_before result (party_of (journal ++ entry.now ∷ [])) id ≡ party_of journal id }
{
    accounts_change_as_found();
    match entry {
        Entry::Account(account) => Formers {
            first: Some(Former {
                id: account.id,
                state: None,
            }),
            second: None,
        },
        _ => Formers {
            first: as_found(&found.debit),
            second: as_found(&found.credit),
        },
    }
}
