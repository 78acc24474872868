//! Accounts in use, held beside the rows.
ghost use Rattle.std.specs.Prelude.{◌≡◌, ◌<◌, ◌++◌, ◌∷◌, [], List, length};
ghost use Rattle.tf_rows.specs.Edits.{found_for, party_of};
ghost use Rattle.tf_rows.specs.Range.{LeavesInRange};
ghost use Rattle.tf_rows.specs.Resident.{Accounts, AreAmong, accounts_after, accounts_before, held_at, with_any, with_party, without_any, without_change};
ghost use Rattle.tf_journal.specs.declared.entry.Entry.{Entry};
ghost use Rattle.tf_journal.specs.Lawful.{IsSound};
ghost use Rattle.tf_journal.specs.Ledger.{CanGrow};

use crate::account_states::{party_after, party_expired};
use crate::accounts::new_party;
use crate::former::{Former, Formers};
use crate::laws::accounts_change_as_found;
use crate::{Found, Party};
use std::alloc::Allocator;
use std::collections::HashMap;
use std::hash::{BuildHasherDefault, FoldHasher};
use std::marker::Model;
use tf_journal::{Entry, Side};

/// How many accounts are held at most: some fifteen megabytes, for which the map takes up to twice as much.
const MOST: usize = 65_536;

/// Accounts in use with their present states, by their ids in a hash map, so that a look-up of one asks no row.
///
/// What is held is what the journal says. What isn't held is looked up in the rows: an account enters when an entry of its
/// own or a transfer of it is added, if there is a place and memory for it. Contracts see the list of what is held.
#[derive(Drop)]
pub struct Resident<A: Allocator> {
    accounts: HashMap<u128, Party, BuildHasherDefault<FoldHasher>, A>,
}

impl<A: Allocator> Model for Resident<A> {
    ghost use Rattle.std.specs.Prelude.{◌≤◌, List, ℕ, length};
    ghost use Rattle.tf_rows.specs.declared.found.Party.{Party};

    ghost Value = { List (ℕ × Party) };

    ghost view = { λ r. r.accounts.entries };

    ghost invariant = { λ r. length r.accounts.entries ≤ 65536 };
}

impl<A: Allocator + Clone> Resident<A> {
    /// No account. It takes no memory.
    pub fn new(alloc: A) -> Resident<A>
        ensures { result ≡ [] }
    {
        Resident {
            accounts: HashMap::new(alloc),
        }
    }

    /// The account that is held under an id, if one is: by one look-up in a hash map.
    pub fn get(&self, id: u128) -> Option<Party>
        ensures { result ≡ held_at id self.now }
    {
        self.accounts.get(&id).copied()
    }

    /// Holds an account in place of what was held under its id. Where it isn't held yet and there is no place or no memory
    /// for it, it is left out.
    fn put(&mut self, party: Party)
        ensures { (accounts : Accounts) → AreAmong accounts self.old → AreAmong (with_party party accounts) self.new }
    {
        if let Some(held) = self.accounts.get_mut(&party.account.id) {
            *held = party;
            return;
        }
        if self.accounts.len() >= MOST {
            return;
        }
        let _ = self.accounts.insert(party.account.id, party);
    }

    fn put_any(&mut self, party: &Option<Party>)
        ensures { (accounts : Accounts) → AreAmong accounts self.old → AreAmong (with_any party.now accounts) self.new }
    {
        if let Some(party) = party {
            self.put(*party);
        }
    }

    /// Brings an account's former state back, or drops the account where it wasn't there. It takes no memory.
    fn restore(&mut self, former: &Former)
        ensures { (accounts : Accounts) → AreAmong accounts self.old → AreAmong (without_change former.now accounts) self.new }
    {
        let Some(state) = former.state else {
            let _ = self.accounts.remove(&former.id);
            return;
        };
        if let Some(party) = self.accounts.get_mut(&former.id) {
            party.state = state;
        }
    }

    fn restore_any(&mut self, former: &Option<Former>)
        ensures { (accounts : Accounts) → AreAmong accounts self.old → AreAmong (without_any former.now accounts) self.new }
    {
        if let Some(former) = former {
            self.restore(former);
        }
    }

    /// Takes note of an entry, by what was looked up for it.
    fn change(&mut self, entry: &Entry, found: &Found)
        requires { LeavesInRange found.now entry.now }
        ensures { (accounts : Accounts) → AreAmong accounts self.old → AreAmong (accounts_after found.now entry.now accounts) self.new }
    {
        match entry {
            Entry::Account(account) => self.put(new_party(account)),
            Entry::Transfer(transfer) => {
                let settled = &found.settled;
                self.put_any(&party_after(Side::Debit, transfer, settled, &found.debit));
                self.put_any(&party_after(Side::Credit, transfer, settled, &found.credit));
            }
            Entry::Expiry { .. } => {
                if let Some(expiring) = &found.settled {
                    self.put_any(&party_expired(Side::Debit, expiring, &found.debit));
                    self.put_any(&party_expired(Side::Credit, expiring, &found.credit));
                }
            }
            Entry::Failed { .. } => {}
        }
    }

    /// Holds the accounts of a new entry as they are after it, by what was looked up for it: by one look-up in a hash map for
    /// each of its accounts.
    pub fn after(&mut self, entry: &Entry, found: &Found)
        requires { LeavesInRange found.now entry.now }
        ensures { (journal : List Entry) → IsSound journal → CanGrow journal entry.now → found.now ≡ found_for journal entry.now → AreAmong (party_of journal) self.old → AreAmong (party_of (journal ++ entry.now ∷ [])) self.new }
    {
        accounts_change_as_found();
        self.change(entry, found);
    }

    /// Holds the accounts that an entry changed as they were before it, or drops them. It takes no memory.
    pub fn back(&mut self, formers: &Formers)
        ensures { (accounts : Accounts) → AreAmong accounts self.old → AreAmong (accounts_before formers.now accounts) self.new }
    {
        self.restore_any(&formers.first);
        self.restore_any(&formers.second);
    }

    /// Drops all accounts where there are as many as may be held, so that others can enter. It takes no memory.
    pub fn make_place(&mut self)
        ensures among { (accounts : Accounts) → AreAmong accounts self.old → AreAmong accounts self.new }
        ensures place { length self.new < 65536 }
    {
        if self.accounts.len() >= MOST {
            self.accounts.clear();
        }
    }
}
