//! The words that begin a command.

ghost use Rattle.std.specs.Prelude.{◌≡◌};
ghost use Rattle.tf_script.specs.Verbs.{verb_of};

use crate::table::{Named, place};

/// A command, by the word that begins it.
#[derive(Clone, Copy)]
pub enum Verb {
    Accounts,
    Transfers,
    Pulse,
    Publish,
    Compact,
    GetAccountTransfers,
    GetAccountBalances,
    QueryAccounts,
    QueryTransfers,
    LookupAccounts,
    LookupTransfers,
}

/// A command and its word.
struct Entry(&'static str, Verb);

impl Named for Entry {
    ghost name_of = { λ entry. entry.0.now };

    fn name(&self) -> &[u8] {
        self.0.as_bytes()
    }
}

static VERBS: [Entry; 11] = [
    Entry("accounts", Verb::Accounts),
    Entry("transfers", Verb::Transfers),
    Entry("pulse", Verb::Pulse),
    Entry("publish", Verb::Publish),
    Entry("compact", Verb::Compact),
    Entry("get_account_transfers", Verb::GetAccountTransfers),
    Entry("get_account_balances", Verb::GetAccountBalances),
    Entry("query_accounts", Verb::QueryAccounts),
    Entry("query_transfers", Verb::QueryTransfers),
    Entry("lookup_accounts", Verb::LookupAccounts),
    Entry("lookup_transfers", Verb::LookupTransfers),
];

/// The command that a word begins.
#[tactic(auto, unfolding(crate::specs::Verbs::verb_of))]
pub fn read_verb(text: &[u8]) -> Option<Verb>
    ensures { result ≡ verb_of text.now }
{
    let place = place(&VERBS, text)?;
    Some(VERBS[place].1)
}
