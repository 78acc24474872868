//! Filters of all four queries, and their answers.
ghost use Rattle.std.specs.Prelude.{◌≡◌, List, IfErr, IfOk};
ghost use Rattle.tf_journal.specs.declared.entry.Entry.{Entry};
ghost use Rattle.tf_query_all.specs.Many.{IsAnswer};

use std::alloc::Allocator;
use tf_query::Version;
use tf_records::{Account, AccountBalance, AccountFilter, QueryFilter, Refusal, Transfer};
use tf_registry::Naming;

/// A filter, with the query that it is of.
#[derive(Clone, Copy, Debug, PartialEq, Eq)]
pub enum Filter {
    /// Of the transfers of an account.
    AccountTransfers(AccountFilter),
    /// Of the balances of an account.
    AccountBalances(AccountFilter),
    /// Of accounts.
    Accounts(QueryFilter),
    /// Of transfers.
    Transfers(QueryFilter),
}

/// The rows that a filter asks for.
#[derive(Drop)]
pub enum Answer<A: Allocator> {
    /// The transfers of an account.
    AccountTransfers(Vec<Transfer, A>),
    /// The balances of an account.
    AccountBalances(Vec<AccountBalance, A>),
    /// Accounts.
    Accounts(Vec<Account, A>),
    /// Transfers.
    Transfers(Vec<Transfer, A>),
}

/// What many filters are asked of, by what it answers to one. Whatever shares them out among threads names no version, which is
/// dear to take apart there.
pub(crate) trait Asked<B: Allocator> {
    /// The journal that it shows.
    ghost journal: { Self → List Entry };

    /// The answer of one filter. `NoMemory` is the only refusal.
    fn answered(&self, alloc: B, filter: &Filter) -> Result<Answer<B>, Refusal>
        ensures ok { IfOk result (IsAnswer (journal self.now) filter.now) }
        ensures refusal { IfErr result (λ refusal. refusal ≡ Refusal.NoMemory) };
}

impl<A: Allocator, N: Naming, B: Allocator + Copy> Asked<B> for Version<A, N> {
    ghost journal = { λ version. version };

    fn answered(&self, alloc: B, filter: &Filter) -> Result<Answer<B>, Refusal> {
        Ok(match filter {
            Filter::AccountTransfers(filter) => {
                Answer::AccountTransfers(self.get_account_transfers(alloc, filter)?)
            }
            Filter::AccountBalances(filter) => {
                Answer::AccountBalances(self.get_account_balances(alloc, filter)?)
            }
            Filter::Accounts(filter) => Answer::Accounts(self.query_accounts(alloc, filter)?),
            Filter::Transfers(filter) => Answer::Transfers(self.query_transfers(alloc, filter)?),
        })
    }
}
