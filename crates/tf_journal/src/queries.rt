//! The queries of a plain ledger: filters and look-ups.

ghost use Rattle.std.specs.Prelude.{◌≡◌, false, length, IfErr, IfOk, IsOk, MatchOption};
ghost use Rattle.tf_journal.specs.Answer.{account_transfers_of, balance_after, found_accounts_of, found_transfers_of, history_of, lookup_refusal, looked_up_accounts, looked_up_transfers};
ghost use Rattle.tf_journal.specs.Filter.{account_search, is_valid_account_filter, is_valid_query_filter, query_search, searched_account, searched_transfer};
ghost use Rattle.tf_journal.specs.Flags as flag;
ghost use Rattle.tf_journal.specs.Journal.{account_in, transfer_in};
ghost use Rattle.tf_journal.specs.Lookup.{shown};

use crate::balances::show;
use crate::filter::{
    is_valid_account_filter, is_valid_query_filter, matches_account, matches_account_filter,
    matches_transfer,
};
use crate::flags::has_flag;
use crate::history::balance_after;
use crate::search::{Order, Query, answer};
use crate::walk::find_account;
use crate::{Entry, Ledger, PlainLedger};
use std::alloc::Allocator;
use tf_records::{
    Account, AccountBalance, AccountFilter, BATCH_MAX, QueryFilter, Refusal, Transfer,
};

/// The transfers of an account that a filter asks for: those with the account on a side that is asked for.
///
/// They stand by rising timestamp, or by falling where the filter is reversed, and are the first `BATCH_MAX`,
/// or the first of the filter's limit where that is less. The answer of an invalid filter is empty and takes no
/// memory. [`Refusal::NoMemory`] is the only refusal. Takes a walk over the journal, and memory for the rows.
/// Restates the reference page get_account_transfers.
pub fn get_account_transfers<A: Allocator, B: Allocator>(
    alloc: A,
    ledger: &PlainLedger<B>,
    filter: &AccountFilter,
) -> Result<Vec<Transfer, A>, Refusal>
    ensures ok { IfOk result (λ rows. rows.items
        ≡ account_transfers_of (⟦<PlainLedger<B> as Ledger>⟧.journal ledger.now) filter.now) }
    ensures refusal { IfErr result (λ refusal. refusal ≡ Refusal.NoMemory) }
    ensures invalid { is_valid_account_filter filter.now ≡ false → IsOk result }
{
    answer(alloc, ledger.entries(), &AccountTransfers { filter })
}

/// The balances of an account right after each transfer that [`get_account_transfers`] gives, each with that
/// transfer's timestamp: of a stored account with the flag `HISTORY` alone, else nothing.
///
/// Refused as there. Takes for each row what an account's balances cost (see [`PlainLedger`]), and memory for
/// the rows. Restates the reference page get_account_balances.
pub fn get_account_balances<A: Allocator, B: Allocator>(
    alloc: A,
    ledger: &PlainLedger<B>,
    filter: &AccountFilter,
) -> Result<Vec<AccountBalance, A>, Refusal>
    ensures ok { IfOk result (λ rows. rows.items
        ≡ history_of (⟦<PlainLedger<B> as Ledger>⟧.journal ledger.now) filter.now) }
    ensures refusal { IfErr result (λ refusal. refusal ≡ Refusal.NoMemory) }
    ensures invalid { is_valid_account_filter filter.now ≡ false → IsOk result }
{
    match find_account(ledger.entries(), filter.account_id) {
        Some(account) if has_flag(account.flags, Account::HISTORY) => {
            answer(alloc, ledger.entries(), &AccountBalances { filter })
        }
        _ => Ok(Vec::new(alloc)),
    }
}

/// The accounts that a filter asks for, each with its balances of now, and marked as closed where it is.
///
/// Their order, number and refusals are those of [`get_account_transfers`]. Takes a walk over the journal, for
/// each row what showing an account costs (see [`PlainLedger`]), and memory for the rows. Restates the reference
/// page query_accounts.
pub fn query_accounts<A: Allocator, B: Allocator>(
    alloc: A,
    ledger: &PlainLedger<B>,
    filter: &QueryFilter,
) -> Result<Vec<Account, A>, Refusal>
    ensures ok { IfOk result (λ rows. rows.items
        ≡ found_accounts_of (⟦<PlainLedger<B> as Ledger>⟧.journal ledger.now) filter.now) }
    ensures refusal { IfErr result (λ refusal. refusal ≡ Refusal.NoMemory) }
    ensures invalid { is_valid_query_filter filter.now ≡ false → IsOk result }
{
    answer(alloc, ledger.entries(), &AllAccounts { filter })
}

/// The transfers that a filter asks for.
///
/// Their order, number and refusals, and the cost, are those of [`get_account_transfers`]. Restates the reference
/// page query_transfers.
pub fn query_transfers<A: Allocator, B: Allocator>(
    alloc: A,
    ledger: &PlainLedger<B>,
    filter: &QueryFilter,
) -> Result<Vec<Transfer, A>, Refusal>
    ensures ok { IfOk result (λ rows. rows.items
        ≡ found_transfers_of (⟦<PlainLedger<B> as Ledger>⟧.journal ledger.now) filter.now) }
    ensures refusal { IfErr result (λ refusal. refusal ≡ Refusal.NoMemory) }
    ensures invalid { is_valid_query_filter filter.now ≡ false → IsOk result }
{
    answer(alloc, ledger.entries(), &AllTransfers { filter })
}

/// The accounts with these ids, in the order of the ids, each with its balances of now, and marked as closed
/// where it is. An id under which nothing is stored gives no row, and a repeated id gives its row again.
///
/// More than `BATCH_MAX` ids are [`Refusal::BatchTooLarge`], before any memory is taken; else the only refusal is
/// [`Refusal::NoMemory`]. Takes for each id a walk over the journal and what showing an account costs (see
/// [`PlainLedger`]), and memory for the rows. Restates the reference page lookup_accounts.
pub fn lookup_accounts<A: Allocator, B: Allocator>(
    alloc: A,
    ledger: &PlainLedger<B>,
    ids: &[u128],
) -> Result<Vec<Account, A>, Refusal>
    ensures ok { IfOk result (λ rows. rows.items
        ≡ looked_up_accounts (⟦<PlainLedger<B> as Ledger>⟧.journal ledger.now) ids.now) }
    ensures refused { MatchOption (lookup_refusal (length ids.now))
        (IfErr result (λ refusal. refusal ≡ Refusal.NoMemory)) (λ refusal. result ≡ Err refusal) }
{
    check_count(ids)?;
    Ok(
        ids.iter()
            .filter_map(|id| ledger.account(*id))
            .collect(alloc)?,
    )
}

/// The transfers with these ids, in the order of the ids. An id under which nothing is stored gives no row, and
/// a repeated id gives its row again.
///
/// Refused as [`lookup_accounts`]. Takes a walk over the journal for each id, and memory for the rows. Restates the
/// reference page lookup_transfers.
pub fn lookup_transfers<A: Allocator, B: Allocator>(
    alloc: A,
    ledger: &PlainLedger<B>,
    ids: &[u128],
) -> Result<Vec<Transfer, A>, Refusal>
    ensures ok { IfOk result (λ rows. rows.items
        ≡ looked_up_transfers (⟦<PlainLedger<B> as Ledger>⟧.journal ledger.now) ids.now) }
    ensures refused { MatchOption (lookup_refusal (length ids.now))
        (IfErr result (λ refusal. refusal ≡ Refusal.NoMemory)) (λ refusal. result ≡ Err refusal) }
{
    check_count(ids)?;
    Ok(
        ids.iter()
            .filter_map(|id| ledger.transfer(*id))
            .collect(alloc)?,
    )
}

/// What a filter of an account's transfers says of the rows.
fn account_order(filter: &AccountFilter) -> Order
    ensures valid { result.is_valid ≡ is_valid_account_filter filter.now }
    ensures reversed { result.is_reversed ≡ flag.has_flag filter.now.flags 4 }
    ensures limit { result.limit ≡ filter.now.limit }
{
    Order {
        is_valid: is_valid_account_filter(filter),
        is_reversed: filter.flags & AccountFilter::REVERSED != 0,
        limit: filter.limit,
    }
}

/// What a filter of all records says of the rows.
fn query_order(filter: &QueryFilter) -> Order
    ensures valid { result.is_valid ≡ is_valid_query_filter filter.now }
    ensures reversed { result.is_reversed ≡ flag.has_flag filter.now.flags 1 }
    ensures limit { result.limit ≡ filter.now.limit }
{
    Order {
        is_valid: is_valid_query_filter(filter),
        is_reversed: filter.flags & QueryFilter::REVERSED != 0,
        limit: filter.limit,
    }
}

/// Refuses too many ids of a look-up.
fn check_count(ids: &[u128]) -> Result<(), Refusal>
    ensures { MatchOption (lookup_refusal (length ids.now)) (result ≡ Ok tt) (λ refusal. result ≡ Err refusal) }
{
    if ids.len() > BATCH_MAX as usize {
        return Err(Refusal::BatchTooLarge);
    }
    Ok(())
}

/// Asks for an account's transfers.
#[derive(Drop)]
struct AccountTransfers<'a> {
    filter: &'a AccountFilter,
}

impl Query for AccountTransfers<'_> {
    type Found = Transfer;

    type Row = Transfer;

    ghost asks = { λ query. account_search query.filter.now };

    ghost found_in = { transfer_in };

    ghost row_of = { λ query journal transfer. transfer };

    fn order(&self) -> Order {
        account_order(self.filter)
    }

    fn find_in(&self, entry: &Entry) -> Option<Transfer> {
        entry.transfer()
    }

    fn accepts(&self, found: &Transfer) -> bool {
        matches_account_filter(self.filter, found)
    }

    fn row(&self, _entries: &[Entry], found: Transfer) -> Transfer {
        found
    }
}

/// Asks for an account's balances right after each of its transfers.
#[derive(Drop)]
struct AccountBalances<'a> {
    filter: &'a AccountFilter,
}

impl Query for AccountBalances<'_> {
    type Found = Transfer;

    type Row = AccountBalance;

    ghost asks = { λ query. account_search query.filter.now };

    ghost found_in = { transfer_in };

    ghost row_of = { λ query journal transfer. balance_after journal query.filter.now.account_id transfer };

    fn order(&self) -> Order {
        account_order(self.filter)
    }

    fn find_in(&self, entry: &Entry) -> Option<Transfer> {
        entry.transfer()
    }

    fn accepts(&self, found: &Transfer) -> bool {
        matches_account_filter(self.filter, found)
    }

    fn row(&self, entries: &[Entry], found: Transfer) -> AccountBalance {
        balance_after(entries, self.filter.account_id, &found)
    }
}

/// Asks for all accounts.
#[derive(Drop)]
struct AllAccounts<'a> {
    filter: &'a QueryFilter,
}

impl Query for AllAccounts<'_> {
    type Found = Account;

    type Row = Account;

    ghost asks = { λ query. query_search searched_account query.filter.now };

    ghost found_in = { account_in };

    ghost row_of = { λ query journal account. shown journal account };

    fn order(&self) -> Order {
        query_order(self.filter)
    }

    fn find_in(&self, entry: &Entry) -> Option<Account> {
        entry.account()
    }

    fn accepts(&self, found: &Account) -> bool {
        matches_account(self.filter, found)
    }

    fn row(&self, entries: &[Entry], found: Account) -> Account {
        show(entries, &found)
    }
}

/// Asks for all transfers.
#[derive(Drop)]
struct AllTransfers<'a> {
    filter: &'a QueryFilter,
}

impl Query for AllTransfers<'_> {
    type Found = Transfer;

    type Row = Transfer;

    ghost asks = { λ query. query_search searched_transfer query.filter.now };

    ghost found_in = { transfer_in };

    ghost row_of = { λ query journal transfer. transfer };

    fn order(&self) -> Order {
        query_order(self.filter)
    }

    fn find_in(&self, entry: &Entry) -> Option<Transfer> {
        entry.transfer()
    }

    fn accepts(&self, found: &Transfer) -> bool {
        matches_transfer(self.filter, found)
    }

    fn row(&self, _entries: &[Entry], found: Transfer) -> Transfer {
        found
    }
}
