//! Queries and look-ups that want no memory.

use crate::tables::{assert_in, last_command};
use linked_list_allocator::LocalHeap;
use std::alloc::{Allocator, Global};
use std::process::Abort;
use std::test::Fail;
use tf_journal::{
    PlainLedger, get_account_balances, get_account_transfers, lookup_accounts, lookup_transfers,
    query_accounts, query_transfers,
};
use tf_records::Refusal;
use tf_script::{Command, Query};

/// Queries with filters that are invalid: of no side, and of no rows.
const INVALID: &str = "\
get_account_transfers account_id=1 limit=10 flags=4
get_account_balances account_id=1 limit=10 flags=4
query_accounts
query_transfers";

/// How many rows a query finds.
fn count<A: Allocator, B: Allocator>(
    alloc: A,
    ledger: &PlainLedger<B>,
    query: &Query,
) -> Result<usize, Refusal> {
    Ok(match query {
        Query::AccountTransfers(filter) => get_account_transfers(alloc, ledger, filter)?.len(),
        Query::AccountBalances(filter) => get_account_balances(alloc, ledger, filter)?.len(),
        Query::Accounts(filter) => query_accounts(alloc, ledger, filter)?.len(),
        Query::Transfers(filter) => query_transfers(alloc, ledger, filter)?.len(),
    })
}

/// Whether the query of a line finds nothing.
fn finds_nothing<A: Allocator, B: Allocator>(
    global: Global,
    alloc: A,
    ledger: &PlainLedger<B>,
    line: &str,
) -> Result<bool, Refusal> {
    let command = last_command(global, line)?;
    Ok(match &command {
        Some(Command::Query(query)) => count(alloc, ledger, query) == Ok(0),
        _ => false,
    })
}

/// Whether no account and no transfer has these ids.
fn looks_up_nothing<A: Allocator + Copy, B: Allocator>(
    alloc: A,
    ledger: &PlainLedger<B>,
    ids: &[u128],
) -> Result<bool, Refusal> {
    let accounts = lookup_accounts(alloc, ledger, ids)?.len();
    let transfers = lookup_transfers(alloc, ledger, ids)?.len();
    Ok(accounts == 0 && transfers == 0)
}

/// Whether these are too many ids, of accounts and of transfers.
fn are_too_many<A: Allocator + Copy, B: Allocator>(
    alloc: A,
    ledger: &PlainLedger<B>,
    ids: &[u128],
) -> bool {
    lookup_accounts(alloc, ledger, ids).err() == Some(Refusal::BatchTooLarge)
        && lookup_transfers(alloc, ledger, ids).err() == Some(Refusal::BatchTooLarge)
}

/// Invalid filters are answered without memory, of which the allocator has none.
fn assert_invalid<A: Allocator + Copy, B: Allocator>(
    rt: &(impl Abort + AllocGlobal),
    alloc: A,
    ledger: &PlainLedger<B>,
) {
    for line in INVALID.lines() {
        let holds = matches!(finds_nothing(rt.alloc(), alloc, ledger, line), Ok(true));
        assert_in(rt, holds, line);
    }
}

/// As many ids as a batch may have are looked up, one more is refused, and none want no memory, of which the allocator has none.
fn assert_look_ups<A: Allocator + Copy, B: Allocator>(
    rt: &(impl Abort + AllocGlobal),
    alloc: A,
    ledger: &PlainLedger<B>,
) -> Result<(), Refusal> {
    let ids = vec![in rt.alloc(); 1u128; 8_191]?;
    let refused = are_too_many(alloc, ledger, &ids);
    let most = looks_up_nothing(rt.alloc(), ledger, &ids[..8_190]);
    let none = looks_up_nothing(alloc, ledger, &[]);
    drop(ids);
    assert!(rt; refused && most == Ok(true) && none == Ok(true));
    Ok(())
}

/// A heap with no room.
#[test]
fn queries_and_look_ups_of_nothing_want_no_memory(rt: HostRuntime) -> Result<(), Fail> {
    let heap = LocalHeap::new(rt.alloc(), 64)?;
    let ledger = PlainLedger::new(rt.alloc());
    assert_invalid(&rt, &heap, &ledger);
    let look_ups = assert_look_ups(&rt, &heap, &ledger);
    drop(ledger);
    drop(heap);
    Ok(look_ups?)
}
