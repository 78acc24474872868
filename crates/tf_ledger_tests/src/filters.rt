//! Which filters are valid, and what they match, at the edges of each field.

use crate::tables::{assert_in, first_word, last_command};
use std::alloc::Global;
use std::process::Abort;
use tf_journal::{
    is_valid_account_filter, is_valid_query_filter, matches_account, matches_account_filter,
    matches_transfer,
};
use tf_records::{Account, Refusal, Transfer};
use tf_script::{Command, Query};

/// A transfer from account 1 to account 2.
const SALE: Transfer = Transfer {
    id: 5,
    debit_account_id: 1,
    credit_account_id: 2,
    amount: 40,
    pending_id: 0,
    user_data_128: 7,
    user_data_64: 8,
    user_data_32: 9,
    timeout: 0,
    ledger: 700,
    code: 11,
    flags: 0,
    timestamp: 1003,
};

/// An account with the same fields to search by.
const CASH: Account = Account {
    id: 1,
    debits_pending: 0,
    debits_posted: 0,
    credits_pending: 0,
    credits_posted: 0,
    user_data_128: 7,
    user_data_64: 8,
    user_data_32: 9,
    reserved: 0,
    ledger: 700,
    code: 11,
    flags: 0,
    timestamp: 1003,
};

/// Whether a filter is valid, and the filter. Of bounds 0 is none, and the greatest number is no bound. The filters in
/// digits have a last reserved byte of 0 or 1.
const VALID: &str = "\
valid get_account_transfers account_id=1 limit=1 flags=3
valid query_accounts limit=1
valid get_account_transfers account_id=1 limit=8190 flags=3
valid query_accounts limit=8190
valid get_account_transfers account_id=1 limit=8191 flags=3
valid query_accounts limit=8191
valid get_account_transfers account_id=1 limit=max flags=3
valid query_accounts limit=max
invalid get_account_transfers account_id=1 limit=0 flags=3
invalid query_accounts limit=0
valid get_account_transfers account_id=1 limit=1 flags=1
valid get_account_transfers account_id=1 limit=1 flags=2
valid get_account_transfers account_id=1 limit=1 flags=3
valid get_account_transfers account_id=1 limit=1 flags=5
valid get_account_transfers account_id=1 limit=1 flags=6
valid get_account_transfers account_id=1 limit=1 flags=7
valid query_accounts limit=1 flags=1
invalid get_account_transfers account_id=1 limit=1 flags=0
invalid get_account_transfers account_id=1 limit=1 flags=4
invalid get_account_transfers account_id=1 limit=1 flags=8
invalid get_account_transfers account_id=1 limit=1 flags=9
invalid get_account_transfers account_id=1 limit=1 flags=15
invalid get_account_transfers account_id=1 limit=1 flags=2147483649
invalid query_accounts limit=1 flags=2
invalid query_accounts limit=1 flags=2147483648
invalid get_account_transfers account_id=0 limit=1 flags=3
invalid get_account_transfers account_id=max limit=1 flags=3
valid get_account_transfers raw 0100000000000000000000000000000000000000000000000000000000000000000000000000000000000000000000000000000000000000000000000000000000000000000000000000000000000000000000000000000000000000000000000000000000000000000000000000000000000000000000000100000003000000
valid query_accounts raw 00000000000000000000000000000000000000000000000000000000000000000000000000000000000000000000000000000000000000000100000000000000
invalid get_account_transfers raw 0100000000000000000000000000000000000000000000000000000000000000000000000000000000000000000000000000000000000000000000000000000000000000000000000000000000000000000000000000000000000000000000000000000000000001000000000000000000000000000000000100000003000000
invalid query_accounts raw 00000000000000000000000000000000000000000000000000000000000000000000000000000001000000000000000000000000000000000100000000000000
valid get_account_transfers account_id=1 timestamp_min=0 timestamp_max=1 limit=1 flags=3
valid query_accounts timestamp_min=0 timestamp_max=1 limit=1
valid get_account_transfers account_id=1 timestamp_min=1 timestamp_max=0 limit=1 flags=3
valid query_accounts timestamp_min=1 timestamp_max=0 limit=1
valid get_account_transfers account_id=1 timestamp_min=1 timestamp_max=1 limit=1 flags=3
valid query_accounts timestamp_min=1 timestamp_max=1 limit=1
valid get_account_transfers account_id=1 timestamp_min=5 timestamp_max=0 limit=1 flags=3
valid query_accounts timestamp_min=5 timestamp_max=0 limit=1
valid get_account_transfers account_id=1 timestamp_min=9223372036854775807 timestamp_max=9223372036854775807 limit=1 flags=3
valid query_accounts timestamp_min=9223372036854775807 timestamp_max=9223372036854775807 limit=1
valid get_account_transfers account_id=1 timestamp_min=9223372036854775808 timestamp_max=0 limit=1 flags=3
valid query_accounts timestamp_min=9223372036854775808 timestamp_max=0 limit=1
valid get_account_transfers account_id=1 timestamp_min=18446744073709551614 timestamp_max=18446744073709551614 limit=1 flags=3
valid query_accounts timestamp_min=18446744073709551614 timestamp_max=18446744073709551614 limit=1
valid get_account_transfers account_id=1 timestamp_min=0 timestamp_max=18446744073709551614 limit=1 flags=3
valid query_accounts timestamp_min=0 timestamp_max=18446744073709551614 limit=1
invalid get_account_transfers account_id=1 timestamp_min=5 timestamp_max=4 limit=1 flags=3
invalid query_accounts timestamp_min=5 timestamp_max=4 limit=1
invalid get_account_transfers account_id=1 timestamp_min=2 timestamp_max=1 limit=1 flags=3
invalid query_accounts timestamp_min=2 timestamp_max=1 limit=1
invalid get_account_transfers account_id=1 timestamp_min=18446744073709551615 timestamp_max=0 limit=1 flags=3
invalid query_accounts timestamp_min=18446744073709551615 timestamp_max=0 limit=1
invalid get_account_transfers account_id=1 timestamp_min=0 timestamp_max=18446744073709551615 limit=1 flags=3
invalid query_accounts timestamp_min=0 timestamp_max=18446744073709551615 limit=1
invalid get_account_transfers account_id=1 timestamp_min=18446744073709551615 timestamp_max=18446744073709551615 limit=1 flags=3
invalid query_accounts timestamp_min=18446744073709551615 timestamp_max=18446744073709551615 limit=1";

/// Whether the filter matches the transfer or the account, and the filter. Bounds are inclusive.
const MATCHES: &str = "\
yes get_account_transfers account_id=1 timestamp_min=0 timestamp_max=0 limit=1 flags=3
yes query_transfers timestamp_min=0 timestamp_max=0 limit=1
yes query_accounts timestamp_min=0 timestamp_max=0 limit=1
yes get_account_transfers account_id=1 timestamp_min=1003 timestamp_max=1003 limit=1 flags=3
yes query_transfers timestamp_min=1003 timestamp_max=1003 limit=1
yes query_accounts timestamp_min=1003 timestamp_max=1003 limit=1
yes get_account_transfers account_id=1 timestamp_min=1003 timestamp_max=0 limit=1 flags=3
yes query_transfers timestamp_min=1003 timestamp_max=0 limit=1
yes query_accounts timestamp_min=1003 timestamp_max=0 limit=1
yes get_account_transfers account_id=1 timestamp_min=0 timestamp_max=1003 limit=1 flags=3
yes query_transfers timestamp_min=0 timestamp_max=1003 limit=1
yes query_accounts timestamp_min=0 timestamp_max=1003 limit=1
yes get_account_transfers account_id=1 timestamp_min=1 timestamp_max=1004 limit=1 flags=3
yes query_transfers timestamp_min=1 timestamp_max=1004 limit=1
yes query_accounts timestamp_min=1 timestamp_max=1004 limit=1
no get_account_transfers account_id=1 timestamp_min=1004 timestamp_max=0 limit=1 flags=3
no query_transfers timestamp_min=1004 timestamp_max=0 limit=1
no query_accounts timestamp_min=1004 timestamp_max=0 limit=1
no get_account_transfers account_id=1 timestamp_min=0 timestamp_max=1002 limit=1 flags=3
no query_transfers timestamp_min=0 timestamp_max=1002 limit=1
no query_accounts timestamp_min=0 timestamp_max=1002 limit=1
no get_account_transfers account_id=1 timestamp_min=18446744073709551614 timestamp_max=0 limit=1 flags=3
no query_transfers timestamp_min=18446744073709551614 timestamp_max=0 limit=1
no query_accounts timestamp_min=18446744073709551614 timestamp_max=0 limit=1
yes get_account_transfers account_id=1 limit=1 flags=1
yes get_account_transfers account_id=1 limit=1 flags=3
yes get_account_transfers account_id=2 limit=1 flags=2
yes get_account_transfers account_id=2 limit=1 flags=3
no get_account_transfers account_id=1 limit=1 flags=2
no get_account_transfers account_id=2 limit=1 flags=1
no get_account_transfers account_id=3 limit=1 flags=3
yes get_account_transfers account_id=1 user_data_128=0 user_data_64=0 user_data_32=0 code=0 limit=1 flags=3
yes query_transfers user_data_128=0 user_data_64=0 user_data_32=0 code=0 ledger=0 limit=1
yes query_accounts user_data_128=0 user_data_64=0 user_data_32=0 code=0 ledger=0 limit=1
yes get_account_transfers account_id=1 user_data_128=7 user_data_64=8 user_data_32=9 code=11 limit=1 flags=3
yes query_transfers user_data_128=7 user_data_64=8 user_data_32=9 code=11 ledger=700 limit=1
yes query_accounts user_data_128=7 user_data_64=8 user_data_32=9 code=11 ledger=700 limit=1
no get_account_transfers account_id=1 user_data_128=6 user_data_64=8 user_data_32=9 code=11 limit=1 flags=3
no query_transfers user_data_128=6 user_data_64=8 user_data_32=9 code=11 ledger=700 limit=1
no query_accounts user_data_128=6 user_data_64=8 user_data_32=9 code=11 ledger=700 limit=1
no get_account_transfers account_id=1 user_data_128=7 user_data_64=6 user_data_32=9 code=11 limit=1 flags=3
no query_transfers user_data_128=7 user_data_64=6 user_data_32=9 code=11 ledger=700 limit=1
no query_accounts user_data_128=7 user_data_64=6 user_data_32=9 code=11 ledger=700 limit=1
no get_account_transfers account_id=1 user_data_128=7 user_data_64=8 user_data_32=6 code=11 limit=1 flags=3
no query_transfers user_data_128=7 user_data_64=8 user_data_32=6 code=11 ledger=700 limit=1
no query_accounts user_data_128=7 user_data_64=8 user_data_32=6 code=11 ledger=700 limit=1
no get_account_transfers account_id=1 user_data_128=7 user_data_64=8 user_data_32=9 code=6 limit=1 flags=3
no query_transfers user_data_128=7 user_data_64=8 user_data_32=9 code=6 ledger=700 limit=1
no query_accounts user_data_128=7 user_data_64=8 user_data_32=9 code=6 ledger=700 limit=1
yes get_account_transfers account_id=1 user_data_128=7 user_data_64=8 user_data_32=9 code=11 limit=1 flags=3
no query_transfers user_data_128=7 user_data_64=8 user_data_32=9 code=11 ledger=6 limit=1
no query_accounts user_data_128=7 user_data_64=8 user_data_32=9 code=11 ledger=6 limit=1";

fn is_valid(query: &Query) -> bool {
    match query {
        Query::AccountTransfers(filter) | Query::AccountBalances(filter) => {
            is_valid_account_filter(filter)
        }
        Query::Accounts(filter) | Query::Transfers(filter) => is_valid_query_filter(filter),
    }
}

fn is_match(query: &Query) -> bool {
    match query {
        Query::AccountTransfers(filter) | Query::AccountBalances(filter) => {
            matches_account_filter(filter, &SALE)
        }
        Query::Accounts(filter) => matches_account(filter, &CASH),
        Query::Transfers(filter) => matches_transfer(filter, &SALE),
    }
}

/// Whether what a word says of a filter is so.
fn is_so(word: &str, query: &Query) -> bool {
    match word {
        "valid" => is_valid(query),
        "invalid" => !is_valid(query),
        "yes" => is_match(query),
        _ => !is_match(query),
    }
}

/// Whether what the first word of a line says of the filter behind it is so.
fn is_line_so(alloc: Global, line: &str) -> Result<bool, Refusal> {
    let (word, filter) = first_word(line);
    let command = last_command(alloc, filter)?;
    Ok(match &command {
        Some(Command::Query(query)) => is_so(word, query),
        _ => false,
    })
}

/// What each line of a table says is so.
fn assert_table(rt: &(impl Abort + AllocGlobal), table: &str) {
    for line in table.lines() {
        let holds = matches!(is_line_so(rt.alloc(), line), Ok(true));
        assert_in(rt, holds, line);
    }
}

#[test]
fn filters_are_valid_and_match_by_their_fields(rt: HostRuntime) {
    assert_table(&rt, VALID);
    assert_table(&rt, MATCHES);
}
