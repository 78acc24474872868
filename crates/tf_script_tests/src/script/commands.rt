use super::{WHOLE, only_command};
use crate::asserts::{assert_at, assert_in};
use crate::tables::{place_and_script, unescaped};
use linked_list_allocator::LocalHeap;
use std::alloc::{Allocator, Global};
use std::process::Abort;
use std::test::Fail;
use tf_records::{Account, AccountFilter, QueryFilter, Refusal, Transfer};
use tf_script::{Command, Query, parse};

const ACCOUNT: Account = Account {
    id: 0,
    debits_pending: 0,
    debits_posted: 0,
    credits_pending: 0,
    credits_posted: 0,
    user_data_128: 0,
    user_data_64: 0,
    user_data_32: 0,
    reserved: 0,
    ledger: 0,
    code: 0,
    flags: 0,
    timestamp: 0,
};

const TRANSFER: Transfer = Transfer {
    id: 0,
    debit_account_id: 0,
    credit_account_id: 0,
    amount: 0,
    pending_id: 0,
    user_data_128: 0,
    user_data_64: 0,
    user_data_32: 0,
    timeout: 0,
    ledger: 0,
    code: 0,
    flags: 0,
    timestamp: 0,
};

/// The accounts of `WHOLE`: two by their fields, one by its bytes.
const ACCOUNTS: [Account; 3] = [
    Account {
        id: 1,
        debits_pending: 2,
        debits_posted: 3,
        credits_pending: 4,
        credits_posted: 5,
        user_data_128: 6,
        ..ACCOUNT
    },
    Account {
        user_data_64: 7,
        user_data_32: 8,
        reserved: 9,
        ledger: 10,
        code: 11,
        flags: 9,
        timestamp: 12,
        ..ACCOUNT
    },
    Account {
        id: 1,
        debits_pending: 2,
        debits_posted: 3,
        credits_pending: 4,
        credits_posted: 5,
        user_data_128: 6,
        user_data_64: 7,
        user_data_32: 8,
        reserved: 9,
        ledger: 10,
        code: 11,
        flags: 12,
        timestamp: 13,
    },
];

/// The transfers of `WHOLE`: three by their fields, one by its bytes in digits of either case.
const TRANSFERS: [Transfer; 4] = [
    Transfer {
        id: 1,
        debit_account_id: 2,
        credit_account_id: 3,
        amount: u128::MAX,
        pending_id: 5,
        user_data_128: 6,
        user_data_64: u64::MAX,
        ..TRANSFER
    },
    Transfer {
        user_data_32: u32::MAX,
        timeout: 8,
        ledger: u32::MAX,
        code: u16::MAX,
        flags: 130,
        timestamp: 12,
        ..TRANSFER
    },
    Transfer {
        flags: u16::MAX,
        timestamp: u64::MAX,
        ..TRANSFER
    },
    Transfer {
        id: 0xA0,
        debit_account_id: 0xA1,
        credit_account_id: 0xA2,
        amount: 0xA3,
        pending_id: 0xA4,
        user_data_128: 0xA5,
        user_data_64: 0xA6,
        user_data_32: 0xA7,
        timeout: 0xA8,
        ledger: 0xA9,
        code: 0xAA,
        flags: 0xAB,
        timestamp: 0xAC,
    },
];

const ACCOUNT_FILTER: AccountFilter = AccountFilter {
    account_id: 0,
    user_data_128: 0,
    user_data_64: 0,
    user_data_32: 0,
    code: 0,
    reserved: [0; 58],
    timestamp_min: 0,
    timestamp_max: 0,
    limit: 0,
    flags: 0,
};

const QUERY_FILTER: QueryFilter = QueryFilter {
    user_data_128: 0,
    user_data_64: 0,
    user_data_32: 0,
    ledger: 0,
    code: 0,
    reserved: [0; 6],
    timestamp_min: 0,
    timestamp_max: 0,
    limit: 0,
    flags: 0,
};

/// The filter of an account in the digits of `WHOLE`, which has a reserved byte.
fn raw_account_filter() -> AccountFilter {
    let mut reserved = [0; 58];
    reserved[57] = 6;
    AccountFilter {
        account_id: 1,
        user_data_128: 2,
        user_data_64: 3,
        user_data_32: 4,
        code: 5,
        reserved,
        timestamp_min: 7,
        timestamp_max: 8,
        limit: 9,
        flags: 10,
    }
}

/// The filter of all records in the digits of `WHOLE`, which has a reserved byte.
const RAW_QUERY_FILTER: QueryFilter = QueryFilter {
    user_data_128: 1,
    user_data_64: 2,
    user_data_32: 3,
    ledger: 4,
    code: 5,
    reserved: [0, 0, 0, 0, 0, 6],
    timestamp_min: 7,
    timestamp_max: 8,
    limit: 9,
    flags: 0xABCDEF,
};

/// Whether a command is the one of that place in `WHOLE`.
fn is_expected<A: Allocator>(place: usize, command: &Command<A>) -> bool {
    match command {
        Command::Accounts { now, events } => {
            place == 0 && *now == 1000 && events.as_slice() == ACCOUNTS.as_slice()
        }
        Command::Transfers { now, events } => {
            place == 1 && *now == u64::MAX && events.as_slice() == TRANSFERS.as_slice()
        }
        Command::Pulse { now, max } => place == 2 && *now == 20 && *max == 30,
        Command::Publish => place == 3,
        Command::Compact => place == 4,
        Command::Query(query) => match place {
            5 => *query
                == Query::AccountTransfers(AccountFilter {
                    account_id: 1,
                    flags: 2,
                    ..ACCOUNT_FILTER
                }),
            6 => *query == Query::AccountBalances(raw_account_filter()),
            7 => *query
                == Query::Accounts(QueryFilter {
                    ledger: 700,
                    ..QUERY_FILTER
                }),
            8 => *query == Query::Transfers(RAW_QUERY_FILTER),
            _ => false,
        },
        Command::LookupAccounts(ids) => {
            place == 9 && ids.as_slice() == [1, u128::MAX].as_slice()
        }
        Command::LookupTransfers(ids) => place == 10 && ids.is_empty(),
    }
}

/// These are the commands of the whole script.
fn assert_expected(rt: &impl Abort, commands: &[Command<Global>]) {
    assert!(rt; commands.len() == 11);
    for (place, command) in commands.iter().enumerate() {
        assert_at(rt, is_expected(place, command), "command", place as u64);
    }
}

#[test]
fn every_command_is_read(rt: HostRuntime) -> Result<(), Fail> {
    let commands = parse(rt.alloc(), WHOLE.as_bytes())?;
    assert_expected(&rt, &commands);
    Ok(())
}

#[test]
fn a_script_may_have_many_commands(rt: HostRuntime) -> Result<(), Fail> {
    let mut script = String::new(rt.alloc());
    for _ in 0..10_000u32 {
        script.push_str("publish\n")?;
    }
    assert!(rt; parse(rt.alloc(), script.as_bytes())?.len() == 10_000);
    Ok(())
}

/// A query by its fields, and the same by its bytes.
const QUERIES: &str = "\
get_account_transfers account_id=1 user_data_128=2 user_data_64=3 user_data_32=4 code=5 timestamp_min=6 timestamp_max=7 limit=8 flags=debits|reversed = get_account_transfers raw 0100000000000000000000000000000002000000000000000000000000000000030000000000000004000000050000000000000000000000000000000000000000000000000000000000000000000000000000000000000000000000000000000000000000000000060000000000000007000000000000000800000005000000
get_account_balances flags=reversed|debits limit=8 timestamp_max=7 timestamp_min=6 code=5 user_data_32=4 user_data_64=3 user_data_128=2 account_id=1 = get_account_balances raw 0100000000000000000000000000000002000000000000000000000000000000030000000000000004000000050000000000000000000000000000000000000000000000000000000000000000000000000000000000000000000000000000000000000000000000060000000000000007000000000000000800000005000000
query_accounts user_data_128=2 user_data_64=3 user_data_32=4 ledger=5 code=6 timestamp_min=7 timestamp_max=8 limit=max flags=reversed = query_accounts raw 0200000000000000000000000000000003000000000000000400000005000000060000000000000007000000000000000800000000000000ffffffff01000000
query_transfers flags=1 limit=4294967295 timestamp_max=8 timestamp_min=7 code=6 ledger=5 user_data_32=4 user_data_64=3 user_data_128=2 = query_transfers raw 0200000000000000000000000000000003000000000000000400000005000000060000000000000007000000000000000800000000000000ffffffff01000000
get_account_transfers = get_account_transfers raw 0000000000000000000000000000000000000000000000000000000000000000000000000000000000000000000000000000000000000000000000000000000000000000000000000000000000000000000000000000000000000000000000000000000000000000000000000000000000000000000000000000000000000000
get_account_balances = get_account_balances raw 0000000000000000000000000000000000000000000000000000000000000000000000000000000000000000000000000000000000000000000000000000000000000000000000000000000000000000000000000000000000000000000000000000000000000000000000000000000000000000000000000000000000000000
query_accounts = query_accounts raw 00000000000000000000000000000000000000000000000000000000000000000000000000000000000000000000000000000000000000000000000000000000
query_transfers = query_transfers raw 00000000000000000000000000000000000000000000000000000000000000000000000000000000000000000000000000000000000000000000000000000000";

/// Whether the commands of two scripts are the same query.
fn are_same(one: &Option<Command<Global>>, other: &Option<Command<Global>>) -> bool {
    match (one, other) {
        (Some(Command::Query(one)), Some(Command::Query(other))) => one == other,
        _ => false,
    }
}

/// Whether both queries of a line are the same.
fn reads_alike(alloc: Global, line: &str) -> Result<bool, Refusal> {
    let (fields, bytes) = line.split_once(" = ").unwrap_or((line, ""));
    let by_fields = only_command(alloc, fields.as_bytes())?;
    let by_bytes = only_command(alloc, bytes.as_bytes())?;
    Ok(are_same(&by_fields, &by_bytes))
}

#[test]
fn each_query_has_its_fields(rt: HostRuntime) -> Result<(), Fail> {
    for line in QUERIES.lines() {
        assert_in(&rt, reads_alike(rt.alloc(), line)?, line);
    }
    Ok(())
}

#[test]
fn refused_memory_changes_no_answer(rt: HostRuntime) -> Result<(), Fail> {
    match parse(rt.alloc(), WHOLE.as_bytes()) {
        Ok(commands) => assert_expected(&rt, &commands),
        Err(refusal) => assert!(rt; refusal == Refusal::NoMemory),
    }
    Ok(())
}

/// Scripts as `unescaped` reads them. Without a fault they want memory.
const WITHOUT_MEMORY: &str = r"none publish
none accounts 1\n+\nend
none lookup_accounts 1 2 3
3 1 publish\npublish\npublished
4 1 accounts 1\n+\n+
1 21 lookup_accounts 1 2 x
4 1 publish\naccounts 1\nend\nend";

/// Whether a script has its fault where its line says, or is refused for want of memory, which this allocator has none of.
fn is_refused<A: Allocator + Clone>(
    rt: &(impl Abort + AllocGlobal),
    alloc: A,
    line: &str,
) -> Result<bool, Refusal> {
    let (place, script) = place_and_script(rt, line);
    let script = unescaped(rt.alloc(), script)?;
    let refusal = parse(alloc, &script).err();
    Ok(match place {
        Some((line, column)) => refusal == Some(Refusal::BadLine { line, column }),
        None => refusal == Some(Refusal::NoMemory),
    })
}

fn assert_refused<A: Allocator + Copy>(
    rt: &(impl Abort + AllocGlobal),
    alloc: A,
) -> Result<(), Refusal> {
    for line in WITHOUT_MEMORY.lines() {
        assert_in(rt, is_refused(rt, alloc, line)?, line);
    }
    Ok(())
}

/// A heap with no room for a command.
#[test]
fn a_fault_comes_before_want_of_memory(rt: HostRuntime) -> Result<(), Fail> {
    let heap = LocalHeap::new(rt.alloc(), 64)?;
    let refused = assert_refused(&rt, &heap);
    drop(heap);
    Ok(refused?)
}
