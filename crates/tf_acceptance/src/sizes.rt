//! The largest batches, pulses, look-ups and answers, and sizes past each at which a growth could be given up.

use crate::spelling::spelled_out;
use std::alloc::Global;
use std::process::Abort;
use std::sync::Wait;
use std::test::Fail;
use tf_main::run_script_plainly;
use tf_served::run_script;

/// What a script prints over the plain ledger.
fn printed_plainly(alloc: Global, short: &str) -> Result<Vec<u8>, Fail> {
    let script = spelled_out(alloc, short)?;
    let mut out = Vec::new(alloc);
    run_script_plainly(alloc, script.as_bytes(), &mut out)?;
    Ok(out)
}

/// What it prints over a store.
fn printed<R: AllocGlobal + Wait>(rt: &R, short: &str) -> Result<Vec<u8>, Fail> {
    let script = spelled_out(rt.alloc(), short)?;
    let mut out = Vec::new(rt.alloc());
    run_script(rt, rt.alloc(), script.as_bytes(), &mut out)?;
    Ok(out)
}

/// How many line feeds bytes have.
fn line_count(bytes: &[u8]) -> usize {
    bytes.iter().filter(|byte| **byte == b'\n').count()
}

/// A script prints this over the plain ledger.
fn assert_prints(rt: &(impl Abort + AllocGlobal), short: &str, answer: &str) -> Result<(), Fail> {
    let out = printed_plainly(rt.alloc(), short)?;
    assert!(rt; out.as_slice() == answer.as_bytes());
    Ok(())
}

/// A script prints the same over a store as over the plain ledger, in so many lines, of which these are the last.
fn assert_alike<R: Abort + AllocGlobal + Wait>(
    rt: &R,
    short: &str,
    lines: usize,
    end: &str,
) -> Result<(), Fail> {
    let plainly = printed_plainly(rt.alloc(), short)?;
    let out = printed(rt, short)?;
    assert!(rt; out.as_slice() == plainly.as_slice());
    assert!(rt; line_count(out.as_slice()) == lines);
    assert!(rt; out.as_slice().ends_with(end.as_bytes()));
    Ok(())
}

/// What a script prints over a store ends so.
fn assert_ends<R: Abort + AllocGlobal + Wait>(rt: &R, short: &str, end: &str) -> Result<(), Fail> {
    let out = printed(rt, short)?;
    assert!(rt; out.as_slice().ends_with(end.as_bytes()));
    Ok(())
}

#[test]
fn a_batch_has_at_most_8190_events(rt: HostRuntime) -> Result<(), Fail> {
    const BATCHES: &str = "\
accounts 1000
@events 1 2 0 ledger=700 code=10
end
transfers 0
@events 1 8191 0 debit_account_id=1 credit_account_id=2 amount=1 ledger=700 code=1
end
transfers 0
@events 1 8190 0 debit_account_id=1 credit_account_id=2 amount=1 ledger=700 code=1
end
transfers 0
@events 10001 18190 0 debit_account_id=1 credit_account_id=2 amount=3 ledger=700 code=1 flags=pending
end
lookup_accounts 1";
    assert_prints(
        &rt,
        BATCHES,
        "\
clock 1002
refused batch_too_large
clock 9192
clock 17382
account id=1 debits_pending=24570 debits_posted=8190 credits_pending=0 credits_posted=0 user_data_128=0 user_data_64=0 user_data_32=0 ledger=700 code=10 flags=0 timestamp=1001
rows 1
",
    )
}

#[test]
fn a_batch_too_large_is_that_whatever_its_moment(rt: HostRuntime) -> Result<(), Fail> {
    const LATE: &str = "\
accounts 1000
@events 1 2 0 ledger=700 code=10
end
transfers max
@events 1 8191 0 debit_account_id=1 credit_account_id=2 amount=1 ledger=700 code=1
end
transfers max
@events 1 1 0 debit_account_id=1 credit_account_id=2 amount=1 ledger=700 code=1
end
transfers 9223372036854767618
@events 1 8190 0 debit_account_id=1 credit_account_id=2 amount=1 ledger=700 code=1
end";
    assert_prints(
        &rt,
        LATE,
        "clock 1002\nrefused batch_too_large\nrefused clock_exhausted\nrefused clock_exhausted\n",
    )
}

/// The clock moves by as many events as a batch has, though none of them is an account.
#[test]
fn a_batch_that_fails_has_8190_events(rt: HostRuntime) -> Result<(), Fail> {
    const FAILING: &str = "\
accounts 0
@events 1 8190 0 code=10
end
query_accounts limit=1";
    assert_alike(
        &rt,
        FAILING,
        8190 + 2,
        "8189 ledger_must_not_be_zero\nclock 8190\nrows 0\n",
    )
}

/// A chain has as many links as a batch has events. It is stored whole, or fails whole by its last link.
#[test]
fn a_chain_has_8190_links(rt: HostRuntime) -> Result<(), Fail> {
    const CHAINS: &str = "\
accounts 0
@events 1 8189 0 ledger=700 code=10 flags=linked
@events 8190 8190 0 ledger=700 code=10
end
accounts 0
@events 10001 18189 0 ledger=700 code=10 flags=linked
@events 18190 18190 0 code=10
end
transfers 0
@events 1 8189 0 debit_account_id=1 credit_account_id=2 amount=1 ledger=700 code=1 flags=linked
@events 8190 8190 0 debit_account_id=1 credit_account_id=2 amount=1 ledger=700 code=1
end
transfers 0
@events 10001 18189 0 debit_account_id=1 credit_account_id=2 amount=1 ledger=700 code=1 flags=linked
@events 18190 18190 0 debit_account_id=1 credit_account_id=2 amount=1 code=1
end
query_accounts limit=1 flags=reversed
lookup_accounts 1";
    assert_ends(
        &rt,
        CHAINS,
        "\
8188 linked_event_failed
8189 ledger_must_not_be_zero
clock 32760
account id=8190 debits_pending=0 debits_posted=0 credits_pending=0 credits_posted=0 user_data_128=0 user_data_64=0 user_data_32=0 ledger=700 code=10 flags=0 timestamp=8190
rows 1
account id=1 debits_pending=0 debits_posted=8190 credits_pending=0 credits_posted=0 user_data_128=0 user_data_64=0 user_data_32=0 ledger=700 code=10 flags=1 timestamp=1
rows 1
",
    )
}

#[test]
fn a_pulse_expires_at_most_8190(rt: HostRuntime) -> Result<(), Fail> {
    const PENDING: &str = "\
accounts 1000
@events 1 2 0 ledger=700 code=10
end
@batches transfers 1 8191 0 debit_account_id=1 credit_account_id=2 amount=1 ledger=700 code=1 flags=pending timeout=1
pulse 9000000000 max
pulse 0 max
pulse 0 max";
    assert_prints(
        &rt,
        PENDING,
        "clock 1002\nclock 9192\nclock 9193\n\
         expired 8190\nclock 9000008190\nexpired 1\nclock 9000008191\nexpired 0\nclock 9000008191\n",
    )
}

#[test]
fn a_look_up_has_at_most_8190_ids(rt: HostRuntime) -> Result<(), Fail> {
    const LOOK_UPS: &str = "\
@ids 1 8190 lookup_accounts
@ids 1 8191 lookup_accounts
@ids 1 8191 lookup_transfers";
    assert_prints(
        &rt,
        LOOK_UPS,
        "rows 0\nrefused batch_too_large\nrefused batch_too_large\n",
    )
}

#[test]
fn an_answer_has_at_most_8190_rows(rt: HostRuntime) -> Result<(), Fail> {
    const ANSWERS: &str = "\
accounts 1000
@events 1 2 0 ledger=700 code=10
end
@batches transfers 1 8192 0 debit_account_id=1 credit_account_id=2 amount=1 ledger=700 code=1
query_transfers limit=max
get_account_transfers account_id=1 limit=8191 flags=debits|reversed";
    // three clocks, and twice 8,190 rows with their count
    assert_alike(&rt, ANSWERS, 3 + 2 * 8191, "timestamp=1005\nrows 8190\n")
}

/// Each query and look-up answers as many rows as it may, by one field and by several, before and after a compaction.
#[test]
fn each_query_answers_8190_rows(rt: HostRuntime) -> Result<(), Fail> {
    const ACCOUNTS: &str = "\
@batches accounts 1 8190 0 ledger=700 code=10 user_data_32=7
query_accounts limit=8190
query_accounts user_data_32=7 ledger=700 code=10 limit=8190 flags=reversed
@ids 1 8190 lookup_accounts";
    // a clock, and three answers with their counts
    assert_alike(&rt, ACCOUNTS, 1 + 3 * 8191, "timestamp=8190\nrows 8190\n")?;
    const TRANSFERS: &str = "\
@batches accounts 1 2 0 ledger=700 code=10 flags=history
@batches transfers 1 8190 0 debit_account_id=1 credit_account_id=2 amount=1 ledger=700 code=1 user_data_128=5 user_data_64=6 user_data_32=7
query_transfers limit=8190 flags=reversed
query_transfers user_data_128=5 user_data_64=6 user_data_32=7 ledger=700 code=1 limit=8190
get_account_transfers account_id=1 limit=8190 flags=debits|credits
get_account_transfers account_id=2 user_data_128=5 user_data_64=6 user_data_32=7 code=1 limit=8190 flags=credits|reversed
get_account_balances account_id=1 limit=8190 flags=debits
@ids 1 8190 lookup_transfers
compact
query_transfers user_data_128=5 user_data_64=6 user_data_32=7 limit=8190
get_account_balances account_id=2 user_data_64=6 code=1 limit=8190 flags=credits";
    // two clocks, eight answers with their counts, and a compaction
    assert_alike(
        &rt,
        TRANSFERS,
        2 + 8 * 8191 + 1,
        "timestamp=8192\nrows 8190\n",
    )
}

/// A script has a hundred thousand commands, and lines as long as look-ups can make them.
#[test]
fn a_script_has_100000_commands(rt: HostRuntime) -> Result<(), Fail> {
    const COMMANDS: &str = "\
@times 100000 lookup_accounts 1
@ids 4000000000 4000008189 lookup_transfers";
    assert_alike(&rt, COMMANDS, 100_001, "rows 0\n")
}

/// What is published at once is a hundred thousand accounts, transfers with history, pending transfers, posts, voids, expiries or ids
/// that failed.
#[test]
fn a_publish_has_100000_entries_of_each_kind(rt: HostRuntime) -> Result<(), Fail> {
    const ENTRIES: &str = "\
accounts 0
@events 1 2 0 ledger=700 code=10 flags=history
@events 3 3 0 ledger=700 code=10 flags=debits_must_not_exceed_credits
end
publish
@batches accounts 1000001 1100000 0 ledger=700 code=10
publish
lookup_accounts 1000001 1100000
@batches transfers 1 100000 0 debit_account_id=1 credit_account_id=2 amount=1 ledger=700 code=1
publish
get_account_balances account_id=1 limit=1 flags=debits|reversed
@batches transfers 200001 300000 0 debit_account_id=1 credit_account_id=2 amount=1 ledger=700 code=1 flags=pending
publish
@batches transfers 300001 400000 100000 pending_id=# amount=max flags=post_pending_transfer
publish
lookup_transfers 400000
@batches transfers 500001 600000 0 debit_account_id=1 credit_account_id=2 amount=1 ledger=700 code=1 flags=pending
publish
@batches transfers 600001 700000 100000 pending_id=# flags=void_pending_transfer
publish
lookup_transfers 700000
@batches transfers 800001 900000 0 debit_account_id=1 credit_account_id=2 amount=1 ledger=700 code=1 flags=pending timeout=1
publish
@times 13 pulse 9000000000 max
publish
@batches transfers 900001 1000000 0 debit_account_id=3 credit_account_id=2 amount=1 ledger=700 code=1
publish
compact
lookup_accounts 3 2 1";
    assert_ends(
        &rt,
        ENTRIES,
        "\
account id=3 debits_pending=0 debits_posted=0 credits_pending=0 credits_posted=0 user_data_128=0 user_data_64=0 user_data_32=0 ledger=700 code=10 flags=2 timestamp=3
account id=2 debits_pending=0 debits_posted=0 credits_pending=0 credits_posted=200000 user_data_128=0 user_data_64=0 user_data_32=0 ledger=700 code=10 flags=8 timestamp=2
account id=1 debits_pending=0 debits_posted=200000 credits_pending=0 credits_posted=0 user_data_128=0 user_data_64=0 user_data_32=0 ledger=700 code=10 flags=8 timestamp=1
rows 3
",
    )
}
