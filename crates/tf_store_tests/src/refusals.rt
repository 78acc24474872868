//! Requests for memory that are refused.

use crate::texts::assert_text;
use std::process::Abort;
use std::sync::Wait;
use tf_text_trials::Fixture;

/// Nothing, which a store without memory isn't there for.
const UNOPENED: &str = "count shares: 0";

#[test]
fn a_store_is_not_opened_without_memory(rt: HostRuntime) {
    let fixture = Fixture {
        lacks_memory: true,
        ..Fixture::USUAL
    };
    assert_text(&rt, fixture, UNOPENED);
}

/// On a heap that has no byte left, a publish hands out the receipts of batches that stored nothing, another one hands out none, a
/// version is taken, and a reader is given one and follows.
const IDLE: &str = "\
accounts | transfers 1 1 | publish: 2
transfers 1 1 | run accounts 0; end
fill 0 | publish: 2 | publish: 0 | take | give 0 | follow 0 | free
ask taken 0 now: 10 | ask given 0 now: 10 | ask held 0 now: 10";

#[test]
fn a_publish_where_nothing_was_stored_takes_no_memory(rt: HostRuntime) {
    assert_text(&rt, Fixture::USUAL, IDLE);
}

/// Four rounds of calls, each refused in turn: the room grows by 144 bytes from three starts, 48 apart, and that of a publish,
/// which takes some 90 KB for the references of all rows, by 720 from three starts, 240 apart. After each refusal all is as before,
/// but for tables that a publish pushed, and at last the call answers as the plain ledger does. The room that a pulse asks for
/// stays, so that later ones may need no more. In each second round a version is taken first, which publishes too, but for
/// receipts: the publish needs no memory then.
const IN_TURN: &str = "\
accounts | publish: 1
grow 144 0 3 | round 0 0 | round 0 1
grow 144 0 1 | round 0 2
grow 720 0 3 | publish: 2
grow 144 48 3 | round 1 0 | round 1 1
grow 144 48 0 | round 1 2
grow 720 240 3 | take | grow | ask taken 0 now: 10 | let_taken
fill 0 | publish: 2 | free
grow 144 96 3 | round 2 0 | round 2 1
grow 144 96 0 | round 2 2
grow 720 480 3 | publish: 2
grow 144 0 3 | round 3 0 | round 3 1
grow 144 0 0 | round 3 2
grow 720 0 3 | take | grow | ask taken 0 now: 10 | let_taken
fill 0 | publish: 2 | free";

#[test]
fn a_store_that_was_refused_memory_is_as_before(rt: HostRuntime) {
    assert_text(&rt, Fixture::USUAL, IN_TURN);
}

/// A round of batches, each with `M` bytes at first and 144 more where it is refused. A heap gives 16 bytes at least, so that starts
/// 16 bytes apart pass over no request.
const EACH_OF_BATCHES: &str = "\
accounts | publish: 1
grow 144 M 3 | round 0 0 | round 0 1
grow 144 M 0 | round 0 2 | grow
publish: 2 | take | ask taken 0 now: 10";

#[test]
fn each_request_of_a_batch_is_refused_in_turn(rt: HostRuntime) {
    for start in 0..9 {
        assert_text(&rt, Fixture::with_parameter(start * 16), EACH_OF_BATCHES);
    }
}

/// A text whose calls have 720 bytes more where they are refused holds with each first room, 16 bytes apart.
fn assert_each<R: Abort + AllocGlobal + Wait>(rt: &R, text: &str) {
    for start in 0..45 {
        assert_text(rt, Fixture::with_parameter(start * 16), text);
    }
}

/// The same of a publish, with 720 bytes more.
const EACH_OF_PUBLISHES: &str = "\
ids 10
accounts | publish: 1
round 0 | grow 720 M 3 | publish: 2 | grow
take | ask taken 0 now: 10";

#[test]
fn each_request_of_a_publish_is_refused_in_turn(rt: HostRuntime) {
    assert_each(&rt, EACH_OF_PUBLISHES);
}

/// A run of each row is merged and installed, each with `M` bytes at first and 720 more where it is refused. An install asks for memory
/// only where the registry grows, which none does here.
const EACH_OF_MERGES: &str = "\
ids 10
accounts | round 0 | publish: 3
repeat 1 4 round N | publish: 2
grow 720 M
repeat 0 21 merge N | install
grow | take | ask taken 0 now: 10";

/// Runs of all rows are merged with 4 KB each, and none with no byte.
const MERGED_IN_LITTLE: &str = "\
accounts | round 0 | publish: 3
repeat 1 4 round N | publish: 2
repeat 0 21 fill 0 | merge N: no_memory | free | fill 4096 | merge N | free";

#[test]
fn each_request_of_a_merge_is_refused_in_turn_before_its_install(rt: HostRuntime) {
    assert_each(&rt, EACH_OF_MERGES);
    assert_text(&rt, Fixture::USUAL, MERGED_IN_LITTLE);
}

/// A chain under a limit fails, and the event behind it is stored. Each call has `M` bytes at first and 720 more where it is refused,
/// here and in the three below.
const CHAIN_UNDER_A_LIMIT: &str = "\
grow 720 M
run accounts 1000; + id=1 ledger=700 code=10 flags=debits_must_not_exceed_credits; + id=2 ledger=700 code=10; end
publish: 1
run transfers 0; \
+ id=10 debit_account_id=2 credit_account_id=1 amount=50 ledger=700 code=1 flags=linked; \
+ id=11 debit_account_id=1 credit_account_id=2 amount=20 ledger=700 code=1 flags=linked; \
+ id=12 debit_account_id=1 credit_account_id=2 amount=31 ledger=700 code=1; \
+ id=13 debit_account_id=2 credit_account_id=1 amount=7 ledger=700 code=1; end
count book: 3 | count clock: 1006
publish: 1 | take
grow | ask taken 0 now: 1";

#[test]
fn each_request_for_a_chain_under_a_limit_is_refused_in_turn(rt: HostRuntime) {
    assert_each(&rt, CHAIN_UNDER_A_LIMIT);
}

/// Two transfers that expire at the same moment, one a pulse.
const SAME_EXPIRY: &str = "\
ids 53 | grow 720 M
run accounts 1000; + id=1 ledger=700 code=10; + id=2 ledger=700 code=10; end
publish: 1
run transfers 0; + id=41 debit_account_id=1 credit_account_id=2 amount=1 ledger=700 code=1 flags=pending timeout=2; end
run transfers 1000001002; \
+ id=42 debit_account_id=1 credit_account_id=2 amount=1 ledger=700 code=1 flags=pending timeout=1; end
run pulse 2000001003 1 | count clock: 2000001004
publish: 2
run pulse 0 1 | count clock: 2000001005
run pulse 0 1 | count clock: 2000001005
publish: 0 | take
grow | ask taken 0 now: 1";

#[test]
fn each_request_for_expiries_of_one_moment_is_refused_in_turn(rt: HostRuntime) {
    assert_each(&rt, SAME_EXPIRY);
}

/// Four tables of the row of expiries are merged, and installed once two transfers have expired and that was published.
const MERGED_EXPIRIES: &str = "\
ids 53 | grow 720 M
run accounts 1000; + id=1 ledger=700 code=10; + id=2 ledger=700 code=10; end
publish: 1
run transfers 0; + id=43 debit_account_id=1 credit_account_id=2 amount=10 ledger=700 code=1 flags=pending timeout=1; end
publish: 1
run transfers 0; + id=44 debit_account_id=1 credit_account_id=2 amount=10 ledger=700 code=1 flags=pending timeout=1; end
publish: 1
run transfers 0; + id=45 debit_account_id=1 credit_account_id=2 amount=10 ledger=700 code=1 flags=pending timeout=1; end
publish: 1
run transfers 0; + id=46 debit_account_id=1 credit_account_id=2 amount=10 ledger=700 code=1 flags=pending timeout=1; end
publish: 1 | merge 18
run pulse 1000001004 10 | count clock: 1000001006
publish: 0 | install | take
grow | ask taken 0 now: 1";

#[test]
fn each_request_for_a_merge_across_a_pulse_is_refused_in_turn(rt: HostRuntime) {
    assert_each(&rt, MERGED_EXPIRIES);
}

/// Balances of an account with history, of which one pending transfer expires and the other is posted.
const HISTORY: &str = "\
ids 53 | grow 720 M
run accounts 1000; + id=1 ledger=700 code=10 flags=history; + id=2 ledger=700 code=10; end
publish: 1
run transfers 0; \
+ id=50 debit_account_id=1 credit_account_id=2 amount=10 ledger=700 code=1 flags=pending timeout=1; \
+ id=51 debit_account_id=1 credit_account_id=2 amount=20 ledger=700 code=1 flags=pending; end
publish: 1
run pulse 1000001003 10 | count clock: 1000001004
run transfers 0; \
+ id=52 pending_id=51 amount=max flags=post_pending_transfer; end
count clock: 1000001005
publish: 1 | take
grow | ask taken 0 now: 1";

#[test]
fn each_request_for_balances_is_refused_in_turn(rt: HostRuntime) {
    assert_each(&rt, HISTORY);
}

/// Calls with so many bytes left of the heap, whatever is refused.
const DROPPED: &str = "\
accounts | round 0 | publish: 3
fill M | round 1 0: any | free
fill M | round 1 1: any | free
fill M | round 1 2: any | free
fill M | take: any | publish: any | free";

#[test]
fn a_store_that_is_dropped_after_refusals_frees_its_heap(rt: HostRuntime) {
    for room in 0..40 {
        assert_text(&rt, Fixture::with_parameter(room * 256), DROPPED);
    }
}
