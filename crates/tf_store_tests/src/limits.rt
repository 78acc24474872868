//! Limits of tables and of batches.

use crate::texts::assert_text;
use tf_text_trials::Fixture;

/// Accounts and a transfer of one with history need 18 tables: eight of accounts, nine of transfers and one of history. Under a
/// limit of 17 they are never published, and the store goes on without.
const FULL: &str = "\
accounts | by 1 | transfers 1 1
note | publish: registry_full | take: registry_full | same
by 0 | transfers 2 1 | by 1 | transfers 1 1
note | publish: registry_full | take: registry_full | same
count registered: 0
count share: 1 | by 0 | count share: 5";

/// Under a limit of 18 these are published, and so is a batch that stores nothing. One that stores something isn't. The accounts
/// have eight rows each, the transfer nine, and its account one of history.
const FITS: &str = "\
accounts | transfers 1 1
publish: 2
count registered: 18 | count sealed: 42 | count held: 42
transfers 1 1 | publish: 1
transfers 2 1 | note | publish: registry_full | take: registry_full | same";

/// Two accounts push eight tables, and a transfer of theirs ten. Under a limit of 17 it is stored and not published.
const HALF_FULL: &str = "\
run accounts 1000; + id=1 ledger=700 code=10; + id=2 ledger=700 code=10; end
publish: 1 | count registered: 8
run transfers 0; + id=5 debit_account_id=1 credit_account_id=2 amount=30 ledger=700 code=1; end
note | publish: registry_full | publish: registry_full | same
count registered: 8 | count book: 3";

/// Under a limit of 18 it is published.
const FITS_LAST: &str = "\
run accounts 1000; + id=1 ledger=700 code=10; + id=2 ledger=700 code=10; end
publish: 1 | count registered: 8
run transfers 0; + id=5 debit_account_id=1 credit_account_id=2 amount=30 ledger=700 code=1; end
publish: 1 | count registered: 18 | count book: 3";

#[test]
fn a_publish_of_18_tables_is_refused_under_a_limit_of_17_alone(rt: HostRuntime) {
    assert_text(&rt, Fixture::with_limit(17), FULL);
    assert_text(&rt, Fixture::with_limit(18), FITS);
    assert_text(&rt, Fixture::with_limit(17), HALF_FULL);
    assert_text(&rt, Fixture::with_limit(18), FITS_LAST);
}

/// Five publishes push as many tables as may be pushed. Then an install is refused, and changes nothing.
const FULL_INSTALL: &str = "\
accounts | transfers 1 1 | publish: 2
repeat 2 6 transfers N 1 | publish: 1
count registered: 62
note | merge 9 | same
install: registry_full | same
install: nothing";

#[test]
fn an_install_past_the_limit_is_refused(rt: HostRuntime) {
    assert_text(&rt, Fixture::with_limit(18 + 4 * 11), FULL_INSTALL);
}

/// Batches past their limits are refused on a heap that has no byte left, and change nothing. The greatest ones are stored, up to
/// the end of the clock, after which only batches without events are.
const BATCHES: &str = "\
accounts
run transfers 0; + id=1 debit_account_id=1 credit_account_id=2 amount=1 ledger=700 code=1 flags=pending timeout=1; end
note | fill 0
failing_accounts 8191 0: batch_too_large
failing_transfers 8191 9223372036854775807: batch_too_large
failing_accounts 1 9223372036854775807: clock_exhausted
failing_transfers 1 9223372036854775807: clock_exhausted
failing_accounts 8190 9223372036854767618: clock_exhausted
failing_transfers 0 9223372036854775808: clock_exhausted
free | same
accounts
run transfers 0; + id=1 debit_account_id=1 credit_account_id=2 amount=1 ledger=700 code=1 flags=pending timeout=1; end
failing_accounts 8190 0
failing_transfers 8190 9223372036854767617
failing_transfers 0 0
failing_transfers 1 0: clock_exhausted
run pulse 0 1: clock_exhausted
run pulse 0 0
count clock: 9223372036854775807
publish: 7";

#[test]
fn batches_past_their_limits_are_refused_before_memory_is_taken(rt: HostRuntime) {
    assert_text(&rt, Fixture::USUAL, BATCHES);
}

/// After 64 publishes each of eleven rows is full. From then on a publish merges a run in each of them before it pushes a table there.
const FULL_ROWS: &str = "\
accounts | transfers 1 1 | publish: 2
repeat 2 65 transfers N 1 | publish: 1
count registered: 711
repeat 65 69 transfers N 1 | publish: 1 | take | ask taken 0 now: 300 | let_taken
count registered: 799";

#[test]
fn a_publish_merges_a_run_of_each_full_row(rt: HostRuntime) {
    assert_text(&rt, Fixture::USUAL, FULL_ROWS);
}

/// Two thousand transfers are published at once, in a table for each row.
const MANY: &str = "\
ids 0
accounts | transfers 1 2000 | publish: 2
count registered: 18
take | ask taken 0 now: 1000";

#[test]
fn a_batch_of_two_thousand_is_published_at_once(rt: HostRuntime) {
    assert_text(&rt, Fixture::with_room(1 << 24), MANY);
}
