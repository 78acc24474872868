//! Shares, receipts and expiries.

use crate::texts::assert_text;
use tf_text_trials::Fixture;

/// The first share stores five, and each other one a transfer.
const SHARES: &str = "\
count shares: 64 | count readers: 1
ids 70
accounts | count share: 4
transfers 100 1 | count share: 5
repeat 1 64 by N | count share: 0 | transfers N 1 | count share: 1
by 0 | count share: 5
count book: 68 | count facts: 68 | count failed: 0";

#[test]
fn each_of_64_shares_counts_what_was_stored_with_it(rt: HostRuntime) {
    assert_text(&rt, Fixture::USUAL, SHARES);
}

/// Batches that two workers store in turn: some events fail, all of them, or there are none. The second transfer fails for a
/// passing reason, and its id stays failed. A publish hands out all receipts, the next one none, and a later one that of the
/// batch since then.
const RECEIPTS: &str = "\
run accounts 1000; + id=1 ledger=700 code=10 flags=debits_must_not_exceed_credits; + id=2 ledger=700 code=10; + id=3 ledger=700; end
by 1
run transfers 0; + id=5 debit_account_id=2 credit_account_id=1 amount=30 ledger=700 code=1; + id=6 debit_account_id=1 credit_account_id=2 amount=31 ledger=700 code=1; + id=7 debit_account_id=1 credit_account_id=2 amount=30 ledger=700 code=1; end
by 0
run accounts 0; + id=2 ledger=700 code=10; + ledger=700 code=10; end
by 1
run transfers 5000; end
by 0
run accounts 0; end
by 1
run transfers 0; + id=6 debit_account_id=2 credit_account_id=1 amount=1 ledger=700 code=1; end
publish: 6
receipt 0 0: 2=code_must_not_be_zero
receipt 1 1003: 1=exceeds_credits
receipt 2 1006: 0=exists 1=id_must_not_be_zero
receipt 3 1008: none
receipt 4 5000: none
receipt 5 5000: 0=id_already_failed
count share: 2 | by 0 | count share: 2
count book: 4 | count facts: 4 | count failed: 1
publish: 0
run transfers 0; + id=8 debit_account_id=2 credit_account_id=1 amount=1 ledger=700 code=1; end
publish: 1 | receipt 0 5001: none
count share: 3 | by 1 | count share: 2";

#[test]
fn a_publish_hands_out_the_receipts_of_all_that_waited(rt: HostRuntime) {
    assert_text(&rt, Fixture::USUAL, RECEIPTS);
}

/// Two accounts and four pending transfers, of which three have a timeout. The second worker expires two of them and then the
/// third.
const EXPIRIES: &str = "\
run accounts 1000; + id=1 ledger=700 code=10; + id=2 ledger=700 code=10; end
by 1 | run pulse 2000 10 | by 0
run transfers 3000; + id=5 debit_account_id=2 credit_account_id=1 amount=30 ledger=700 code=1 flags=pending timeout=1; + id=6 debit_account_id=2 credit_account_id=1 amount=30 ledger=700 code=1 flags=pending timeout=1; + id=7 debit_account_id=2 credit_account_id=1 amount=30 ledger=700 code=1 flags=pending timeout=1; + id=8 debit_account_id=2 credit_account_id=1 amount=30 ledger=700 code=1 flags=pending; end
count share: 6
by 1 | run pulse 2000000000 2 | count share: 2
publish: 2
run pulse 2000000000 10 | count share: 3
run pulse 3000000000 10 | count share: 3
count book: 9 | count facts: 9 | count failed: 0
publish: 0";

#[test]
fn expiries_count_in_a_share_and_leave_no_receipt(rt: HostRuntime) {
    assert_text(&rt, Fixture::USUAL, EXPIRIES);
}
