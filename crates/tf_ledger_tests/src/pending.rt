//! That posts and voids of each kind are judged as the reference does.

use crate::asked::assert_text;

/// A pending transfer of 40 that expires two seconds after timestamp 3, while both accounts are open.
const OPEN: [[&str; 2]; 1] = [[
    "accounts 0
+ id=1 user_data_128=7 user_data_64=8 user_data_32=9 ledger=1 code=10
+ id=2 user_data_128=7 user_data_64=8 user_data_32=9 ledger=1 code=10
end
transfers 0
+ id=5 debit_account_id=1 credit_account_id=2 amount=40 user_data_128=3 user_data_64=4 user_data_32=5 timeout=2 ledger=1 code=11 flags=pending
end",
    "transfers settling ok at 9 + id=8 amount=max pending_id=5 user_data_32=6 flags=post_pending_transfer
transfers settling ok at 2000000002 + id=8 pending_id=5 user_data_32=6 flags=void_pending_transfer
transfers settling pending_transfer_expired at 2000000003 + id=8 amount=max pending_id=5 user_data_32=6 flags=post_pending_transfer
transfers settling exceeds_pending_transfer_amount at 9 + id=8 amount=41 pending_id=5 user_data_32=6 flags=post_pending_transfer
transfers settling exceeds_pending_transfer_amount at 9 + id=8 amount=max pending_id=5 user_data_32=6 flags=void_pending_transfer
transfers settling pending_transfer_has_different_amount at 9 + id=8 amount=39 pending_id=5 user_data_32=6 flags=void_pending_transfer
transfers settling pending_transfer_has_different_code at 9 + id=8 amount=max pending_id=5 user_data_32=6 code=12 flags=post_pending_transfer
transfers settling pending_transfer_not_found at 9 + id=8 amount=max pending_id=7 user_data_32=6 flags=post_pending_transfer
transfers settling pending_id_must_be_different at 9 + id=8 amount=max pending_id=8 user_data_32=6 flags=post_pending_transfer
transfers settling exists_with_different_flags at 9 + id=5 amount=max pending_id=7 user_data_32=6 flags=post_pending_transfer
transfers settled at 9 + id=8 amount=max pending_id=5 user_data_32=6 flags=post_pending_transfer -> + id=8 debit_account_id=1 credit_account_id=2 amount=40 pending_id=5 user_data_128=3 user_data_64=4 user_data_32=6 ledger=1 code=11 flags=post_pending_transfer timestamp=9
transfers settled at 9 + id=8 pending_id=5 user_data_32=6 flags=post_pending_transfer -> + id=8 debit_account_id=1 credit_account_id=2 pending_id=5 user_data_128=3 user_data_64=4 user_data_32=6 ledger=1 code=11 flags=post_pending_transfer timestamp=9
transfers settled at 9 + id=8 pending_id=5 user_data_32=6 flags=void_pending_transfer -> + id=8 debit_account_id=1 credit_account_id=2 amount=40 pending_id=5 user_data_128=3 user_data_64=4 user_data_32=6 ledger=1 code=11 flags=void_pending_transfer timestamp=9
transfers used exists_with_different_flags + id=5 amount=max pending_id=7 user_data_32=6 flags=post_pending_transfer
transfers fault ok + id=8 amount=max pending_id=5 user_data_32=6 flags=post_pending_transfer
transfers fault ok + id=8 pending_id=5 user_data_32=6 flags=void_pending_transfer
transfers fault flags_are_mutually_exclusive + id=8 amount=max pending_id=5 user_data_32=6 flags=post_pending_transfer|void_pending_transfer
transfers moving closing_transfer_must_be_pending + id=8 amount=max pending_id=5 user_data_32=6 flags=closing_debit
transfers moving reserved_flag + id=8 amount=max pending_id=5 user_data_32=6 flags=balancing_debit
transfers moving timestamp_must_be_zero + id=5 debit_account_id=1 credit_account_id=2 amount=40 timeout=2 ledger=1 code=11 flags=pending timestamp=3",
]];

/// The same, with one of nothing that closes its credit account.
const CLOSED: [[&str; 2]; 1] = [[
    "accounts 0
+ id=1 user_data_128=7 user_data_64=8 user_data_32=9 ledger=1 code=10
+ id=2 user_data_128=7 user_data_64=8 user_data_32=9 ledger=1 code=10
end
transfers 0
+ id=5 debit_account_id=1 credit_account_id=2 amount=40 user_data_128=3 user_data_64=4 user_data_32=5 timeout=2 ledger=1 code=11 flags=pending
+ id=6 debit_account_id=1 credit_account_id=2 user_data_128=3 user_data_64=4 user_data_32=5 timeout=1 ledger=1 code=11 flags=pending|closing_credit
end",
    "transfers settling credit_account_already_closed at 9 + id=8 amount=max pending_id=5 user_data_32=6 flags=post_pending_transfer
transfers settling ok at 9 + id=8 pending_id=5 user_data_32=6 flags=void_pending_transfer",
]];

#[test]
fn posts_and_voids_are_judged_by_their_pending_transfer(rt: HostRuntime) {
    assert!(rt; assert_text(&rt, &OPEN).is_ok());
    assert!(rt; assert_text(&rt, &CLOSED).is_ok());
}
