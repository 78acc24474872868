//! That verdicts at a moment of choice are those of the tables by hand-made examples, what events are stored as, and the
//! entries that batches and pulses leave.

use crate::asked::assert_text;

/// Two accounts, a transfer, and an open chain, of whose ids 6 failed by itself.
const CHAIN: [[&str; 2]; 1] = [[
    "accounts 1000
+ id=1 user_data_128=7 user_data_64=8 user_data_32=9 ledger=1 code=10
+ id=2 user_data_128=7 user_data_64=8 user_data_32=9 ledger=1 code=10
end
transfers 0
+ id=4 debit_account_id=1 credit_account_id=2 amount=2 ledger=1 code=11
+ id=5 debit_account_id=1 credit_account_id=2 amount=1 ledger=1 code=11 flags=linked
+ id=6 debit_account_id=9 credit_account_id=2 amount=1 ledger=1 code=11 flags=linked
+ id=7 debit_account_id=1 credit_account_id=2 amount=1 ledger=1 code=11 flags=linked
end",
    "accounts verdict exists at 1007 + id=2 user_data_128=7 user_data_64=8 user_data_32=9 ledger=1 code=10
accounts verdict ok at 1007 + id=3 user_data_128=7 user_data_64=8 user_data_32=9 ledger=1 code=10
transfers verdict exists at 1007 + id=4 debit_account_id=1 credit_account_id=2 amount=2 ledger=1 code=11
transfers verdict ok at 1007 + id=8 debit_account_id=1 credit_account_id=2 amount=2 ledger=1 code=11
transfers verdict ok at 2000 + id=5 debit_account_id=1 credit_account_id=2 amount=1 ledger=1 code=11
transfers verdict id_already_failed at 2000 + id=6 debit_account_id=1 credit_account_id=2 amount=1 ledger=1 code=11
transfers verdict ok at 9223372036854775807 + id=8 debit_account_id=1 credit_account_id=2 amount=5 ledger=1 code=11 flags=pending
transfers verdict overflows_timeout at 9223372036854775807 + id=8 debit_account_id=1 credit_account_id=2 amount=5 timeout=4294967295 ledger=1 code=11 flags=pending
accounts stored at 1004 + id=2 user_data_128=7 user_data_64=8 user_data_32=9 ledger=1 code=10 -> + id=2 user_data_128=7 user_data_64=8 user_data_32=9 ledger=1 code=10 timestamp=1004
transfers stored at 1006 + id=7 debit_account_id=1 credit_account_id=2 amount=2 ledger=1 code=11 -> + id=7 debit_account_id=1 credit_account_id=2 amount=2 ledger=1 code=11 timestamp=1006
failed_entry 3 1005 6
clock 1006
length 4
failed 6
free 5",
]];

/// Two pending transfers, of which the one that was stored later expires earlier.
const OFFERS: [[&str; 2]; 2] = [
    [
        "accounts 0
+ id=1 user_data_128=7 user_data_64=8 user_data_32=9 ledger=1 code=10
+ id=2 user_data_128=7 user_data_64=8 user_data_32=9 ledger=1 code=10
end
transfers 3
+ id=6 debit_account_id=1 credit_account_id=2 amount=7 timeout=2 ledger=1 code=11 flags=pending
+ id=7 debit_account_id=1 credit_account_id=2 amount=9 timeout=1 ledger=1 code=11 flags=pending
end",
        "none_due 1000000004
transfers due at 2000000004 + id=7 debit_account_id=1 credit_account_id=2 amount=9 timeout=1 ledger=1 code=11 flags=pending timestamp=5
due_count 2000000004 2 1",
    ],
    [
        "pulse 2000000004 1",
        "transfers due at 2000000004 + id=6 debit_account_id=1 credit_account_id=2 amount=7 timeout=2 ledger=1 code=11 flags=pending timestamp=4
due_count 2000000004 1 1
status 5 expired
expired_entry 4 2000000005 5
accounts shown + id=1 debits_pending=7 user_data_128=7 user_data_64=8 user_data_32=9 ledger=1 code=10 timestamp=1",
    ],
];

/// A pending transfer of nothing that closes the account that it debits, and a void of it.
const REOPENED: [[&str; 2]; 2] = [
    [
        "accounts 0
+ id=1 user_data_128=7 user_data_64=8 user_data_32=9 ledger=1 code=10
+ id=2 user_data_128=7 user_data_64=8 user_data_32=9 ledger=1 code=10
end
transfers 0
+ id=10 debit_account_id=1 credit_account_id=2 ledger=1 code=11 flags=pending|closing_debit
end",
        "accounts shown + id=1 user_data_128=7 user_data_64=8 user_data_32=9 ledger=1 code=10 flags=closed timestamp=1
accounts shown + id=2 user_data_128=7 user_data_64=8 user_data_32=9 ledger=1 code=10 timestamp=2",
    ],
    [
        "transfers 0
+ id=11 pending_id=10 flags=void_pending_transfer
end",
        "accounts shown + id=1 user_data_128=7 user_data_64=8 user_data_32=9 ledger=1 code=10 timestamp=1
status 3 voided
length 4
accounts entry at 0 + id=1 user_data_128=7 user_data_64=8 user_data_32=9 ledger=1 code=10 timestamp=1
accounts entry at 1 + id=2 user_data_128=7 user_data_64=8 user_data_32=9 ledger=1 code=10 timestamp=2
transfers entry at 2 + id=10 debit_account_id=1 credit_account_id=2 ledger=1 code=11 flags=pending|closing_debit timestamp=3
transfers entry at 3 + id=11 debit_account_id=1 credit_account_id=2 pending_id=10 ledger=1 code=11 flags=void_pending_transfer timestamp=4",
    ],
];

#[test]
fn batches_and_pulses_leave_what_they_should(rt: HostRuntime) {
    assert!(rt; assert_text(&rt, &CHAIN).is_ok());
    assert!(rt; assert_text(&rt, &OFFERS).is_ok());
    assert!(rt; assert_text(&rt, &REOPENED).is_ok());
}
