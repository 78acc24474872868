//! Values from outside the contracts: the reference's offsets, bits, names and texts, typed by hand.

mod bytes;
mod names;
mod replies;

use tf_records::{
    AMOUNT_MAX, Account, AccountFilter, BATCH_MAX, ID_MAX, QueryFilter, Sums, TIMESTAMP_MAX,
    Transfer, account_flags_are_these, filter_flags_are_these, limits_are_these,
    record_sizes_are_these, transfer_flags_are_these,
};

/// The flags of accounts, from bit 0 on.
const ACCOUNT_FLAGS: [u16; 6] = [
    Account::LINKED,
    Account::DEBITS_MUST_NOT_EXCEED_CREDITS,
    Account::CREDITS_MUST_NOT_EXCEED_DEBITS,
    Account::HISTORY,
    Account::IMPORTED,
    Account::CLOSED,
];

/// The flags of transfers, from bit 0 on.
const TRANSFER_FLAGS: [u16; 9] = [
    Transfer::LINKED,
    Transfer::PENDING,
    Transfer::POST_PENDING_TRANSFER,
    Transfer::VOID_PENDING_TRANSFER,
    Transfer::BALANCING_DEBIT,
    Transfer::BALANCING_CREDIT,
    Transfer::CLOSING_DEBIT,
    Transfer::CLOSING_CREDIT,
    Transfer::IMPORTED,
];

#[test]
fn flags_stand_at_their_bits(rt: HostRuntime) {
    assert!(rt; ACCOUNT_FLAGS == [1, 2, 4, 8, 16, 32]);
    assert!(rt; TRANSFER_FLAGS == [1, 2, 4, 8, 16, 32, 64, 128, 256]);
    let of_account = [
        AccountFilter::DEBITS,
        AccountFilter::CREDITS,
        AccountFilter::REVERSED,
    ];
    assert!(rt; of_account == [1, 2, 4]);
    assert!(rt; QueryFilter::REVERSED == 1);
    account_flags_are_these();
    transfer_flags_are_these();
    filter_flags_are_these();
}

#[test]
fn limits_are_the_references(rt: HostRuntime) {
    assert!(rt; TIMESTAMP_MAX == 9_223_372_036_854_775_807);
    assert!(rt; AMOUNT_MAX == 340_282_366_920_938_463_463_374_607_431_768_211_455);
    assert!(rt; ID_MAX == 340_282_366_920_938_463_463_374_607_431_768_211_455);
    assert!(rt; BATCH_MAX == 8190);
    limits_are_these();
    record_sizes_are_these();
}

#[test]
fn sums_compare_by_each_field(rt: HostRuntime) {
    let sums = Sums {
        debits_pending: 1,
        debits_posted: 2,
        credits_pending: 3,
        credits_posted: 4,
    };
    assert!(rt; sums == sums);
    let more = Sums {
        credits_posted: 5,
        ..sums
    };
    assert!(rt; sums != more);
}
