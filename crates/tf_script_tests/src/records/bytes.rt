//! Each field at its offset.

use tf_records::{Account, AccountBalance, AccountFilter, QueryFilter, Refusal, Transfer};

/// The bytes that count up from this one, in which each field shows its own offset.
fn counted<const N: usize>(first: u8) -> [u8; N] {
    let mut bytes = [0; N];
    let mut next = first;
    for byte in bytes.iter_mut() {
        *byte = next;
        next = next.wrapping_add(1);
    }
    bytes
}

/// The account whose bytes count up from 0.
const ACCOUNT: Account = Account {
    id: 0x0f0e_0d0c_0b0a_0908_0706_0504_0302_0100,
    debits_pending: 0x1f1e_1d1c_1b1a_1918_1716_1514_1312_1110,
    debits_posted: 0x2f2e_2d2c_2b2a_2928_2726_2524_2322_2120,
    credits_pending: 0x3f3e_3d3c_3b3a_3938_3736_3534_3332_3130,
    credits_posted: 0x4f4e_4d4c_4b4a_4948_4746_4544_4342_4140,
    user_data_128: 0x5f5e_5d5c_5b5a_5958_5756_5554_5352_5150,
    user_data_64: 0x6766_6564_6362_6160,
    user_data_32: 0x6b6a_6968,
    reserved: 0x6f6e_6d6c,
    ledger: 0x7372_7170,
    code: 0x7574,
    flags: 0x7776,
    timestamp: 0x7f7e_7d7c_7b7a_7978,
};

#[test]
fn account_fields_stand_at_their_offsets(rt: HostRuntime) {
    let bytes = counted::<128>(0);
    assert!(rt; Account::from_bytes(&bytes) == Ok(ACCOUNT) && ACCOUNT.to_bytes() == bytes);
}

/// The transfer whose bytes count up from 0.
const TRANSFER: Transfer = Transfer {
    id: 0x0f0e_0d0c_0b0a_0908_0706_0504_0302_0100,
    debit_account_id: 0x1f1e_1d1c_1b1a_1918_1716_1514_1312_1110,
    credit_account_id: 0x2f2e_2d2c_2b2a_2928_2726_2524_2322_2120,
    amount: 0x3f3e_3d3c_3b3a_3938_3736_3534_3332_3130,
    pending_id: 0x4f4e_4d4c_4b4a_4948_4746_4544_4342_4140,
    user_data_128: 0x5f5e_5d5c_5b5a_5958_5756_5554_5352_5150,
    user_data_64: 0x6766_6564_6362_6160,
    user_data_32: 0x6b6a_6968,
    timeout: 0x6f6e_6d6c,
    ledger: 0x7372_7170,
    code: 0x7574,
    flags: 0x7776,
    timestamp: 0x7f7e_7d7c_7b7a_7978,
};

#[test]
fn transfer_fields_stand_at_their_offsets(rt: HostRuntime) {
    let bytes = counted::<128>(0);
    assert!(rt; Transfer::from_bytes(&bytes) == Ok(TRANSFER) && TRANSFER.to_bytes() == bytes);
}

#[test]
fn account_filter_fields_stand_at_their_offsets(rt: HostRuntime) {
    let bytes = counted::<128>(0);
    let filter = AccountFilter {
        account_id: 0x0f0e_0d0c_0b0a_0908_0706_0504_0302_0100,
        user_data_128: 0x1f1e_1d1c_1b1a_1918_1716_1514_1312_1110,
        user_data_64: 0x2726_2524_2322_2120,
        user_data_32: 0x2b2a_2928,
        code: 0x2d2c,
        reserved: counted(46),
        timestamp_min: 0x6f6e_6d6c_6b6a_6968,
        timestamp_max: 0x7776_7574_7372_7170,
        limit: 0x7b7a_7978,
        flags: 0x7f7e_7d7c,
    };
    assert!(rt; AccountFilter::from_bytes(&bytes) == Ok(filter));
    assert!(rt; filter.to_bytes() == bytes);
}

#[test]
fn query_filter_fields_stand_at_their_offsets(rt: HostRuntime) {
    let bytes = counted::<64>(0);
    let filter = QueryFilter {
        user_data_128: 0x0f0e_0d0c_0b0a_0908_0706_0504_0302_0100,
        user_data_64: 0x1716_1514_1312_1110,
        user_data_32: 0x1b1a_1918,
        ledger: 0x1f1e_1d1c,
        code: 0x2120,
        reserved: counted(34),
        timestamp_min: 0x2f2e_2d2c_2b2a_2928,
        timestamp_max: 0x3736_3534_3332_3130,
        limit: 0x3b3a_3938,
        flags: 0x3f3e_3d3c,
    };
    assert!(rt; QueryFilter::from_bytes(&bytes) == Ok(filter));
    assert!(rt; filter.to_bytes() == bytes);
}

#[test]
fn account_balance_fields_stand_at_their_offsets(rt: HostRuntime) {
    let bytes = counted::<128>(0);
    let balance = AccountBalance {
        debits_pending: 0x0f0e_0d0c_0b0a_0908_0706_0504_0302_0100,
        debits_posted: 0x1f1e_1d1c_1b1a_1918_1716_1514_1312_1110,
        credits_pending: 0x2f2e_2d2c_2b2a_2928_2726_2524_2322_2120,
        credits_posted: 0x3f3e_3d3c_3b3a_3938_3736_3534_3332_3130,
        timestamp: 0x4746_4544_4342_4140,
        reserved: counted(72),
    };
    assert!(rt; AccountBalance::from_bytes(&bytes) == Ok(balance));
    assert!(rt; balance.to_bytes() == bytes);
}

#[test]
fn a_query_filter_of_ledger_and_limit(rt: HostRuntime) {
    let filter = QueryFilter {
        user_data_128: 0,
        user_data_64: 0,
        user_data_32: 0,
        ledger: 700,
        code: 0,
        reserved: [0; 6],
        timestamp_min: 0,
        timestamp_max: 0,
        limit: 10,
        flags: 0,
    };
    let mut bytes = [0; 64];
    bytes[28] = 0xbc;
    bytes[29] = 0x02;
    bytes[56] = 0x0a;
    assert!(rt; filter.to_bytes() == bytes);
}

/// Whether bytes of this length are no record of 128 bytes.
fn are_no_record(bytes: &[u8]) -> bool {
    let bad = Some(Refusal::BadRecord {
        length: bytes.len() as u64,
    });
    Account::from_bytes(bytes).err() == bad
        && Transfer::from_bytes(bytes).err() == bad
        && AccountFilter::from_bytes(bytes).err() == bad
        && AccountBalance::from_bytes(bytes).err() == bad
}

#[test]
fn other_lengths_are_no_record(rt: HostRuntime) {
    let bytes = [7; 256];
    for length in [0, 1, 63, 64, 65, 127, 129, 256] {
        let some = &bytes[..length];
        assert!(rt; are_no_record(some));
        assert!(rt; QueryFilter::from_bytes(some).is_ok() == (length == 64));
    }
    let all = &bytes[..128];
    assert!(rt; QueryFilter::from_bytes(all).err() == Some(Refusal::BadRecord { length: 128 }));
}
