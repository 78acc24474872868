//! A filter on the transfers and balances of one account.

ghost use Rattle.std.specs.Prelude.{◌≡◌, ◌≢◌, IfOk, length};
ghost use Rattle.tf_records.specs.Layout.{account_filter_bytes, account_filter_of_bytes};

use crate::Refusal;
use crate::little_endian::{
    read_u16, read_u32, read_u64, read_u128, write_bytes, write_u16, write_u32, write_u64,
    write_u128,
};

/// What to find of one account's transfers or balances, 128 bytes as little-endian numbers in the
/// order of the fields.
///
/// A field that is 0 doesn't constrain, but for `account_id`, `limit` and `flags`. Restates the
/// reference page AccountFilter.
#[derive(Clone, Copy, Debug, PartialEq, Eq)]
pub struct AccountFilter {
    /// The account asked of, neither 0 nor `2^128 - 1` in a valid filter.
    pub account_id: u128,
    /// The transfer's `user_data_128`.
    pub user_data_128: u128,
    /// The transfer's `user_data_64`.
    pub user_data_64: u64,
    /// The transfer's `user_data_32`.
    pub user_data_32: u32,
    /// The transfer's `code`.
    pub code: u16,
    /// Kept for later use: all 0 in a valid filter.
    pub reserved: [u8; 58],
    /// The least timestamp, in nanoseconds.
    pub timestamp_min: u64,
    /// The greatest timestamp, in nanoseconds.
    pub timestamp_max: u64,
    /// The most rows of the answer, which has at most `BATCH_MAX`. Not 0 in a valid filter.
    pub limit: u32,
    /// The bits of `AccountFilter::DEBITS` to `AccountFilter::REVERSED`.
    pub flags: u32,
}

impl AccountFilter {
    /// The length of the filter's bytes.
    pub const SIZE: usize = 128;
    /// Flag: transfers that debit the account.
    pub const DEBITS: u32 = 1;
    /// Flag: transfers that credit the account.
    pub const CREDITS: u32 = 2;
    /// Flag: by falling timestamp.
    pub const REVERSED: u32 = 4;

    /// The filter's bytes, by which `from_bytes` gives it back. Takes no memory.
    pub fn to_bytes(&self) -> [u8; Self::SIZE]
        ensures layout { result ≡ account_filter_bytes self.now }
        ensures read_back { account_filter_of_bytes result ≡ self.now }
    {
        let mut bytes = [0; Self::SIZE];
        write_u128(&mut bytes, 0, self.account_id);
        write_u128(&mut bytes, 16, self.user_data_128);
        write_u64(&mut bytes, 32, self.user_data_64);
        write_u32(&mut bytes, 40, self.user_data_32);
        write_u16(&mut bytes, 44, self.code);
        write_bytes(&mut bytes, 46, &self.reserved);
        write_u64(&mut bytes, 104, self.timestamp_min);
        write_u64(&mut bytes, 112, self.timestamp_max);
        write_u32(&mut bytes, 120, self.limit);
        write_u32(&mut bytes, 124, self.flags);
        bytes
    }

    /// The filter in these bytes. Any 128 bytes are one, whatever its flags and reserved bytes; of
    /// another length they are a `BadRecord`. Takes no memory.
    pub fn from_bytes(bytes: &[u8]) -> Result<Self, Refusal>
        ensures read { length bytes.now ≡ 128 → result ≡ Ok (account_filter_of_bytes bytes.now) }
        ensures spelled { IfOk result (λ f. account_filter_bytes f ≡ bytes.now) }
        ensures refused { length bytes.now ≢ 128 → result ≡ Err (Refusal.BadRecord (length bytes.now)) }
    {
        if bytes.len() != Self::SIZE {
            let length = bytes.len() as u64;
            return Err(Refusal::BadRecord { length });
        }
        let mut reserved = [0; 58];
        reserved.copy_from_slice(&bytes[46..104]);
        Ok(AccountFilter {
            account_id: read_u128(bytes, 0),
            user_data_128: read_u128(bytes, 16),
            user_data_64: read_u64(bytes, 32),
            user_data_32: read_u32(bytes, 40),
            code: read_u16(bytes, 44),
            reserved,
            timestamp_min: read_u64(bytes, 104),
            timestamp_max: read_u64(bytes, 112),
            limit: read_u32(bytes, 120),
            flags: read_u32(bytes, 124),
        })
    }
}
