//! A filter on all accounts or all transfers.

ghost use Rattle.std.specs.Prelude.{◌≡◌, ◌≢◌, IfOk, length};
ghost use Rattle.tf_records.specs.Layout.{query_filter_bytes, query_filter_of_bytes};

use crate::Refusal;
use crate::little_endian::{
    read_u16, read_u32, read_u64, read_u128, write_bytes, write_u16, write_u32, write_u64,
    write_u128,
};

/// What to find among all accounts or all transfers, 64 bytes as little-endian numbers in the order
/// of the fields.
///
/// A field that is 0 doesn't constrain, but for `limit`. Restates the reference page QueryFilter.
#[derive(Clone, Copy, Debug, PartialEq, Eq)]
pub struct QueryFilter {
    /// The record's `user_data_128`.
    pub user_data_128: u128,
    /// The record's `user_data_64`.
    pub user_data_64: u64,
    /// The record's `user_data_32`.
    pub user_data_32: u32,
    /// The record's `ledger`.
    pub ledger: u32,
    /// The record's `code`.
    pub code: u16,
    /// Kept for later use: all 0 in a valid filter.
    pub reserved: [u8; 6],
    /// The least timestamp, in nanoseconds.
    pub timestamp_min: u64,
    /// The greatest timestamp, in nanoseconds.
    pub timestamp_max: u64,
    /// The most rows of the answer, which has at most `BATCH_MAX`. Not 0 in a valid filter.
    pub limit: u32,
    /// The bit of `QueryFilter::REVERSED`.
    pub flags: u32,
}

impl QueryFilter {
    /// The length of the filter's bytes.
    pub const SIZE: usize = 64;
    /// Flag: by falling timestamp.
    pub const REVERSED: u32 = 1;

    /// The filter's bytes, by which `from_bytes` gives it back. Takes no memory.
    pub fn to_bytes(&self) -> [u8; Self::SIZE]
        ensures layout { result ≡ query_filter_bytes self.now }
        ensures read_back { query_filter_of_bytes result ≡ self.now }
    {
        let mut bytes = [0; Self::SIZE];
        write_u128(&mut bytes, 0, self.user_data_128);
        write_u64(&mut bytes, 16, self.user_data_64);
        write_u32(&mut bytes, 24, self.user_data_32);
        write_u32(&mut bytes, 28, self.ledger);
        write_u16(&mut bytes, 32, self.code);
        write_bytes(&mut bytes, 34, &self.reserved);
        write_u64(&mut bytes, 40, self.timestamp_min);
        write_u64(&mut bytes, 48, self.timestamp_max);
        write_u32(&mut bytes, 56, self.limit);
        write_u32(&mut bytes, 60, self.flags);
        bytes
    }

    /// The filter in these bytes. Any 64 bytes are one, whatever its flags and reserved bytes; of
    /// another length they are a `BadRecord`. Takes no memory.
    pub fn from_bytes(bytes: &[u8]) -> Result<Self, Refusal>
        ensures read { length bytes.now ≡ 64 → result ≡ Ok (query_filter_of_bytes bytes.now) }
        ensures spelled { IfOk result (λ f. query_filter_bytes f ≡ bytes.now) }
        ensures refused { length bytes.now ≢ 64 → result ≡ Err (Refusal.BadRecord (length bytes.now)) }
    {
        if bytes.len() != Self::SIZE {
            let length = bytes.len() as u64;
            return Err(Refusal::BadRecord { length });
        }
        let mut reserved = [0; 6];
        reserved.copy_from_slice(&bytes[34..40]);
        Ok(QueryFilter {
            user_data_128: read_u128(bytes, 0),
            user_data_64: read_u64(bytes, 16),
            user_data_32: read_u32(bytes, 24),
            ledger: read_u32(bytes, 28),
            code: read_u16(bytes, 32),
            reserved,
            timestamp_min: read_u64(bytes, 40),
            timestamp_max: read_u64(bytes, 48),
            limit: read_u32(bytes, 56),
            flags: read_u32(bytes, 60),
        })
    }
}
