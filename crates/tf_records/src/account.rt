//! An account.

ghost use Rattle.std.specs.Prelude.{◌≡◌, ◌≢◌, IfOk, length};
ghost use Rattle.tf_records.specs.Layout.{account_bytes, account_of_bytes};

use crate::Refusal;
use crate::little_endian::{
    read_u16, read_u32, read_u64, read_u128, write_u16, write_u32, write_u64, write_u128,
};

/// An account, 128 bytes as little-endian numbers in the order of the fields.
///
/// As an event it asks for a new account; as an answer it carries the account's sums of the moment.
/// Restates the reference page Account.
#[derive(Clone, Copy, Debug, PartialEq, Eq)]
pub struct Account {
    /// The account's own id, neither 0 nor `2^128 - 1` once it is stored.
    pub id: u128,
    /// What open pending transfers debit, in the ledger's unit.
    pub debits_pending: u128,
    /// What posted transfers debit, in the ledger's unit.
    pub debits_posted: u128,
    /// What open pending transfers credit, in the ledger's unit.
    pub credits_pending: u128,
    /// What posted transfers credit, in the ledger's unit.
    pub credits_posted: u128,
    /// Any number of the caller's, as the id of the account's owner.
    pub user_data_128: u128,
    /// Any number of the caller's, as a time.
    pub user_data_64: u64,
    /// Any number of the caller's, as a place.
    pub user_data_32: u32,
    /// Kept for later use: 0 in every stored account.
    pub reserved: u32,
    /// The ledger that the account belongs to, which is its unit. Not 0 once it is stored.
    pub ledger: u32,
    /// The kind of the account, by the caller's own list. Not 0 once it is stored.
    pub code: u16,
    /// The bits of `Account::LINKED` to `Account::CLOSED`.
    pub flags: u16,
    /// When the account was stored, in nanoseconds from 1 to `2^63 - 1`: 0 in an event.
    pub timestamp: u64,
}

impl Account {
    /// The length of an account's bytes.
    pub const SIZE: usize = 128;
    /// Flag: the event stands or falls with the next event of its batch.
    pub const LINKED: u16 = 1;
    /// Flag: pending and posted debits together stay at or below posted credits.
    pub const DEBITS_MUST_NOT_EXCEED_CREDITS: u16 = 2;
    /// Flag: pending and posted credits together stay at or below posted debits.
    pub const CREDITS_MUST_NOT_EXCEED_DEBITS: u16 = 4;
    /// Flag: the account's sums after each of its transfers are kept.
    pub const HISTORY: u16 = 8;
    /// Flag: the timestamp was handed in. Reserved in this ledger.
    pub const IMPORTED: u16 = 16;
    /// Flag: the account takes no further transfers.
    pub const CLOSED: u16 = 32;

    /// The account's bytes, by which `from_bytes` gives it back. Takes no memory.
    pub fn to_bytes(&self) -> [u8; Self::SIZE]
        ensures layout { result ≡ account_bytes self.now }
        ensures read_back { account_of_bytes result ≡ self.now }
    {
        let mut bytes = [0; Self::SIZE];
        write_u128(&mut bytes, 0, self.id);
        write_u128(&mut bytes, 16, self.debits_pending);
        write_u128(&mut bytes, 32, self.debits_posted);
        write_u128(&mut bytes, 48, self.credits_pending);
        write_u128(&mut bytes, 64, self.credits_posted);
        write_u128(&mut bytes, 80, self.user_data_128);
        write_u64(&mut bytes, 96, self.user_data_64);
        write_u32(&mut bytes, 104, self.user_data_32);
        write_u32(&mut bytes, 108, self.reserved);
        write_u32(&mut bytes, 112, self.ledger);
        write_u16(&mut bytes, 116, self.code);
        write_u16(&mut bytes, 118, self.flags);
        write_u64(&mut bytes, 120, self.timestamp);
        bytes
    }

    /// The account in these bytes. Any 128 bytes are one, whatever its flags and reserved bytes; of
    /// another length they are a `BadRecord`. Takes no memory.
    pub fn from_bytes(bytes: &[u8]) -> Result<Self, Refusal>
        ensures read { length bytes.now ≡ 128 → result ≡ Ok (account_of_bytes bytes.now) }
        ensures spelled { IfOk result (λ a. account_bytes a ≡ bytes.now) }
        ensures refused { length bytes.now ≢ 128 → result ≡ Err (Refusal.BadRecord (length bytes.now)) }
    {
        if bytes.len() != Self::SIZE {
            let length = bytes.len() as u64;
            return Err(Refusal::BadRecord { length });
        }
        Ok(Account {
            id: read_u128(bytes, 0),
            debits_pending: read_u128(bytes, 16),
            debits_posted: read_u128(bytes, 32),
            credits_pending: read_u128(bytes, 48),
            credits_posted: read_u128(bytes, 64),
            user_data_128: read_u128(bytes, 80),
            user_data_64: read_u64(bytes, 96),
            user_data_32: read_u32(bytes, 104),
            reserved: read_u32(bytes, 108),
            ledger: read_u32(bytes, 112),
            code: read_u16(bytes, 116),
            flags: read_u16(bytes, 118),
            timestamp: read_u64(bytes, 120),
        })
    }
}
