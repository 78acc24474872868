//! A transfer.

ghost use Rattle.std.specs.Prelude.{◌≡◌, ◌≢◌, IfOk, length};
ghost use Rattle.tf_records.specs.Layout.{transfer_bytes, transfer_of_bytes};

use crate::Refusal;
use crate::little_endian::{
    read_u16, read_u32, read_u64, read_u128, write_u16, write_u32, write_u64, write_u128,
};

/// A transfer, 128 bytes as little-endian numbers in the order of the fields.
///
/// Restates the reference page Transfer.
#[derive(Clone, Copy, Debug, PartialEq, Eq)]
pub struct Transfer {
    /// The transfer's own id, neither 0 nor `2^128 - 1` once it is stored.
    pub id: u128,
    /// The account that is debited.
    pub debit_account_id: u128,
    /// The account that is credited.
    pub credit_account_id: u128,
    /// How much is moved, in the ledger's unit.
    pub amount: u128,
    /// The pending transfer that this one posts or voids, else 0.
    pub pending_id: u128,
    /// Any number of the caller's, as the id of an order.
    pub user_data_128: u128,
    /// Any number of the caller's, as a time.
    pub user_data_64: u64,
    /// Any number of the caller's, as a place.
    pub user_data_32: u32,
    /// How long a pending transfer stays open, in seconds; 0 for as long as need be.
    pub timeout: u32,
    /// The ledger of both accounts.
    pub ledger: u32,
    /// The reason of the transfer, by the caller's own list. Not 0 once it is stored.
    pub code: u16,
    /// The bits of `Transfer::LINKED` to `Transfer::IMPORTED`.
    pub flags: u16,
    /// When the transfer was stored, in nanoseconds from 1 to `2^63 - 1`: 0 in an event.
    pub timestamp: u64,
}

impl Transfer {
    /// The length of a transfer's bytes.
    pub const SIZE: usize = 128;
    /// Flag: the event stands or falls with the next event of its batch.
    pub const LINKED: u16 = 1;
    /// Flag: the amount is only set aside, until it is posted, voided or expired.
    pub const PENDING: u16 = 2;
    /// Flag: posts the pending transfer `pending_id`.
    pub const POST_PENDING_TRANSFER: u16 = 4;
    /// Flag: voids the pending transfer `pending_id`.
    pub const VOID_PENDING_TRANSFER: u16 = 8;
    /// Flag: the amount is cut to what the debit account has. Reserved in this ledger.
    pub const BALANCING_DEBIT: u16 = 16;
    /// Flag: the amount is cut to what the credit account has. Reserved in this ledger.
    pub const BALANCING_CREDIT: u16 = 32;
    /// Flag: closes the debit account while this pending transfer is open.
    pub const CLOSING_DEBIT: u16 = 64;
    /// Flag: closes the credit account while this pending transfer is open.
    pub const CLOSING_CREDIT: u16 = 128;
    /// Flag: the timestamp was handed in. Reserved in this ledger.
    pub const IMPORTED: u16 = 256;

    /// The transfer's bytes, by which `from_bytes` gives it back. Takes no memory.
    pub fn to_bytes(&self) -> [u8; Self::SIZE]
        ensures layout { result ≡ transfer_bytes self.now }
        ensures read_back { transfer_of_bytes result ≡ self.now }
    {
        let mut bytes = [0; Self::SIZE];
        write_u128(&mut bytes, 0, self.id);
        write_u128(&mut bytes, 16, self.debit_account_id);
        write_u128(&mut bytes, 32, self.credit_account_id);
        write_u128(&mut bytes, 48, self.amount);
        write_u128(&mut bytes, 64, self.pending_id);
        write_u128(&mut bytes, 80, self.user_data_128);
        write_u64(&mut bytes, 96, self.user_data_64);
        write_u32(&mut bytes, 104, self.user_data_32);
        write_u32(&mut bytes, 108, self.timeout);
        write_u32(&mut bytes, 112, self.ledger);
        write_u16(&mut bytes, 116, self.code);
        write_u16(&mut bytes, 118, self.flags);
        write_u64(&mut bytes, 120, self.timestamp);
        bytes
    }

    /// The transfer in these bytes. Any 128 bytes are one, whatever its flags and reserved bytes; of
    /// another length they are a `BadRecord`. Takes no memory.
    pub fn from_bytes(bytes: &[u8]) -> Result<Self, Refusal>
        ensures read { length bytes.now ≡ 128 → result ≡ Ok (transfer_of_bytes bytes.now) }
        ensures spelled { IfOk result (λ t. transfer_bytes t ≡ bytes.now) }
        ensures refused { length bytes.now ≢ 128 → result ≡ Err (Refusal.BadRecord (length bytes.now)) }
    {
        if bytes.len() != Self::SIZE {
            let length = bytes.len() as u64;
            return Err(Refusal::BadRecord { length });
        }
        Ok(Transfer {
            id: read_u128(bytes, 0),
            debit_account_id: read_u128(bytes, 16),
            credit_account_id: read_u128(bytes, 32),
            amount: read_u128(bytes, 48),
            pending_id: read_u128(bytes, 64),
            user_data_128: read_u128(bytes, 80),
            user_data_64: read_u64(bytes, 96),
            user_data_32: read_u32(bytes, 104),
            timeout: read_u32(bytes, 108),
            ledger: read_u32(bytes, 112),
            code: read_u16(bytes, 116),
            flags: read_u16(bytes, 118),
            timestamp: read_u64(bytes, 120),
        })
    }
}
