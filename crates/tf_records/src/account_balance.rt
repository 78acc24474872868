//! A row of an account's balance history.

ghost use Rattle.std.specs.Prelude.{◌≡◌, ◌≢◌, IfOk, length};
ghost use Rattle.tf_records.specs.Layout.{account_balance_bytes, account_balance_of_bytes};

use crate::Refusal;
use crate::little_endian::{read_u64, read_u128, write_bytes, write_u64, write_u128};

/// An account's sums right after one of its transfers, 128 bytes as little-endian numbers in the
/// order of the fields.
///
/// Restates the reference page AccountBalance.
#[derive(Clone, Copy, Debug, PartialEq, Eq)]
pub struct AccountBalance {
    /// What open pending transfers debited, in the ledger's unit.
    pub debits_pending: u128,
    /// What posted transfers debited, in the ledger's unit.
    pub debits_posted: u128,
    /// What open pending transfers credited, in the ledger's unit.
    pub credits_pending: u128,
    /// What posted transfers credited, in the ledger's unit.
    pub credits_posted: u128,
    /// The timestamp of that transfer, in nanoseconds.
    pub timestamp: u64,
    /// Kept for later use: all 0 in every answer.
    pub reserved: [u8; 56],
}

impl AccountBalance {
    /// The length of the balance's bytes.
    pub const SIZE: usize = 128;

    /// The balance's bytes, by which `from_bytes` gives it back. Takes no memory.
    pub fn to_bytes(&self) -> [u8; Self::SIZE]
        ensures layout { result ≡ account_balance_bytes self.now }
        ensures read_back { account_balance_of_bytes result ≡ self.now }
    {
        let mut bytes = [0; Self::SIZE];
        write_u128(&mut bytes, 0, self.debits_pending);
        write_u128(&mut bytes, 16, self.debits_posted);
        write_u128(&mut bytes, 32, self.credits_pending);
        write_u128(&mut bytes, 48, self.credits_posted);
        write_u64(&mut bytes, 64, self.timestamp);
        write_bytes(&mut bytes, 72, &self.reserved);
        bytes
    }

    /// The balance in these bytes. Any 128 bytes are one, whatever its reserved bytes; of another
    /// length they are a `BadRecord`. Takes no memory.
    pub fn from_bytes(bytes: &[u8]) -> Result<Self, Refusal>
        ensures read { length bytes.now ≡ 128 → result ≡ Ok (account_balance_of_bytes bytes.now) }
        ensures spelled { IfOk result (λ b. account_balance_bytes b ≡ bytes.now) }
        ensures refused { length bytes.now ≢ 128 → result ≡ Err (Refusal.BadRecord (length bytes.now)) }
    {
        if bytes.len() != Self::SIZE {
            let length = bytes.len() as u64;
            return Err(Refusal::BadRecord { length });
        }
        let mut reserved = [0; 56];
        reserved.copy_from_slice(&bytes[72..128]);
        Ok(AccountBalance {
            debits_pending: read_u128(bytes, 0),
            debits_posted: read_u128(bytes, 16),
            credits_pending: read_u128(bytes, 32),
            credits_posted: read_u128(bytes, 48),
            timestamp: read_u64(bytes, 64),
            reserved,
        })
    }
}
