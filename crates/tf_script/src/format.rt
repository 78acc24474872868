//! The records that a script spells, each with its fields.

ghost use Rattle.tf_script.specs.Records.{account_format, transfer_format, account_filter_format, query_filter_format};

use crate::field::{FieldEntry, number_at};
use crate::record::Record;
use hex::FromHex;
use tf_records::{Account, AccountFilter, QueryFilter, Transfer};

/// A table of fields: each with its type and, for a set of flags, their names from bit 0 on.
macro_rules! fields {
    ($($name:ident: $number:ident $([$($flag:ident),*])?),* $(,)?) => {
        [$(FieldEntry {
            name: stringify!($name),
            greatest: $number::MAX as u128,
            flags: &[$($(stringify!($flag)),*)?],
        }),*]
    };
}

static ACCOUNT_FIELDS: [FieldEntry; 13] = fields! {
    id: u128,
    debits_pending: u128,
    debits_posted: u128,
    credits_pending: u128,
    credits_posted: u128,
    user_data_128: u128,
    user_data_64: u64,
    user_data_32: u32,
    reserved: u32,
    ledger: u32,
    code: u16,
    flags: u16 [
        linked,
        debits_must_not_exceed_credits,
        credits_must_not_exceed_debits,
        history,
        imported,
        closed
    ],
    timestamp: u64,
};

static TRANSFER_FIELDS: [FieldEntry; 13] = fields! {
    id: u128,
    debit_account_id: u128,
    credit_account_id: u128,
    amount: u128,
    pending_id: u128,
    user_data_128: u128,
    user_data_64: u64,
    user_data_32: u32,
    timeout: u32,
    ledger: u32,
    code: u16,
    flags: u16 [
        linked,
        pending,
        post_pending_transfer,
        void_pending_transfer,
        balancing_debit,
        balancing_credit,
        closing_debit,
        closing_credit,
        imported
    ],
    timestamp: u64,
};

static ACCOUNT_FILTER_FIELDS: [FieldEntry; 9] = fields! {
    account_id: u128,
    user_data_128: u128,
    user_data_64: u64,
    user_data_32: u32,
    code: u16,
    timestamp_min: u64,
    timestamp_max: u64,
    limit: u32,
    flags: u32 [debits, credits, reversed],
};

static QUERY_FILTER_FIELDS: [FieldEntry; 9] = fields! {
    user_data_128: u128,
    user_data_64: u64,
    user_data_32: u32,
    ledger: u32,
    code: u16,
    timestamp_min: u64,
    timestamp_max: u64,
    limit: u32,
    flags: u32 [reversed],
};

impl Record for Account {
    ghost format = { account_format };

    fn fields() -> &'static [FieldEntry] {
        &ACCOUNT_FIELDS
    }

    fn from_values(values: &[Option<u128>]) -> Self {
        Account {
            id: number_at(values, 0),
            debits_pending: number_at(values, 1),
            debits_posted: number_at(values, 2),
            credits_pending: number_at(values, 3),
            credits_posted: number_at(values, 4),
            user_data_128: number_at(values, 5),
            user_data_64: number_at(values, 6) as u64,
            user_data_32: number_at(values, 7) as u32,
            reserved: number_at(values, 8) as u32,
            ledger: number_at(values, 9) as u32,
            code: number_at(values, 10) as u16,
            flags: number_at(values, 11) as u16,
            timestamp: number_at(values, 12) as u64,
        }
    }

    #[tactic(auto, unfolding(crate::specs::Statements::in_hex))]
    fn from_digits(text: &[u8]) -> Option<Self> {
        let bytes = <[u8; Account::SIZE] as FromHex>::from_hex(text).ok()?;
        Account::from_bytes(&bytes).ok()
    }
}

impl Record for Transfer {
    ghost format = { transfer_format };

    fn fields() -> &'static [FieldEntry] {
        &TRANSFER_FIELDS
    }

    fn from_values(values: &[Option<u128>]) -> Self {
        Transfer {
            id: number_at(values, 0),
            debit_account_id: number_at(values, 1),
            credit_account_id: number_at(values, 2),
            amount: number_at(values, 3),
            pending_id: number_at(values, 4),
            user_data_128: number_at(values, 5),
            user_data_64: number_at(values, 6) as u64,
            user_data_32: number_at(values, 7) as u32,
            timeout: number_at(values, 8) as u32,
            ledger: number_at(values, 9) as u32,
            code: number_at(values, 10) as u16,
            flags: number_at(values, 11) as u16,
            timestamp: number_at(values, 12) as u64,
        }
    }

    #[tactic(auto, unfolding(crate::specs::Statements::in_hex))]
    fn from_digits(text: &[u8]) -> Option<Self> {
        let bytes = <[u8; Transfer::SIZE] as FromHex>::from_hex(text).ok()?;
        Transfer::from_bytes(&bytes).ok()
    }
}

impl Record for AccountFilter {
    ghost format = { account_filter_format };

    fn fields() -> &'static [FieldEntry] {
        &ACCOUNT_FILTER_FIELDS
    }

    fn from_values(values: &[Option<u128>]) -> Self {
        AccountFilter {
            account_id: number_at(values, 0),
            user_data_128: number_at(values, 1),
            user_data_64: number_at(values, 2) as u64,
            user_data_32: number_at(values, 3) as u32,
            code: number_at(values, 4) as u16,
            reserved: [0; 58],
            timestamp_min: number_at(values, 5) as u64,
            timestamp_max: number_at(values, 6) as u64,
            limit: number_at(values, 7) as u32,
            flags: number_at(values, 8) as u32,
        }
    }

    #[tactic(auto, unfolding(crate::specs::Statements::in_hex))]
    fn from_digits(text: &[u8]) -> Option<Self> {
        let bytes = <[u8; AccountFilter::SIZE] as FromHex>::from_hex(text).ok()?;
        AccountFilter::from_bytes(&bytes).ok()
    }
}

impl Record for QueryFilter {
    ghost format = { query_filter_format };

    fn fields() -> &'static [FieldEntry] {
        &QUERY_FILTER_FIELDS
    }

    fn from_values(values: &[Option<u128>]) -> Self {
        QueryFilter {
            user_data_128: number_at(values, 0),
            user_data_64: number_at(values, 1) as u64,
            user_data_32: number_at(values, 2) as u32,
            ledger: number_at(values, 3) as u32,
            code: number_at(values, 4) as u16,
            reserved: [0; 6],
            timestamp_min: number_at(values, 5) as u64,
            timestamp_max: number_at(values, 6) as u64,
            limit: number_at(values, 7) as u32,
            flags: number_at(values, 8) as u32,
        }
    }

    #[tactic(auto, unfolding(crate::specs::Statements::in_hex))]
    fn from_digits(text: &[u8]) -> Option<Self> {
        let bytes = <[u8; QueryFilter::SIZE] as FromHex>::from_hex(text).ok()?;
        QueryFilter::from_bytes(&bytes).ok()
    }
}
