//! The tests that filters make of records.

ghost use Rattle.std.specs.Prelude.{◌≡◌};
ghost use Rattle.tf_journal.specs.Filter.{are_valid_bounds, are_zero, is_on_asked_side, is_valid_account_filter, is_valid_query_filter, is_within, matches_account_filter, matches_query_filter, meets, searched_account, searched_transfer};
ghost use Rattle.tf_journal.specs.Flags.{has_flag};

use tf_records::{Account, AccountFilter, ID_MAX, QueryFilter, Transfer};

/// Whether a filter of an account's transfers is valid. It names an account, its bounds are valid, its limit
/// isn't 0, it asks for a side, no reserved byte is set and no flag but its three.
///
/// A bound is valid below `2^64 - 1`, and the greatest timestamp, where it isn't 0, isn't below the least. An
/// invalid filter finds nothing. Takes no memory.
pub fn is_valid_account_filter(filter: &AccountFilter) -> bool
    ensures { result ≡ is_valid_account_filter filter.now }
{
    filter.account_id != 0
        && filter.account_id != ID_MAX
        && has_valid_bounds(filter.timestamp_min, filter.timestamp_max)
        && filter.limit != 0
        && (has_bit(filter.flags, AccountFilter::DEBITS)
            || has_bit(filter.flags, AccountFilter::CREDITS))
        && is_zero(&filter.reserved)
        && filter.flags < 8
}

/// Whether a filter of all accounts or transfers is valid: its bounds are valid, its limit isn't 0, no reserved
/// byte is set and no flag but its one.
///
/// Bounds are valid as in [`is_valid_account_filter`]. An invalid filter finds nothing. Takes no memory.
pub fn is_valid_query_filter(filter: &QueryFilter) -> bool
    ensures { result ≡ is_valid_query_filter filter.now }
{
    has_valid_bounds(filter.timestamp_min, filter.timestamp_max)
        && filter.limit != 0
        && is_zero(&filter.reserved)
        && filter.flags < 2
}

/// Whether a transfer matches a valid filter of an account's transfers: it has the account on a side that is
/// asked for, each field that isn't 0 in the filter, and a timestamp within the bounds, both inclusive.
/// Takes no memory.
pub fn matches_account_filter(filter: &AccountFilter, transfer: &Transfer) -> bool
    ensures { result ≡ matches_account_filter filter.now transfer.now }
{
    meets(filter.user_data_128, transfer.user_data_128)
        && meets(filter.user_data_64.into(), transfer.user_data_64.into())
        && meets(filter.user_data_32.into(), transfer.user_data_32.into())
        && meets(filter.code.into(), transfer.code.into())
        && is_within(
            filter.timestamp_min,
            filter.timestamp_max,
            transfer.timestamp,
        )
        && is_on_asked_side(filter, transfer)
}

/// Whether an account matches a valid filter of all accounts: it has each field that isn't 0 in the filter, and
/// a timestamp within the bounds, both inclusive. Takes no memory.
pub fn matches_account(filter: &QueryFilter, account: &Account) -> bool
    ensures { result ≡ matches_query_filter filter.now (searched_account account.now) }
{
    matches(
        filter,
        &Fields {
            user_data_128: account.user_data_128,
            user_data_64: account.user_data_64,
            user_data_32: account.user_data_32,
            ledger: account.ledger,
            code: account.code,
            timestamp: account.timestamp,
        },
    )
}

/// Whether a transfer matches a valid filter of all transfers, as in [`matches_account`]. Takes no memory.
pub fn matches_transfer(filter: &QueryFilter, transfer: &Transfer) -> bool
    ensures { result ≡ matches_query_filter filter.now (searched_transfer transfer.now) }
{
    matches(
        filter,
        &Fields {
            user_data_128: transfer.user_data_128,
            user_data_64: transfer.user_data_64,
            user_data_32: transfer.user_data_32,
            ledger: transfer.ledger,
            code: transfer.code,
            timestamp: transfer.timestamp,
        },
    )
}

/// The fields of a record by which it is searched.
#[derive(Clone, Copy)]
struct Fields {
    user_data_128: u128,
    user_data_64: u64,
    user_data_32: u32,
    ledger: u32,
    code: u16,
    timestamp: u64,
}

/// Whether a record with these fields matches a valid filter.
fn matches(filter: &QueryFilter, fields: &Fields) -> bool
    ensures { result ≡ matches_query_filter filter.now (record {
      user_data_128 = fields.now.user_data_128;
      user_data_64 = fields.now.user_data_64;
      user_data_32 = fields.now.user_data_32;
      ledger = fields.now.ledger;
      code = fields.now.code;
      timestamp = fields.now.timestamp;
    }) }
{
    meets(filter.user_data_128, fields.user_data_128)
        && meets(filter.user_data_64.into(), fields.user_data_64.into())
        && meets(filter.user_data_32.into(), fields.user_data_32.into())
        && meets(filter.ledger.into(), fields.ledger.into())
        && meets(filter.code.into(), fields.code.into())
        && is_within(filter.timestamp_min, filter.timestamp_max, fields.timestamp)
}

fn has_bit(flags: u32, mask: u32) -> bool
    ensures { result ≡ has_flag flags mask }
{
    flags & mask != 0
}

/// Whether two timestamps are bounds: 0 is none.
fn has_valid_bounds(low: u64, high: u64) -> bool
    ensures { result ≡ are_valid_bounds low high }
{
    low != u64::MAX && high != u64::MAX && (high == 0 || low <= high)
}

fn is_zero(bytes: &[u8]) -> bool
    ensures { result ≡ are_zero bytes.now }
{
    bytes.iter().all(|byte| *byte == 0)
}

/// Whether a field is what is asked for: 0 asks for nothing.
fn meets(asked: u128, field: u128) -> bool
    ensures { result ≡ meets asked field }
{
    asked == 0 || field == asked
}

/// Whether a timestamp is within bounds, both inclusive: 0 is none.
fn is_within(low: u64, high: u64, timestamp: u64) -> bool
    ensures { result ≡ is_within low high timestamp }
{
    low <= timestamp && (high == 0 || timestamp <= high)
}

/// Whether a transfer has the filter's account on a side that is asked for.
fn is_on_asked_side(filter: &AccountFilter, transfer: &Transfer) -> bool
    ensures { result ≡ is_on_asked_side filter.now transfer.now }
{
    (has_bit(filter.flags, AccountFilter::DEBITS) && transfer.debit_account_id == filter.account_id)
        || (has_bit(filter.flags, AccountFilter::CREDITS)
            && transfer.credit_account_id == filter.account_id)
}
