//! What filters ask of indexes.
ghost use Rattle.std.specs.Prelude.{◌≡◌};
ghost use Rattle.tf_query.specs.Conditions.{account_conditions, field_conditions, transfer_conditions};

use tf_manifest::UnitRow;
use tf_records::{AccountFilter, QueryFilter};

/// A value that an index is asked for. 0 asks for nothing.
#[derive(Clone, Copy)]
pub struct Condition {
    pub row: UnitRow,
    pub value: u128,
}

/// An index, and the value that it is asked for.
fn asked(row: UnitRow, value: u128) -> Condition
    ensures { result ≡ record { row = row; value = value } }
{
    Condition { row, value }
}

/// What a filter asks of the fields of accounts.
pub fn account_conditions(filter: &QueryFilter) -> [Condition; 5]
    ensures { result ≡ account_conditions filter.now }
{
    [
        asked(UnitRow::AccountUserData128, filter.user_data_128),
        asked(UnitRow::AccountUserData64, filter.user_data_64.into()),
        asked(UnitRow::AccountUserData32, filter.user_data_32.into()),
        asked(UnitRow::AccountLedger, filter.ledger.into()),
        asked(UnitRow::AccountCode, filter.code.into()),
    ]
}

/// What a filter asks of the fields of transfers.
pub fn transfer_conditions(filter: &QueryFilter) -> [Condition; 5]
    ensures { result ≡ transfer_conditions filter.now }
{
    [
        asked(UnitRow::TransferUserData128, filter.user_data_128),
        asked(UnitRow::TransferUserData64, filter.user_data_64.into()),
        asked(UnitRow::TransferUserData32, filter.user_data_32.into()),
        asked(UnitRow::TransferLedger, filter.ledger.into()),
        asked(UnitRow::TransferCode, filter.code.into()),
    ]
}

/// What a filter of an account's transfers asks of their fields.
pub fn field_conditions(filter: &AccountFilter) -> [Condition; 4]
    ensures { result ≡ field_conditions filter.now }
{
    [
        asked(UnitRow::TransferUserData128, filter.user_data_128),
        asked(UnitRow::TransferUserData64, filter.user_data_64.into()),
        asked(UnitRow::TransferUserData32, filter.user_data_32.into()),
        asked(UnitRow::TransferCode, filter.code.into()),
    ]
}
