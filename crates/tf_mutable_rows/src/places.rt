//! Where the keys of rows lie that store nothing beside them.
ghost use Rattle.std.specs.Prelude.{◌≡◌};
ghost use Rattle.tf_mutable_rows.specs.Indexes.{IsIn};

use crate::transfers::Field;
use tf_manifest::UnitRow;

/// Where the keys of a row lie.
#[derive(Clone, Copy)]
pub(crate) enum Place {
    /// In a log, at this place among the indexes of accounts.
    OfAccounts(usize),
    /// In the objects of transfers, off which they are read.
    OfTransfers(Field),
    /// In the tree of expiry.
    Expiry,
}

/// Where the keys of a row lie.
pub(crate) fn place_of(row: UnitRow) -> Place
    ensures { IsIn result row }
{
    match row {
        UnitRow::AccountUserData128 => Place::OfAccounts(0),
        UnitRow::AccountUserData64 => Place::OfAccounts(1),
        UnitRow::AccountUserData32 => Place::OfAccounts(2),
        UnitRow::AccountLedger => Place::OfAccounts(3),
        UnitRow::AccountCode => Place::OfAccounts(4),
        UnitRow::TransferDebit => Place::OfTransfers(Field::Debit),
        UnitRow::TransferCredit => Place::OfTransfers(Field::Credit),
        UnitRow::TransferUserData128 => Place::OfTransfers(Field::UserData128),
        UnitRow::TransferUserData64 => Place::OfTransfers(Field::UserData64),
        UnitRow::TransferUserData32 => Place::OfTransfers(Field::UserData32),
        UnitRow::TransferLedger => Place::OfTransfers(Field::Ledger),
        UnitRow::TransferCode => Place::OfTransfers(Field::Code),
        UnitRow::Expiry => Place::Expiry,
    }
}
