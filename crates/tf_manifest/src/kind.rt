//! Rows by the kinds of their values.
ghost use Rattle.std.specs.Prelude.{◌≡◌, ◌<◌};
ghost use Rattle.tf_manifest.specs.Kinds.{kind_of, stamp_index, unit_index};

use crate::Row;

/// A row that stores timestamps.
#[derive(Clone, Copy, Debug, PartialEq, Eq)]
pub enum StampRow {
    AccountIds,
    ExpiryEntries,
}

impl StampRow {
    /// How many there are.
    pub const COUNT: usize = 2;

    /// Its place among them.
    pub fn index(self) -> usize
        ensures place { result ≡ stamp_index self }
        ensures below { result < 2 }
    {
        match self {
            StampRow::AccountIds => 0,
            StampRow::ExpiryEntries => 1,
        }
    }

    /// Its name among all rows.
    pub fn row(self) -> Row
        ensures { kind_of result ≡ Kind.Stamp self }
    {
        match self {
            StampRow::AccountIds => Row::AccountIds,
            StampRow::ExpiryEntries => Row::ExpiryEntries,
        }
    }
}

/// A row that stores nothing beside its keys.
#[derive(Clone, Copy, Debug, PartialEq, Eq)]
pub enum UnitRow {
    AccountUserData128,
    AccountUserData64,
    AccountUserData32,
    AccountLedger,
    AccountCode,
    TransferDebit,
    TransferCredit,
    TransferUserData128,
    TransferUserData64,
    TransferUserData32,
    TransferLedger,
    TransferCode,
    Expiry,
}

impl UnitRow {
    /// How many there are.
    pub const COUNT: usize = 13;

    /// Its place among them.
    pub fn index(self) -> usize
        ensures place { result ≡ unit_index self }
        ensures below { result < 13 }
    {
        self as usize
    }

    /// Its name among all rows.
    pub fn row(self) -> Row
        ensures { kind_of result ≡ Kind.Unit self }
    {
        match self {
            UnitRow::AccountUserData128 => Row::AccountUserData128,
            UnitRow::AccountUserData64 => Row::AccountUserData64,
            UnitRow::AccountUserData32 => Row::AccountUserData32,
            UnitRow::AccountLedger => Row::AccountLedger,
            UnitRow::AccountCode => Row::AccountCode,
            UnitRow::TransferDebit => Row::TransferDebit,
            UnitRow::TransferCredit => Row::TransferCredit,
            UnitRow::TransferUserData128 => Row::TransferUserData128,
            UnitRow::TransferUserData64 => Row::TransferUserData64,
            UnitRow::TransferUserData32 => Row::TransferUserData32,
            UnitRow::TransferLedger => Row::TransferLedger,
            UnitRow::TransferCode => Row::TransferCode,
            UnitRow::Expiry => Row::Expiry,
        }
    }
}

/// A row, by the kind of value that it stores.
#[derive(Clone, Copy, Debug, PartialEq, Eq)]
pub enum Kind {
    Stamp(StampRow),
    /// account_objects.
    Account,
    /// transfer_objects.
    Transfer,
    /// transfer_ids.
    Id,
    Unit(UnitRow),
    /// account_sums.
    State,
    /// history.
    Sums,
    /// pending_status.
    Status,
}

impl Kind {
    /// The name of the row.
    pub fn row(self) -> Row
        ensures { kind_of result ≡ self }
    {
        match self {
            Kind::Stamp(row) => row.row(),
            Kind::Account => Row::AccountObjects,
            Kind::Transfer => Row::TransferObjects,
            Kind::Id => Row::TransferIds,
            Kind::Unit(row) => row.row(),
            Kind::State => Row::AccountSums,
            Kind::Sums => Row::History,
            Kind::Status => Row::PendingStatus,
        }
    }
}

impl Row {
    /// The row, by the kind of value that it stores.
    pub fn kind(self) -> Kind
        ensures { result ≡ kind_of self }
    {
        match self {
            Row::AccountObjects => Kind::Account,
            Row::AccountIds => Kind::Stamp(StampRow::AccountIds),
            Row::AccountUserData128 => Kind::Unit(UnitRow::AccountUserData128),
            Row::AccountUserData64 => Kind::Unit(UnitRow::AccountUserData64),
            Row::AccountUserData32 => Kind::Unit(UnitRow::AccountUserData32),
            Row::AccountLedger => Kind::Unit(UnitRow::AccountLedger),
            Row::AccountCode => Kind::Unit(UnitRow::AccountCode),
            Row::AccountSums => Kind::State,
            Row::TransferObjects => Kind::Transfer,
            Row::TransferIds => Kind::Id,
            Row::TransferDebit => Kind::Unit(UnitRow::TransferDebit),
            Row::TransferCredit => Kind::Unit(UnitRow::TransferCredit),
            Row::TransferUserData128 => Kind::Unit(UnitRow::TransferUserData128),
            Row::TransferUserData64 => Kind::Unit(UnitRow::TransferUserData64),
            Row::TransferUserData32 => Kind::Unit(UnitRow::TransferUserData32),
            Row::TransferLedger => Kind::Unit(UnitRow::TransferLedger),
            Row::TransferCode => Kind::Unit(UnitRow::TransferCode),
            Row::PendingStatus => Kind::Status,
            Row::Expiry => Kind::Unit(UnitRow::Expiry),
            Row::ExpiryEntries => Kind::Stamp(StampRow::ExpiryEntries),
            Row::History => Kind::Sums,
        }
    }
}
