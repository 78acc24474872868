//! The names of the rows.
ghost use Rattle.std.specs.Prelude.{◌≡◌, ◌<◌, Some, slice_get};
ghost use Rattle.tf_manifest.specs.RowNames.{rows_in_order};

/// A row of a forest: a map from keys to values, by which records are found in one way.
///
/// Beside each name stand its key, as a value and a timestamp, and what it has there. An object's timestamp is its own.
/// A pair is there for every record of the kind, also where the value of the key is 0.
#[derive(Clone, Copy, Debug, PartialEq, Eq)]
pub enum Row {
    /// 0 and the account's timestamp: the account as it was stored, its sums 0.
    AccountObjects,
    /// The account's id and 0: the account's timestamp.
    AccountIds,
    /// The account's field and timestamp: nothing more. So are the next four.
    AccountUserData128,
    AccountUserData64,
    AccountUserData32,
    AccountLedger,
    AccountCode,
    /// 0 and the account's timestamp: its sums now, and whether it is closed.
    AccountSums,
    /// 0 and the transfer's timestamp: the transfer as it was stored.
    TransferObjects,
    /// The transfer's id and 0: the transfer's timestamp, or that of the failure of an id that stays failed.
    TransferIds,
    /// The debit account's id and the transfer's timestamp: nothing more.
    TransferDebit,
    /// The credit account's id and the transfer's timestamp: nothing more.
    TransferCredit,
    /// The transfer's field and timestamp: nothing more. So are the next four.
    TransferUserData128,
    TransferUserData64,
    TransferUserData32,
    TransferLedger,
    TransferCode,
    /// 0 and the pending transfer's timestamp: what became of it.
    PendingStatus,
    /// When a pending transfer expires and its timestamp, while it is open and has a timeout: nothing more.
    Expiry,
    /// 0 and the timestamp of an expiry: the pending transfer's timestamp.
    ExpiryEntries,
    /// The id of an account with history and the timestamp of a transfer of it: the account's sums right after it.
    History,
}

impl Row {
    /// All rows, in the order of their numbers.
    pub const ALL: [Row; 21] = [
        Row::AccountObjects,
        Row::AccountIds,
        Row::AccountUserData128,
        Row::AccountUserData64,
        Row::AccountUserData32,
        Row::AccountLedger,
        Row::AccountCode,
        Row::AccountSums,
        Row::TransferObjects,
        Row::TransferIds,
        Row::TransferDebit,
        Row::TransferCredit,
        Row::TransferUserData128,
        Row::TransferUserData64,
        Row::TransferUserData32,
        Row::TransferLedger,
        Row::TransferCode,
        Row::PendingStatus,
        Row::Expiry,
        Row::ExpiryEntries,
        Row::History,
    ];

    /// The row's place in `ALL`, from 0 to 20.
    pub fn number(self) -> u32
        ensures place { slice_get rows_in_order result ≡ Some self }
        ensures below { result < 21 }
    {
        self as u32
    }
}

/// `Row::ALL` has each row once, in the order of the numbers. Does nothing.
pub fn rows_are_these()
    ensures { Row.ALL ≡ rows_in_order }
{}
