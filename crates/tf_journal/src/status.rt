//! What became of a pending transfer.

/// The status of a pending transfer. It is open until it is posted, voided or expired, once and for good.
///
/// Restates "Two-Phase Transfers" of TigerBeetle's reference.
#[derive(Clone, Copy, Debug, PartialEq, Eq)]
pub enum Status {
    /// Its amount is set aside.
    Open,
    /// It was posted, wholly or in part.
    Posted,
    /// It was voided.
    Voided,
    /// An expiry was stored.
    Expired,
}
