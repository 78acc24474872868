//! A transfer whose record was put into rows.
ghost use Rattle.std.specs.Prelude.{◌≡◌};

use std::marker::Model;
use std::snapshot::Snapshot;
use tf_records::Transfer;

/// A transfer whose record was put into rows, by its timestamp. Contracts see the transfer, which is here in no bytes.
#[derive(Drop)]
pub struct PutTransfer {
    timestamp: u64,
    transfer: Snapshot<Transfer>,
}

impl Model for PutTransfer {
    ghost use Rattle.std.specs.Prelude.{◌≡◌};
    ghost use Rattle.tf_records.specs.declared.transfer.Transfer.{Transfer};

    ghost Value = { Transfer };

    ghost view = { λ p. p.transfer.value };

    ghost invariant = { λ p. p.timestamp ≡ p.transfer.value.timestamp };
}

impl PutTransfer {
    /// What tells of a transfer. It takes no memory.
    pub(crate) fn of(transfer: &Transfer) -> PutTransfer
        ensures { result ≡ transfer.now }
    {
        PutTransfer {
            timestamp: transfer.timestamp,
            transfer: Snapshot::of(transfer),
        }
    }

    /// Its timestamp.
    #[inline]
    pub fn timestamp(&self) -> u64
        ensures { result ≡ self.now.timestamp }
    {
        self.timestamp
    }
}
