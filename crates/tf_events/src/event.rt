//! What accounts and transfers have in common as events of a batch.

ghost use Rattle.std.specs.Prelude.{◌≡◌, ℕ, List, IfOk, IfErr};
ghost use Rattle.std.specs.Option.{option_to_list};
ghost use Rattle.tf_journal.specs.Journal.{IsJournal};
ghost use Rattle.tf_journal.specs.Verdict.{is_transient};
ghost use Rattle.tf_events.specs.Chain.{Kind, accounts, transfers};
ghost use Rattle.tf_events.specs.Walk.{IsAccepted, IsRefused, KeepsEvents};

use crate::account::{stored_account, verdict_account};
use crate::fits::{fitting_account, fitting_transfer};
use crate::transfer::judge_transfer;
use tf_journal::{Entry, Ledger, has_flag};
use tf_records::{Account, Outcome, Transfer};

/// An event of a batch: how it is judged, and as which entry it is stored.
pub trait Event: Copy {
    /// Its kind, as the definitions see it.
    ghost kind: { Kind Self };

    /// Whether this event stands or falls with the next one. Takes no memory.
    fn is_linked(&self) -> bool
        ensures { result ≡ kind.linked self.now };

    /// The entry that this event is stored as, judged at this timestamp; else why it isn't ok. Takes no memory.
    fn judge<L: Ledger>(&self, ledger: &L, timestamp: u64) -> Result<Entry, Outcome>
        requires { IsJournal (L.journal ledger.now) }
        ensures ok { IfOk result (IsAccepted kind (L.journal ledger.now) timestamp self.now) }
        ensures err { IfErr result (IsRefused kind (L.journal ledger.now) timestamp self.now) };

    /// The entry that a failure of this event leaves, if it leaves one. Takes no memory.
    fn left_by(&self, timestamp: u64, outcome: Outcome) -> Option<Entry>
        ensures { option_to_list result ≡ kind.left_by timestamp self.now outcome };

    /// What entries keep of their events.
    ghost keeps: { KeepsEvents kind };
}

impl Event for Account {
    ghost use Rattle.tf_events.specs.Keeping.{accounts_keep};

    ghost kind = { accounts };

    fn is_linked(&self) -> bool {
        has_flag(self.flags, Account::LINKED)
    }

    fn judge<L: Ledger>(&self, ledger: &L, timestamp: u64) -> Result<Entry, Outcome> {
        let event = fitting_account(*self);
        let verdict = verdict_account(ledger, timestamp, &event);
        if verdict == Outcome::Ok {
            Ok(Entry::Account(stored_account(ledger, timestamp, &event)))
        } else {
            Err(verdict)
        }
    }

    fn left_by(&self, timestamp: u64, outcome: Outcome) -> Option<Entry> {
        None
    }

    ghost keeps = { accounts_keep };
}

impl Event for Transfer {
    ghost use Rattle.tf_events.specs.Keeping.{transfers_keep};

    ghost kind = { transfers };

    fn is_linked(&self) -> bool {
        has_flag(self.flags, Transfer::LINKED)
    }

    fn judge<L: Ledger>(&self, ledger: &L, timestamp: u64) -> Result<Entry, Outcome> {
        let event = fitting_transfer(*self);
        match judge_transfer(ledger, timestamp, &event) {
            Ok(transfer) => Ok(Entry::Transfer(transfer)),
            Err(verdict) => Err(verdict),
        }
    }

    fn left_by(&self, timestamp: u64, outcome: Outcome) -> Option<Entry> {
        if is_passing(outcome) {
            Some(Entry::Failed {
                timestamp,
                id: self.id,
            })
        } else {
            None
        }
    }

    ghost keeps = { transfers_keep };
}

/// Whether a failure may pass, so that the id of the transfer that had it stays failed.
fn is_passing(outcome: Outcome) -> bool
    ensures { result ≡ is_transient outcome }
{
    matches!(
        outcome,
        Outcome::DebitAccountNotFound
            | Outcome::CreditAccountNotFound
            | Outcome::PendingTransferNotFound
            | Outcome::ExceedsCredits
            | Outcome::ExceedsDebits
            | Outcome::DebitAccountAlreadyClosed
            | Outcome::CreditAccountAlreadyClosed
    )
}
