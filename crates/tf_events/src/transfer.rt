//! The results of transfer events.

ghost use Rattle.std.specs.Prelude.{◌≡◌};
ghost use Rattle.tf_journal.specs.Journal.{IsJournal};
ghost use Rattle.tf_journal.specs.Stored as record_of;
ghost use Rattle.tf_journal.specs.Verdict.{transfer_verdict};
ghost use Rattle.tf_pending.specs.Judgement.{IsJudgement};

use crate::moving::verdict_moving;
use tf_journal::{Ledger, is_settling};
use tf_pending::{judge_settling, stored_settling, verdict_settling};
use tf_records::{Outcome, Transfer};

/// The verdict on a transfer event: the outcome of the first rule that it breaks, else [`Outcome::Ok`].
///
/// The timestamp, in nanoseconds, is that at which the event is judged. Takes no memory. Looks up each record
/// once, and only as far as no rule before is broken: the event's own id and its two accounts; of a post or void
/// also the pending transfer and its status. As `create_transfers` of TigerBeetle's reference.
pub fn verdict_transfer<L: Ledger>(ledger: &L, timestamp: u64, event: &Transfer) -> Outcome
    requires { IsJournal (L.journal ledger.now) }
    ensures { result ≡ transfer_verdict (L.journal ledger.now) timestamp event.now }
{
    if is_settling(event) {
        verdict_settling(ledger, timestamp, event)
    } else {
        verdict_moving(ledger, timestamp, event)
    }
}

/// The record that an accepted transfer event is stored as: a post or void with what it leaves out filled in from
/// its pending transfer, any other transfer as it is, with its timestamp, in nanoseconds.
///
/// Takes no memory. Costs one look-up for a post or void, else none.
pub fn stored_transfer<L: Ledger>(ledger: &L, timestamp: u64, event: &Transfer) -> Transfer
    ensures { result ≡ record_of.stored_transfer (L.journal ledger.now) timestamp event.now }
{
    if is_settling(event) {
        stored_settling(ledger, timestamp, event)
    } else {
        Transfer {
            timestamp,
            ..*event
        }
    }
}

/// Judges a transfer event at this timestamp: the record that it is stored as, or its verdict, which isn't ok.
///
/// Takes no memory, and looks up what [`verdict_transfer`] does.
pub fn judge_transfer<L: Ledger>(
    ledger: &L,
    timestamp: u64,
    event: &Transfer,
) -> Result<Transfer, Outcome>
    requires { IsJournal (L.journal ledger.now) }
    ensures { IsJudgement (L.journal ledger.now) timestamp event.now result }
{
    if is_settling(event) {
        return judge_settling(ledger, timestamp, event);
    }
    let verdict = verdict_moving(ledger, timestamp, event);
    if verdict == Outcome::Ok {
        Ok(Transfer {
            timestamp,
            ..*event
        })
    } else {
        Err(verdict)
    }
}
