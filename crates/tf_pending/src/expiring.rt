//! The expiry of pending transfers.

ghost use Rattle.std.specs.Prelude.{◌≡◌, ◌≤◌, ◌+◌, nat_le, length, min, take, OnErr, IfOk, IfErr};
ghost use Rattle.tf_journal.specs.Due.{due};
ghost use Rattle.tf_journal.specs.Journal.{last_timestamp};
ghost use Rattle.tf_journal.specs.Lawful.{IsLawfulAt};
ghost use Rattle.tf_pending.specs.Pulse.{IsPulseRun};
ghost use Rattle.tf_pending.specs.Parts.{IsExpiring};

use tf_journal::Ledger;
use tf_records::{BATCH_MAX, Refusal, TIMESTAMP_MAX};

/// Lets the pending transfers expire whose time is over, in the order in which their time was over, and of equal
/// ones in the order in which they were stored: at most `max`, and at most [`BATCH_MAX`]. The moment is the later
/// of the clock and `now`; expiry i of k gets the timestamp of that moment plus i + 1, and the clock moves to the
/// moment plus k. The answer is k; where it is [`BATCH_MAX`] or `max`, more may be due.
///
/// Times are nanoseconds. [`Refusal::ClockExhausted`]: the clock would pass [`TIMESTAMP_MAX`];
/// [`Refusal::NoMemory`]. After a refusal all is as it was. Costs a look-up and memory for an entry for each expiry.
pub fn pulse<L: Ledger>(ledger: &mut L, now: u64, max: u32) -> Result<u32, Refusal>
    requires { IsLawfulAt (L.clock ledger.old) (L.journal ledger.old) }
    ensures run { IsPulseRun L.journal L.clock L.kept ledger.old ledger.new now max result }
    ensures lasting { L.lasting (L.rest ledger.new) ≡ L.lasting (L.rest ledger.old) }
    ensures refused { OnErr result (L.rest ledger.new ≡ L.rest ledger.old) }
{
    let moment = now.max(ledger.clock());
    let most = max.min(BATCH_MAX);
    if !has_room(ledger, moment, most) {
        return Err(Refusal::ClockExhausted);
    }
    let before = ledger.mark();
    match expire_due(ledger, moment, most) {
        Ok(count) => {
            ledger.keep(moment + u64::from(count));
            Ok(count)
        }
        Err(refusal) => {
            ledger.undo(before);
            Err(refusal)
        }
    }
}

/// Whether there are timestamps left after this moment for so many of the transfers that are due at it.
fn has_room<L: Ledger>(ledger: &L, moment: u64, most: u32) -> bool
    ensures { result ≡ nat_le (moment + min most (length (due (L.journal ledger.now) moment))) last_timestamp }
{
    if moment > TIMESTAMP_MAX {
        return false;
    }
    let room = TIMESTAMP_MAX - moment;
    u64::from(most) <= room || u64::from(ledger.due_count(moment, most)) <= room
}

/// Lets so many of the pending transfers expire that are due at this moment, the first at the timestamp after it.
fn expire_due<L: Ledger>(ledger: &mut L, moment: u64, most: u32) -> Result<u32, Refusal>
    requires lawful { IsLawfulAt moment (L.journal ledger.old) }
    requires in_range { moment + min most (length (due (L.journal ledger.old) moment)) ≤ last_timestamp }
    ensures expired { IfOk result (λ count. IsExpiring moment (L.journal ledger.old) (L.journal ledger.new) count) }
    ensures count { IfOk result (λ count. count ≡ min most (length (due (L.journal ledger.old) moment))) }
    ensures refusal { IfErr result (λ refusal. refusal ≡ Refusal.NoMemory) }
    ensures longer { length (L.journal ledger.old) ≤ length (L.journal ledger.new) }
    ensures begins { take (length (L.journal ledger.old)) (L.journal ledger.new) ≡ L.journal ledger.old }
    ensures clock_kept { L.clock ledger.new ≡ L.clock ledger.old }
    ensures length_kept { L.kept ledger.new ≡ L.kept ledger.old }
    ensures rest { L.rest ledger.new ≡ L.rest ledger.old }
{
    for count in 0..most {
        let Some(pending) = ledger.next_due(moment) else {
            return Ok(count);
        };
        let timestamp = moment + u64::from(count) + 1;
        ledger.add_expiry(timestamp, pending.timestamp)?;
    }
    Ok(most)
}
