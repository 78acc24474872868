//! The states of a transfer's accounts after it.
ghost use Rattle.std.specs.Prelude.{◌≡◌, ◌≤◌, IfSome};
ghost use Rattle.std.specs.Option.{option_map};
ghost use Rattle.tf_journal.specs.Balances as balances;
ghost use Rattle.tf_rows.specs.declared.found.Party.{Party};
ghost use Rattle.tf_rows.specs.Edits as edit;
ghost use Rattle.tf_rows.specs.Range.{IsInRange};

use crate::Party;
use tf_journal::{Side, has_flag, is_pending, is_void};
use tf_manifest::State;
use tf_records::{Sums, Transfer};

/// Sums with so much more pending on a side.
fn with_pending(side: Side, amount: u128, sums: Sums) -> Sums
    requires { IsInRange side (edit.with_pending side amount sums) }
    ensures { result ≡ edit.with_pending side amount sums }
{
    match side {
        Side::Debit => Sums {
            debits_pending: sums.debits_pending + amount,
            ..sums
        },
        Side::Credit => Sums {
            credits_pending: sums.credits_pending + amount,
            ..sums
        },
    }
}

/// Sums with so much less pending on a side.
fn without_pending(side: Side, amount: u128, sums: Sums) -> Sums
    ensures { result ≡ edit.without_pending side amount sums }
{
    match side {
        Side::Debit => Sums {
            debits_pending: sums.debits_pending.saturating_sub(amount),
            ..sums
        },
        Side::Credit => Sums {
            credits_pending: sums.credits_pending.saturating_sub(amount),
            ..sums
        },
    }
}

/// Sums with so much more posted on a side.
fn with_posted(side: Side, amount: u128, sums: Sums) -> Sums
    requires { IsInRange side (edit.with_posted side amount sums) }
    ensures { result ≡ edit.with_posted side amount sums }
{
    match side {
        Side::Debit => Sums {
            debits_posted: sums.debits_posted + amount,
            ..sums
        },
        Side::Credit => Sums {
            credits_posted: sums.credits_posted + amount,
            ..sums
        },
    }
}

/// What a transfer posts: its amount, unless it is pending or a void.
fn posted_amount(transfer: &Transfer) -> u128
    ensures { result ≡ balances.posted_amount transfer.now }
{
    if is_pending(transfer) || is_void(transfer) {
        0
    } else {
        transfer.amount
    }
}

/// Whether a pending transfer closes the account on a side.
fn closes_on(side: Side, transfer: &Transfer) -> bool
    ensures { result ≡ edit.closes_on side transfer.now }
{
    match side {
        Side::Debit => has_flag(transfer.flags, Transfer::CLOSING_DEBIT),
        Side::Credit => has_flag(transfer.flags, Transfer::CLOSING_CREDIT),
    }
}

/// After a new pending transfer.
fn state_pending(side: Side, transfer: &Transfer, state: State) -> State
    requires { IsInRange side (edit.state_pending side transfer.now state).sums }
    ensures { result ≡ edit.state_pending side transfer.now state }
{
    State {
        sums: with_pending(side, transfer.amount, state.sums),
        closed: state.closed || closes_on(side, transfer),
    }
}

/// After a pending transfer is settled, and nothing posted.
fn state_released(side: Side, pending: &Transfer, state: State) -> State
    ensures { result ≡ edit.state_settled side pending.now 0 state }
{
    State {
        sums: without_pending(side, pending.amount, state.sums),
        closed: state.closed && !closes_on(side, pending),
    }
}

/// After a pending transfer is settled, and so much posted.
fn state_settled(side: Side, pending: &Transfer, posted: u128, state: State) -> State
    requires { IsInRange side (edit.state_settled side pending.now posted state).sums }
    ensures { result ≡ edit.state_settled side pending.now posted state }
{
    let left = without_pending(side, pending.amount, state.sums);
    State {
        sums: with_posted(side, posted, left),
        closed: state.closed && !closes_on(side, pending),
    }
}

/// After any transfer, which settles this pending transfer, if one.
fn state_after(side: Side, transfer: &Transfer, settled: &Option<Transfer>, state: State) -> State
    requires { IsInRange side (edit.state_after side transfer.now settled.now state).sums }
    ensures { result ≡ edit.state_after side transfer.now settled.now state }
{
    match settled {
        Some(pending) => state_settled(side, pending, posted_amount(transfer), state),
        None if is_pending(transfer) => state_pending(side, transfer, state),
        None => State {
            sums: with_posted(side, transfer.amount, state.sums),
            ..state
        },
    }
}

/// The account on a side after a transfer, which settles this pending transfer, if one.
pub(crate) fn party_after(
    side: Side,
    transfer: &Transfer,
    settled: &Option<Transfer>,
    party: &Option<Party>,
) -> Option<Party>
    requires { IfSome party.now (λ p. IsInRange side (edit.state_after side transfer.now settled.now p.state).sums) }
    ensures { result ≡ option_map (edit.party_after (edit.state_after side transfer.now settled.now)) party.now }
{
    let party = (*party)?;
    let state = state_after(side, transfer, settled, party.state);
    Some(Party { state, ..party })
}

/// The account on a side after a pending transfer expires.
pub(crate) fn party_expired(side: Side, pending: &Transfer, party: &Option<Party>) -> Option<Party>
    ensures { result ≡ option_map (edit.party_after (edit.state_settled side pending.now 0)) party.now }
{
    let party = (*party)?;
    let state = state_released(side, pending, party.state);
    Some(Party { state, ..party })
}
