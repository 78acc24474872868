//! Laws of sound journals, each the contract of a function that does nothing.
//!
//! A journal is sound where its timestamps rise and each entry was admitted by those before it. So every
//! journal that a ledger ever holds is sound, between chains and within them. The laws say in a ledger's own
//! terms what follows. They restate the limits of "Account" and "Two-Phase Transfers" of TigerBeetle's reference.

ghost use Rattle.std.specs.List.{All};
ghost use Rattle.std.specs.Prelude.{List};
ghost use Rattle.tf_journal.specs.declared.entry.Entry.{Entry};
ghost use Rattle.tf_journal.specs.Journal.{transfers_of};
ghost use Rattle.tf_journal.specs.Laws.{HasAccounts, HasUniqueIds, IsBalanced, IsWithinLimits, SettlesOnce};
ghost use Rattle.tf_journal.specs.Lawful.{IsSound};

/// What is pending and what is posted on a side of an account are together at most `2^128 - 1`, so no sum of
/// a ledger wraps. Where an account limits its debits they are at most its posted credits, and where it limits
/// its credits they are at most its posted debits. Does nothing.
pub fn journals_are_within_limits()
    ensures { (journal : List Entry) → IsSound journal → IsWithinLimits journal }
{
    // Each transfer was judged by the sums before it, and a post takes no more than was pending.
}

/// No two accounts have one id and no two transfers do. No transfer id failed twice, and none is both stored
/// and failed. Does nothing.
pub fn ids_are_unique()
    ensures { (journal : List Entry) → IsSound journal → HasUniqueIds journal }
{
    // An event whose id is in use is refused.
}

/// The two accounts of a transfer are stored, differ, and have its ledger. Does nothing.
pub fn transfers_have_their_accounts()
    ensures { (journal : List Entry) → IsSound journal → All (HasAccounts journal) (transfers_of journal) }
{
    // No account is ever removed, and a post or void has those of its pending transfer.
}

/// Double entry: over all accounts, posted debits add up to posted credits, and pending debits to pending
/// credits. Does nothing.
pub fn journals_are_balanced()
    ensures { (journal : List Entry) → IsSound journal → IsBalanced journal }
{
    // Each transfer has one account on each side, and its amount counts once there.
}

/// A pending transfer is posted, voided or expired at most once. Does nothing.
pub fn pending_transfers_settle_once()
    ensures { (journal : List Entry) → IsSound journal → SettlesOnce journal }
{
    // What posts, voids or expires a pending transfer finds it open.
}
