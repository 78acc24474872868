//! Versions.
ghost use Rattle.std.specs.Prelude.{◌≡◌, ◌≤◌, false, length, min, vec_capacity, Err, IfErr, IfOk, IsOk, MatchOption};
ghost use Rattle.tf_journal.specs.Answer.{account_transfers_of, answer_max, found_accounts_of, found_transfers_of, history_of, lookup_refusal, looked_up_accounts, looked_up_transfers};
ghost use Rattle.tf_journal.specs.Filter.{is_valid_account_filter, is_valid_query_filter};
ghost use Rattle.tf_query.specs.Version.{ShowsLawfulJournal, journal_shown};

use crate::filters::{account_transfers, found_accounts, found_transfers};
use crate::history::account_history;
use crate::look_ups::{accounts_with_ids, transfers_with_ids};
use std::alloc::{AllocError, Allocator};
use std::marker::Model;
use std::sync::Arc;
use tf_manifest::Manifest;
use tf_records::{Account, AccountBalance, AccountFilter, QueryFilter, Refusal, Transfer};
use tf_registry::Naming;

/// A manifest that shows a lawful journal, which may have several owners. Contracts see a version as that journal.
///
/// It owns the tables that it refers to together with whoever else does, so nothing that happens to a store changes it, and its
/// calls wait for nobody. The last owner of a version gives back its references, and with the last reference to a table the
/// table's rows: whoever drops that owner pays for it.
#[derive(Drop)]
pub struct Version<A: Allocator, N: Naming> {
    manifest: Arc<Manifest<A, N>, A>,
}

impl<A: Allocator, N: Naming> Model for Version<A, N> {
    ghost use Rattle.std.specs.Arc.{arc_value};
    ghost use Rattle.std.specs.Prelude.{List};
    ghost use Rattle.tf_journal.specs.declared.entry.Entry.{Entry};

    ghost Value = { List Entry };

    ghost use Rattle.tf_query.specs.Version.{ShowsLawfulJournal, journal_shown};

    ghost view = { λ v. journal_shown (arc_value v.manifest) };

    ghost invariant = { λ v. ShowsLawfulJournal (arc_value v.manifest) };
}

impl<A: Allocator, N: Naming> Version<A, N> {
    /// The version of a manifest. It takes memory for the count of its owners and the manifest's own 400 bytes. The only
    /// refusal is `NoMemory`.
    pub fn new(alloc: A, manifest: Manifest<A, N>) -> Result<Version<A, N>, Refusal>
        requires { ShowsLawfulJournal manifest }
        ensures version { IfOk result (λ version. version ≡ journal_shown manifest) }
        ensures refusal { IfErr result (λ refusal. refusal ≡ Refusal.NoMemory) }
    {
        match Arc::new(alloc, manifest) {
            Ok(manifest) => Ok(Version { manifest }),
            Err(_) => Err(Refusal::NoMemory),
        }
    }

    /// The same version, with one more owner. It takes no memory, and no time that grows with the version.
    ///
    /// It is refused only where the version has 2^63 - 1 owners, of which contracts know nothing.
    pub fn again(&self) -> Result<Version<A, N>, AllocError>
        ensures { IfOk result (λ version. version ≡ self.now) }
    {
        Ok(Version {
            manifest: Arc::try_clone(&self.manifest)?,
        })
    }

    /// The transfers of an account that a filter asks for: those with the account on a side that is asked for.
    ///
    /// They stand by rising timestamp, or by falling where the filter is reversed, and are the first `BATCH_MAX`, or the
    /// first of the filter's limit where that is less. The answer of an invalid filter is empty and takes no memory.
    /// [`Refusal::NoMemory`] is the only refusal.
    ///
    /// It reads the timestamps of the account's transfers, of those with each field of the user's that is asked for, and of
    /// both sides, side by side, and seeks from one to the next that all can have. It reads them in parts of 256, none longer
    /// than what is still asked for, so that few open few tables. Memory is taken for a box of two kilobytes for each of them
    /// and two small boxes for each but the first, once for the timestamps (just as many where one part has them all, else as
    /// many as the limit; none where the limit is 32 or less), and once for just as many rows, into which each record is copied
    /// from its table. Where the limit is above 32 and no bound is given, all tables of an index are searched at first, and the
    /// searches take turns, so that what they read comes from memory together; else a table is searched once it is read.
    ///
    /// A code of which there are no fewer timestamps than of the account, by the largest tables of their indexes, isn't read so:
    /// it is tested on the records at the other timestamps, each of which costs one look-up, whether it passes or not, and a
    /// part is no longer than the limit. Then memory is taken for the boxes, and once for rows: as many as the first part has
    /// timestamps where it has them all, else as many as the limit. Restates the reference page
    /// get_account_transfers.
    pub fn get_account_transfers<B: Allocator + Copy>(
        &self,
        alloc: B,
        filter: &AccountFilter,
    ) -> Result<Vec<Transfer, B>, Refusal>
        ensures ok { IfOk result (λ rows. rows.items ≡ account_transfers_of self.now filter.now) }
        ensures room { IfOk result (λ rows. vec_capacity rows ≤ min filter.now.limit answer_max) }
        ensures refusal { IfErr result (λ refusal. refusal ≡ Refusal.NoMemory) }
        ensures invalid { is_valid_account_filter filter.now ≡ false → IsOk result }
    {
        account_transfers(alloc, &self.manifest, filter)
    }

    /// The balances of an account right after each transfer that `get_account_transfers` gives, each with that transfer's
    /// timestamp: of a stored account with the flag `HISTORY` alone, else nothing.
    ///
    /// Refused as there. Where both sides are asked for and no field, the rows of the account's balances are read alone, in
    /// each table from a search on, as those of an index are there. Else the timestamps are read in the same way as there, but
    /// that those of a code that is asked for are read beside the others. The balances of each transfer are looked for next to
    /// those of the last one. Restates the reference page get_account_balances.
    pub fn get_account_balances<B: Allocator + Copy>(
        &self,
        alloc: B,
        filter: &AccountFilter,
    ) -> Result<Vec<AccountBalance, B>, Refusal>
        ensures ok { IfOk result (λ rows. rows.items ≡ history_of self.now filter.now) }
        ensures room { IfOk result (λ rows. vec_capacity rows ≤ min filter.now.limit answer_max) }
        ensures refusal { IfErr result (λ refusal. refusal ≡ Refusal.NoMemory) }
        ensures invalid { is_valid_account_filter filter.now ≡ false → IsOk result }
    {
        account_history(alloc, &self.manifest, filter)
    }

    /// The accounts that a filter asks for, each with its balances, and marked as closed where it is.
    ///
    /// Their order, number and refusals, and the cost, are those of `get_account_transfers` without a code, with two look-ups
    /// in rows for each account: the timestamps of each field that is asked for are read side by side. Restates the reference
    /// page query_accounts.
    pub fn query_accounts<B: Allocator + Copy>(
        &self,
        alloc: B,
        filter: &QueryFilter,
    ) -> Result<Vec<Account, B>, Refusal>
        ensures ok { IfOk result (λ rows. rows.items ≡ found_accounts_of self.now filter.now) }
        ensures room { IfOk result (λ rows. vec_capacity rows ≤ min filter.now.limit answer_max) }
        ensures refusal { IfErr result (λ refusal. refusal ≡ Refusal.NoMemory) }
        ensures invalid { is_valid_query_filter filter.now ≡ false → IsOk result }
    {
        found_accounts(alloc, &self.manifest, filter)
    }

    /// The transfers that a filter asks for.
    ///
    /// Their order, number and refusals, and the cost, are those of `get_account_transfers`: a ledger or a code of which there
    /// are no fewer timestamps than of another field that is asked for is tested on the records; the timestamps of each other
    /// field are read side by side. Restates the reference page query_transfers.
    pub fn query_transfers<B: Allocator + Copy>(
        &self,
        alloc: B,
        filter: &QueryFilter,
    ) -> Result<Vec<Transfer, B>, Refusal>
        ensures ok { IfOk result (λ rows. rows.items ≡ found_transfers_of self.now filter.now) }
        ensures room { IfOk result (λ rows. vec_capacity rows ≤ min filter.now.limit answer_max) }
        ensures refusal { IfErr result (λ refusal. refusal ≡ Refusal.NoMemory) }
        ensures invalid { is_valid_query_filter filter.now ≡ false → IsOk result }
    {
        found_transfers(alloc, &self.manifest, filter)
    }

    /// The accounts with these ids, in the order of the ids, each with its balances, and marked as closed where it is. An
    /// id under which nothing is stored gives no row, and a repeated id gives its row again.
    ///
    /// More than `BATCH_MAX` ids are [`Refusal::BatchTooLarge`], before any memory is taken; else the only refusal is
    /// [`Refusal::NoMemory`]. Takes three look-ups in rows for each id, and memory for as many rows as ids once. Restates the
    /// reference page lookup_accounts.
    pub fn lookup_accounts<B: Allocator>(
        &self,
        alloc: B,
        ids: &[u128],
    ) -> Result<Vec<Account, B>, Refusal>
        ensures ok { IfOk result (λ rows. rows.items ≡ looked_up_accounts self.now ids.now) }
        ensures room { IfOk result (λ rows. vec_capacity rows ≡ length ids.now) }
        ensures refused { MatchOption (lookup_refusal (length ids.now))
            (IfErr result (λ refusal. refusal ≡ Refusal.NoMemory)) (λ refusal. result ≡ Err refusal) }
    {
        accounts_with_ids(alloc, &self.manifest, ids)
    }

    /// The transfers with these ids, in the order of the ids. An id under which nothing is stored gives no row, and a
    /// repeated id gives its row again.
    ///
    /// Refused as `lookup_accounts`. Takes two look-ups in rows for each id, and memory for as many rows as ids once.
    ///
    /// Where more than 16 ids rise, memory is taken once more, some 64 bytes for each table of the row of ids. Each table then
    /// remembers between which ids it has none, so that of the ids between two that it has each costs it two comparisons, and
    /// the next one that it has is found without a search. Other ids are searched for by 16 at a time, whose searches take turns.
    /// Restates the reference page lookup_transfers.
    pub fn lookup_transfers<B: Allocator + Copy>(
        &self,
        alloc: B,
        ids: &[u128],
    ) -> Result<Vec<Transfer, B>, Refusal>
        ensures ok { IfOk result (λ rows. rows.items ≡ looked_up_transfers self.now ids.now) }
        ensures room { IfOk result (λ rows. vec_capacity rows ≡ length ids.now) }
        ensures refused { MatchOption (lookup_refusal (length ids.now))
            (IfErr result (λ refusal. refusal ≡ Refusal.NoMemory)) (λ refusal. result ≡ Err refusal) }
    {
        transfers_with_ids(alloc, &self.manifest, ids)
    }
}
