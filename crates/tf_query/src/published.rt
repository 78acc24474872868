//! Versions as what a store publishes and readers ask.
ghost use Rattle.std.specs.Prelude.{◌≡◌, ℕ, [], IfErr, IfOk};
ghost use Rattle.tf_manifest.specs.View.{ShowsJournal, no_tables};
ghost use Rattle.tf_readers.specs.Asked.{IsFound};

use crate::laws::manifests_spell_their_journal;
use crate::version::Version;
use std::alloc::{AllocError, Allocator};
use tf_history::{Front, HistoryName};
use tf_manifest::Manifest;
use tf_readers::{Asked, Found, Publishable, Shows};
use tf_records::Refusal;
use tf_registry::Naming;

impl<A: Allocator, N: Naming> Shows for Version<A, N> {
    ghost journal = { λ version. version };
}

impl<A: Allocator, N: Naming> Publishable for Version<A, N> {
    fn again_into(&self, place: &mut Option<Self>) -> Result<(), AllocError> {
        *place = Some(self.again()?);
        Ok(())
    }

    fn ask<B: Allocator + Copy>(&self, alloc: B, asked: &Asked) -> Result<Found<B>, Refusal> {
        answered(alloc, self, asked)
    }
}

/// What a version answers. `NoMemory` is the only refusal.
fn answered<A: Allocator, N: Naming, B: Allocator + Copy>(
    alloc: B,
    version: &Version<A, N>,
    asked: &Asked,
) -> Result<Found<B>, Refusal>
    ensures found { IfOk result (IsFound version.now asked.now) }
    ensures refusal { IfErr result (λ refusal. refusal ≡ Refusal.NoMemory) }
{
    Ok(match asked {
        Asked::AccountTransfers(filter) => {
            Found::Transfers(version.get_account_transfers(alloc, filter)?)
        }
        Asked::AccountBalances(filter) => {
            Found::Balances(version.get_account_balances(alloc, filter)?)
        }
        Asked::Accounts(filter) => Found::Accounts(version.query_accounts(alloc, filter)?),
        Asked::Transfers(filter) => Found::Transfers(version.query_transfers(alloc, filter)?),
        Asked::AccountWithId(id) => Found::Accounts(version.lookup_accounts(alloc, &[*id])?),
        Asked::TransferWithId(id) => Found::Transfers(version.lookup_transfers(alloc, &[*id])?),
    })
}

/// The version of a manifest that shows a front's journal. It takes memory for a copy of the manifest's references, and for
/// the count of the version's owners. The only refusal is `NoMemory`.
pub fn version_of<A: Allocator + Copy, N: Naming, S: HistoryName>(
    alloc: A,
    manifest: &Manifest<A, N>,
    front: &Front<S>,
) -> Result<Version<A, N>, Refusal>
    requires { ShowsJournal manifest.now front.now }
    ensures version { IfOk result (λ version. version ≡ front.now) }
    ensures refusal { IfErr result (λ refusal. refusal ≡ Refusal.NoMemory) }
{
    manifests_spell_their_journal();
    // Only the length of a front tells that its journal is lawful.
    let _length = front.len();
    let copy = match manifest.again(alloc) {
        Ok(copy) => copy,
        Err(refusal) => return Err(refusal),
    };
    Version::new(alloc, copy)
}

/// A manifest with no tables shows the journal with no entries. Does nothing.
pub fn empty_manifests_show_nothing()
    ensures { (limit : ℕ) → ShowsJournal (no_tables limit) [] }
{
    // No row has a key in either.
}
