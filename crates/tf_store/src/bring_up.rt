//! Bringing what readers see up to what is stored.
//!
//! That takes the prover much memory, and it proves this module before most others, while it holds less.
ghost use mathlib.Core.List.{IsPrefix};
ghost use Rattle.std.specs.Prelude.{◌≡◌, ◌≤◌, length, OnOk, OnErr, IfOk, IfNone, IfSome};
ghost use Rattle.tf_journal.specs.Lawful.{IsLawful};
ghost use Rattle.tf_publish.specs.Partly.{CountsParts};
ghost use Rattle.tf_publish.specs.Tables.{by_name};
ghost use Rattle.tf_store.specs.Public.{IsPublic, all_public};
ghost use Rattle.tf_store.specs.Publish.{IsIdle, IsPublish};

use crate::public::{Public, tell};
use crate::{StoreName, VersionCopies};
use std::alloc::Allocator;
use std::sync::Wait;
use tf_forest::Forest;
use tf_manifest::manifest_shows_one_journal;
use tf_publish::Rows;
use tf_query::Version;
use tf_records::Refusal;
use tf_rows::SealRows;

/// Publishes a forest, and shows readers its journal. Gives a version of it, one more owner of what readers see, or none where
/// nothing waited: then readers saw all of the journal already, and nothing happened.
pub(crate) fn bring_up<T, A, S, C, W>(
    alloc: A,
    rt: &W,
    forest: &mut Forest<Rows<T, A, S>, A>,
    public: &mut Public<C, A, S>,
) -> Result<Option<Version<A, S>>, Refusal>
where
    T: SealRows<A> + Drop,
    A: Allocator + Copy,
    S: StoreName,
    C: VersionCopies<Version<A, S>, S> + Drop,
    W: Wait,
    requires lawful { IsLawful forest.old.journal }
    requires kept { forest.old.kept ≡ length forest.old.journal }
    requires public { IsPublic forest.old public.old }
    ensures publish { IsPublish forest.old forest.new result }
    ensures version { IfOk result (λ given. IfSome given (λ version. version ≡ forest.old.journal)) }
    ensures all { OnOk result (public.new ≡ all_public forest.new.journal public.new.publications) }
    ensures begins { IsPrefix public.new.front forest.new.journal }
    ensures further { length public.old.front ≤ length public.new.front }
    ensures refused { OnErr result ((public.new.shown ≡ public.old.shown) × (public.new.readable ≡ public.old.readable)) }
    ensures parts { OnErr result (CountsParts (by_name forest.old.fresh) forest.old.sealed forest.new.sealed) }
    ensures idle { IfOk result (λ given. IfNone given (IsIdle forest.old forest.new)) }
    ensures uncounted { IfOk result (λ given. IfNone given (CountsParts (by_name forest.old.fresh) forest.old.sealed forest.new.sealed)) }
    ensures same { IfOk result (λ given. IfNone given (public.new ≡ public.old)) }
{
    manifest_shows_one_journal();
    // It tells how many tables are needed for what waits.
    forest.facts_of_rows();
    let Some(prepared) = forest.prepare(rt)? else {
        return Ok(None);
    };
    match tell(alloc, public, forest, prepared.manifest()) {
        Ok(version) => {
            forest.settle(prepared);
            Ok(Some(version))
        }
        Err(refusal) => {
            drop(prepared);
            Err(refusal)
        }
    }
}
