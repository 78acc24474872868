//! Publishing a store: what readers and versions see.
ghost use Rattle.std.specs.Prelude.{◌≡◌, [], OnOk, OnErr, IfErr, IfOk, IfNone, IfSome};
ghost use Rattle.std.specs.List.{All};
ghost use Rattle.tf_publish.specs.Partly.{CountsParts};
ghost use Rattle.tf_publish.specs.Tables.{by_name};
ghost use Rattle.tf_store.specs.Publish.{IsIdle, IsPublish, IsTaken};
ghost use Rattle.tf_store.specs.Receipt.{IsReceiptOf};

use crate::bring_up::bring_up;
use crate::public::show_again;
use crate::{Receipt, Store, StoreName, VersionCopies};
use std::alloc::Allocator;
use std::sync::Wait;
use tf_forest::Forest;
use tf_publish::Rows;
use tf_query::Version;
use tf_records::Refusal;
use tf_rows::SealRows;

impl<T, A, S, C> Store<Forest<Rows<T, A, S>, A>, C, A, S>
where
    T: SealRows<A> + Drop,
    A: Allocator + Copy,
    S: StoreName,
    C: VersionCopies<Version<A, S>, S> + Drop,
{
    /// Publishes, and shows readers all that is stored, but that receipts go on waiting. Gives a version of it, one more owner of
    /// what readers see, or none where nothing waited.
    fn show_stored<W: Wait>(&mut self, rt: &W) -> Result<Option<Version<A, S>>, Refusal>
        ensures publish { IsPublish self.old.forest self.new.forest result }
        ensures parts { OnErr result (CountsParts (by_name self.old.forest.fresh) self.old.forest.sealed self.new.forest.sealed) }
        ensures version { IfOk result (λ given. IfSome given (λ version. version ≡ self.old.forest.journal)) }
        ensures idle { IfOk result (λ given. IfNone given (IsIdle self.old.forest self.new.forest)) }
        ensures uncounted { IfOk result (λ given. IfNone given (CountsParts (by_name self.old.forest.fresh) self.old.forest.sealed self.new.forest.sealed)) }
        ensures waiting { self.new.waiting ≡ self.old.waiting }
        ensures readable { OnOk result (self.new.readable ≡ self.old.forest.journal) }
        ensures unread { OnErr result (self.new.readable ≡ self.old.readable) }
        ensures unchanged { IfOk result (λ given. IfNone given (self.new.readable ≡ self.old.readable)) }
    {
        bring_up(self.alloc, rt, &mut self.forest, &mut self.public)
    }

    /// The version that readers see, with one more owner. It takes no memory, and `NoMemory` is the only refusal.
    fn seen(&self) -> Result<Version<A, S>, Refusal>
        ensures version { IfOk result (λ version. version ≡ self.now.readable) }
        ensures refusal { IfErr result (λ refusal. refusal ≡ Refusal.NoMemory) }
    {
        self.public.version()
    }

    /// Hands out the receipts of all that wait, in their order, once readers see all of the journal. It takes no memory.
    fn hand_over(&mut self) -> Vec<Receipt<A, S>, A>
        requires { self.old.readable ≡ self.old.forest.journal }
        ensures receipts { result.items ≡ self.old.waiting }
        ensures own { All (IsReceiptOf self.old.forest.journal) result.items }
        ensures handed { self.new.waiting ≡ [] }
        ensures forest { self.new.forest ≡ self.old.forest }
        ensures readable { self.new.readable ≡ self.old.readable }
    {
        self.queue.hand_over(self.alloc, self.public.front())
    }

    /// Seals what was stored since the last publish, so that versions and readers show it, and hands out the receipts of all
    /// batches that waited, in their order.
    ///
    /// `RegistryFull` exactly where the tables that it needs, one for each row with entries and one more for each of those
    /// that is full, don't fit under the limit of pushes, before any is pushed; else `NoMemory`, where memory is refused or the
    /// history has 2^64 - 1 publications. Then all stays as it was, but that tables that were pushed stay counted, and the
    /// receipts go on waiting. Where nothing was stored since the last publish it takes no memory and is never refused.
    ///
    /// Each receipt tells of a batch whose second journal begins the store's. Where memory was refused, the rows up to one are
    /// published as far as that got, on tables that nothing refers to, and just what was pushed for them is counted.
    ///
    /// Copies each entry stored since the last publish once in each of its rows, and the references of all tables twice. It
    /// may wait in pushes, and for readers that are about to leave what was published before the last.
    pub fn publish<W: Wait>(&mut self, rt: &W) -> Result<Vec<Receipt<A, S>, A>, Refusal>
        ensures publish { IsPublish self.old.forest self.new.forest result }
        ensures parts { OnErr result (CountsParts (by_name self.old.forest.fresh) self.old.forest.sealed self.new.forest.sealed) }
        ensures own { IfOk result (λ receipts. All (IsReceiptOf self.new.forest.journal) receipts.items) }
        ensures receipts { IfOk result (λ receipts. receipts.items ≡ self.old.waiting) }
        ensures handed { OnOk result (self.new.waiting ≡ []) }
        ensures wait { OnErr result (self.new.waiting ≡ self.old.waiting) }
        ensures readable { OnOk result (self.new.readable ≡ self.old.forest.journal) }
        ensures unread { OnErr result (self.new.readable ≡ self.old.readable) }
    {
        match self.show_stored(rt) {
            Ok(version) => drop(version),
            Err(refusal) => return Err(refusal),
        }
        Ok(self.hand_over())
    }

    /// Publishes, as `publish` does, for readers too, but that receipts go on waiting, and gives a version of the journal: one more
    /// owner of the one that readers see.
    ///
    /// Refusals and cost are those of `publish`, but that the version itself may be refused where nothing was stored since the
    /// last publish: `NoMemory` where it has 2^63 - 1 owners. Then all stays as it was.
    pub fn take_version<W: Wait>(&mut self, rt: &W) -> Result<Version<A, S>, Refusal>
        ensures publish { IsTaken self.old.forest self.new.forest result }
        ensures parts { OnErr result (CountsParts (by_name self.old.forest.fresh) self.old.forest.sealed self.new.forest.sealed) }
        ensures version { IfOk result (λ version. version ≡ self.old.forest.journal) }
        ensures waiting { self.new.waiting ≡ self.old.waiting }
        ensures readable { OnOk result (self.new.readable ≡ self.old.forest.journal) }
        ensures unread { OnErr result (self.new.readable ≡ self.old.readable) }
    {
        match self.show_stored(rt) {
            Ok(Some(version)) => Ok(version),
            Ok(None) => self.seen(),
            Err(refusal) => Err(refusal),
        }
    }

    /// Shows readers the sealed tables as merges left them: a table that a merge retired is given back once no reader and no
    /// version holds it. Without this call what readers enter refers to such a table until two more publishes had something to
    /// show.
    ///
    /// The journal that readers see is the one that they saw, and not an entry more: what was stored since the last publish
    /// goes on waiting. It may be called whether or not anything was merged.
    ///
    /// `NoMemory` is the only refusal: then readers see the same journal in the merged tables or in those from before, and the
    /// call may be made again.
    ///
    /// Copies the references of all tables once, and publishes them twice, once for each copy that readers enter. It may wait
    /// for readers that are about to leave what was published before.
    pub fn show_merged(&mut self) -> Result<(), Refusal>
        ensures same { self.new ≡ self.old }
        ensures refusal { IfErr result (λ refusal. refusal ≡ Refusal.NoMemory) }
    {
        show_again(self.alloc, &mut self.public, self.forest.tables())
    }
}
