//! A store as tests call it. Each function makes one call of it.

use crate::answers::answers;
use crate::calls::{counts_of, is_alike, run};
use std::alloc::{Allocator, Global};
use std::sync::Wait;
use tf_manifest::{Merged, Row};
use tf_query::Version;
use tf_readers::{Publishable, Reader};
use tf_records::Refusal;
use tf_registry::Uninstalled;
use tf_rows::{MutableRows, SealRows};
use tf_script::Command;
use tf_store::{Events, Receipt, Share, StoreName, StoreOf, StoredCopies, VersionCopies};
use tf_trials::{
    Act, Acted, Answered, Call, Counted, Plain, Tally, Told, Tried, Whom, acted, done, found, keep,
    keep_given, last_of, let_go,
};

/// A store that is borrowed, with its shares and readers, the versions that were taken of it and given to readers, and what was
/// merged and isn't installed. Its type names the parts of a store alone, so that no check compares what they make up.
#[derive(Drop)]
pub struct Tested<'s, T, C, V, A, S, R>
where
    T: MutableRows + Drop,
    C: StoredCopies + Drop,
    V: Publishable + Drop,
    A: Allocator + Copy,
    S: StoreName,
{
    rt: &'s R,
    lists: Global,
    alloc: A,
    store: &'s mut StoreOf<T, C, A, S>,
    shares: Vec<Share<S>, A>,
    readers: Vec<Reader<V, A, S>, A>,
    taken: Vec<Version<A, S>, Global>,
    given: Vec<V, Global>,
    merged: Vec<Merged<A, S>, Global>,
}

/// The shares and the readers of a store, and the versions that were taken of it.
pub type Parties<V, A, S> = (
    Vec<Share<S>, A>,
    Vec<Reader<V, A, S>, A>,
    Vec<Version<A, S>, Global>,
);

impl<'s, T, C, V, A, S, R> Tested<'s, T, C, V, A, S, R>
where
    T: SealRows<A> + Drop,
    C: VersionCopies<Version<A, S>, S> + Drop,
    V: Publishable + Drop,
    A: Allocator + Copy,
    S: StoreName,
    R: Wait,
{
    /// A store that is tried.
    pub fn new(
        rt: &'s R,
        lists: Global,
        alloc: A,
        store: &'s mut StoreOf<T, C, A, S>,
        shares: Vec<Share<S>, A>,
        readers: Vec<Reader<V, A, S>, A>,
    ) -> Self {
        Tested {
            rt,
            lists,
            alloc,
            store,
            shares,
            readers,
            taken: Vec::new(lists),
            given: Vec::new(lists),
            merged: Vec::new(lists),
        }
    }

    /// Its shares and readers, and the versions that were taken. All else that is kept is let go.
    pub fn into_parties(self) -> Parties<V, A, S> {
        let Tested {
            rt: _,
            lists: _,
            alloc: _,
            store: _,
            shares,
            readers,
            taken,
            given: _,
            merged: _,
        } = self;
        (shares, readers, taken)
    }

    fn publish(&mut self, learner: Option<usize>) -> Result<Vec<Told, Global>, Refusal> {
        let published = self.store.publish(self.rt);
        told(self.lists, published, &mut self.readers, learner)
    }

    fn act(&mut self, act: Act) -> Acted {
        match act {
            Act::Take => keep(&mut self.taken, self.store.take_version(self.rt)),
            Act::LetTakenGo => let_go(&mut self.taken),
            Act::Give(reader) => give(&mut self.readers, &mut self.given, reader),
            Act::LetGivenGo => let_go(&mut self.given),
            Act::Follow(reader) => follow(&mut self.readers, reader),
            Act::ShowMerged => acted(self.store.show_merged()),
            Act::Merge(row) => merge(self.alloc, self.store, &mut self.merged, row),
            Act::Install => install(self.rt, self.store, &mut self.merged),
        }
    }
}

impl<'s, T, C, V, A, S, R> Tested<'s, T, C, V, A, S, R>
where
    T: MutableRows + Drop,
    C: StoredCopies + Drop,
    V: Publishable + Drop,
    A: Allocator + Copy,
    S: StoreName,
{
    fn ask(&self, whom: Whom, plain: &Plain) -> Tally {
        match whom {
            Whom::Taken(place) => answers_of(self.lists, self.taken.get(place), plain),
            Whom::Given(place) => answers_of(self.lists, self.given.get(place), plain),
            Whom::Held(place) => answers_held(self.lists, self.readers.get(place), plain),
        }
    }

    fn counted(&self, share: usize) -> Counted {
        Counted {
            by_share: by_share(&self.shares, share),
            shares: self.shares.len(),
            readers: self.readers.len(),
            ..counts_of(self.store)
        }
    }
}

impl<'s, T, C, V, A, S, R> Tried for Tested<'s, T, C, V, A, S, R>
where
    T: SealRows<A> + Drop,
    C: VersionCopies<Version<A, S>, S> + Drop,
    V: Publishable + Drop,
    A: Allocator + Copy,
    S: StoreName,
    R: Wait,
{
    fn call(&mut self, call: Call<'_>) -> Answered {
        match call {
            Call::Run(share, command) => Answered::Ran(run(
                self.lists,
                self.store,
                &mut self.shares,
                share,
                command,
            )),
            Call::Publish(learner) => Answered::Published(self.publish(learner)),
            Call::Act(act) => Answered::Acted(self.act(act)),
            Call::Ask(whom, plain) => Answered::Asked(self.ask(whom, plain)),
            Call::Compare(plain, ids) => Answered::Compared(is_alike(self.store, plain, ids)),
            Call::Count(share) => Answered::Counted(self.counted(share)),
        }
    }
}

/// What a share counts, 0 where it isn't there.
fn by_share<A: Allocator, S: StoreName>(shares: &Vec<Share<S>, A>, share: usize) -> u64 {
    match shares.get(share) {
        Some(share) => share.count(),
        None => 0,
    }
}

/// Keeps the version that a reader is given.
fn give<V: Publishable + Drop, A: Allocator, S: StoreName>(
    readers: &mut Vec<Reader<V, A, S>, A>,
    given: &mut Vec<V, Global>,
    reader: usize,
) -> Acted {
    match readers.get_mut(reader) {
        Some(reader) => keep_given(given, reader.latest()),
        None => Acted::Nothing,
    }
}

/// A reader follows.
fn follow<V: Publishable + Drop, A: Allocator, S: StoreName>(
    readers: &mut Vec<Reader<V, A, S>, A>,
    reader: usize,
) -> Acted {
    match readers.get_mut(reader) {
        Some(reader) => done(reader.follow()),
        None => Acted::Nothing,
    }
}

/// Merges the next run of a row, and keeps what it was merged into.
fn merge<T, C, A, S>(
    alloc: A,
    store: &StoreOf<T, C, A, S>,
    kept: &mut Vec<Merged<A, S>, Global>,
    row: usize,
) -> Acted
where
    T: MutableRows + Drop,
    C: StoredCopies + Drop,
    A: Allocator + Copy,
    S: StoreName,
{
    let Some(row) = Row::ALL.get(row) else {
        return Acted::Nothing;
    };
    let job = match found(store.pick(*row)) {
        Ok(job) => job,
        Err(why) => return why,
    };
    let merged = job.merge(alloc);
    drop(job);
    keep(kept, merged)
}

/// Installs what was merged last.
fn install<T, C, A, S, R>(
    rt: &R,
    store: &mut StoreOf<T, C, A, S>,
    kept: &mut Vec<Merged<A, S>, Global>,
) -> Acted
where
    T: MutableRows + Drop,
    C: StoredCopies + Drop,
    A: Allocator + Copy,
    S: StoreName,
    R: Wait,
{
    let merged = match last_of(kept) {
        Ok(merged) => merged,
        Err(why) => return why,
    };
    installed(kept, store.install(rt, merged))
}

/// What became of an install. A merged table that is handed back is kept.
fn installed<M: Drop>(kept: &mut Vec<M, Global>, answer: Result<(), Uninstalled<M>>) -> Acted {
    match answer {
        Ok(()) => Acted::Done,
        Err(Uninstalled::Stale) => Acted::Refused(Refusal::Stale),
        Err(Uninstalled::RegistryFull) => Acted::Refused(Refusal::RegistryFull),
        Err(Uninstalled::NoMemory(merged)) => match kept.push(merged) {
            Ok(()) => Acted::Refused(Refusal::NoMemory),
            Err(_) => Acted::Nothing,
        },
    }
}

/// How a version answers, if it is there.
pub fn answers_of<V: Publishable>(alloc: Global, version: Option<&V>, plain: &Plain) -> Tally {
    match version {
        Some(version) => answers(alloc, version, plain),
        None => Tally::WRONG,
    }
}

/// The same of the version that a reader holds.
pub fn answers_held<V: Publishable + Drop, A: Allocator, S: StoreName>(
    alloc: Global,
    reader: Option<&Reader<V, A, S>>,
    plain: &Plain,
) -> Tally {
    match reader {
        Some(reader) => answers(alloc, reader.held(), plain),
        None => Tally::WRONG,
    }
}

/// What receipts tell. A reader may learn of the last of them.
fn told<V: Publishable + Drop, A: Allocator, S: StoreName>(
    alloc: Global,
    published: Result<Vec<Receipt<A, S>, A>, Refusal>,
    readers: &mut Vec<Reader<V, A, S>, A>,
    learner: Option<usize>,
) -> Result<Vec<Told, Global>, Refusal> {
    let receipts = published?;
    if let (Some(receipt), Some(reader)) = (receipts.last(), learner_of(readers, learner)) {
        receipt.show(reader);
    }
    let mut all = Vec::new(alloc);
    for receipt in &receipts {
        all.push(told_by(alloc, receipt)?)?;
    }
    Ok(all)
}

/// The reader at this place, if one is named and is there.
fn learner_of<V: Publishable + Drop, A: Allocator, S: StoreName>(
    readers: &mut Vec<Reader<V, A, S>, A>,
    learner: Option<usize>,
) -> Option<&mut Reader<V, A, S>> {
    readers.get_mut(learner?)
}

/// What a receipt tells.
fn told_by<A: Allocator, S: StoreName>(
    alloc: Global,
    receipt: &Receipt<A, S>,
) -> Result<Told, Refusal> {
    let now = receipt.now();
    let batch = match receipt.events() {
        Events::Accounts(events) => Command::Accounts {
            now,
            events: events.to_vec(alloc)?,
        },
        Events::Transfers(events) => Command::Transfers {
            now,
            events: events.to_vec(alloc)?,
        },
    };
    Ok(Told {
        batch,
        clock: receipt.clock_before(),
        reply: receipt.reply().as_slice().to_vec(alloc)?,
    })
}
