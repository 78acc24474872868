//! Texts that are run on a new store.
ghost use Rattle.std.specs.Prelude.{◌≡◌};

use crate::ending::end;
use crate::fixture::{Course, Fixture};
use crate::ran::{Ran, refused};
use std::alloc::Allocator;
use std::sync::Wait;
use tf_query::Version;
use tf_readers::{Publishable, Reader};
use tf_records::Refusal;
use tf_rows::SealRows;
use tf_store::{Share, StoreName, StoreOf, VersionCopies};
use tf_store_trials::{Parties, Tested};
use tf_trials::{Trial, run_text};

/// The shares and the readers of a store on a heap.
type Given<V, A, S> = (Vec<Share<S>, A>, Vec<Reader<V, A, S>, A>);

/// Runs a text on a store. Gives back its shares and readers, and the versions that were taken, too.
fn run<'t, T, A, S, C, V, R>(
    rt: &R,
    alloc: A,
    trial: &mut Trial<'_>,
    store: &mut StoreOf<T, C, A, S>,
    given: Given<V, A, S>,
    text: &'t str,
) -> (Ran<'t>, Parties<V, A, S>)
where
    T: SealRows<A> + Drop,
    A: Allocator + Copy,
    S: StoreName,
    C: VersionCopies<Version<A, S>, S> + Drop,
    V: Publishable + Drop,
    R: Wait,
{
    let (shares, readers) = given;
    let mut tested = Tested::new(rt, trial.twin.alloc, alloc, store, shares, readers);
    let ran = run_text(&mut tested, trial, text);
    (ran, tested.into_parties())
}

/// Runs a text on a new store, and ends it.
fn run_to_the_end<'t, T, A, S, C, V, R>(
    rt: &R,
    alloc: A,
    trial: &mut Trial<'_>,
    store: StoreOf<T, C, A, S>,
    given: Given<V, A, S>,
    text: &'t str,
) -> Ran<'t>
where
    T: SealRows<A> + Drop,
    A: Allocator + Copy,
    S: StoreName,
    C: VersionCopies<Version<A, S>, S> + Drop,
    V: Publishable + Drop,
    R: Wait,
    requires { S.parts ≡ 64 }
{
    let mut store = store;
    let (ran, parties) = run(rt, alloc, trial, &mut store, given, text);
    end(trial, store, parties, ran)
}

/// A store that isn't opened, which is right where it is to lack memory.
fn unopened<'t>(fixture: Fixture, refusal: Refusal) -> Ran<'t> {
    if fixture.lacks_memory && refusal == Refusal::NoMemory {
        Ok(())
    } else {
        refused("a store is opened", refusal)
    }
}

/// Runs a text on a new store and ends it, unless there is no memory for it. It is generic in what readers enter.
pub fn try_opened<'t, T, A, S, C, V, R>(
    rt: &R,
    alloc: A,
    trial: &mut Trial<'_>,
    opened: Result<
        (
            StoreOf<T, C, A, S>,
            Vec<Share<S>, A>,
            Vec<Reader<V, A, S>, A>,
        ),
        Refusal,
    >,
    course: Course<'t>,
) -> Ran<'t>
where
    T: SealRows<A> + Drop,
    A: Allocator + Copy,
    S: StoreName,
    C: VersionCopies<Version<A, S>, S> + Drop,
    V: Publishable + Drop,
    R: Wait,
    requires { S.parts ≡ 64 }
{
    match opened {
        Ok((store, shares, readers)) => {
            run_to_the_end(rt, alloc, trial, store, (shares, readers), course.text)
        }
        Err(refusal) => unopened(course.fixture, refusal),
    }
}
