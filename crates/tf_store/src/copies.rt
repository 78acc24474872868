//! What readers of a store enter.
ghost use Rattle.std.specs.Prelude.{◌≡◌, true, is_some, OnErr, OnOk, IfErr, IfSome, IsSomeAnd};

use std::alloc::Allocator;
use std::sync::Wait;
use tf_history::{Front, HistoryName};
use tf_readers::{Copies, Publishable, Published, Shows, show};
use tf_records::Refusal;

/// What readers of a store enter: contracts see the journal that it shows.
pub trait StoredCopies {
    ghost use Rattle.std.specs.Prelude.{List};
    ghost use Rattle.tf_journal.specs.declared.entry.Entry.{Entry};

    /// The journal that was published last.
    ghost shown: { Self → List Entry };
}

/// Copies that versions of type `W` are published to, with the history that `S` names.
pub trait VersionCopies<W: Shows, S: HistoryName>: StoredCopies {
    /// Publishes a version that shows a front's journal: readers that enter later see it. It waits for those that still read
    /// what was published before the last.
    ///
    /// [`Refusal::NoMemory`] is the only refusal: nothing was shown then. Takes memory at the first publication alone, and
    /// makes one more owner of the version.
    fn show(&mut self, version: &mut Option<W>, front: &Front<S>) -> Result<(), Refusal>
        requires { IsSomeAnd version.old (λ version. W.journal version ≡ front.now) }
        ensures shown { OnOk result (Self.shown self.new ≡ front.now) }
        ensures refused { OnErr result (Self.shown self.new ≡ Self.shown self.old) }
        ensures refusal { IfErr result (λ refusal. refusal ≡ Refusal.NoMemory) };
}

impl<V: Publishable + Drop, A: Allocator, S: HistoryName, R: Wait + Drop> StoredCopies
    for Copies<V, A, S, R> {
    ghost use Rattle.left_right.specs.Handles.{published};

    ghost shown = { λ copies. published copies };
}

/// A version of type `W`, for code that is generic in what readers are shown: each type is of itself.
///
/// Whoever opens a store names the type of its versions at one call, and lets all below it be generic in a
/// `V: VersionOf<Version<A, S>> + Publishable + Drop`, whose copies are `Copies<V, A, S, R>`.
pub trait VersionOf<W: Shows>: Shows {
    /// Moves the version itself to a place, from one that has it. It takes no memory.
    ///
    /// It takes places and no values, since whoever names a type for a trait has the whole layout of each value compared that a
    /// call takes or gives by itself.
    fn move_to(version: &mut Option<W>, place: &mut Option<Self>)
        requires { is_some version.old ≡ true }
        ensures { IsSomeAnd place.new (λ placed. IfSome version.old (λ version. Self.journal placed ≡ W.journal version)) };
}

/// The version of a place, which it takes out, as one of the type that code is generic in. It takes no memory.
pub(crate) fn version_in<W: Shows, V: VersionOf<W> + Drop>(place: &mut Option<W>) -> V
    requires { is_some place.old ≡ true }
    ensures { IfSome place.old (λ version. V.journal result ≡ W.journal version) }
{
    let mut placed = None;
    V::move_to(place, &mut placed);
    match placed {
        Some(version) => version,
        None => unreachable!(),
    }
}

impl<V: Shows + Drop> VersionOf<V> for V {
    fn move_to(version: &mut Option<V>, place: &mut Option<V>) {
        *place = version.take();
    }
}

impl<W, V, A, S, R> VersionCopies<W, S> for Copies<V, A, S, R>
where
    W: Shows,
    V: VersionOf<W> + Publishable + Drop,
    A: Allocator,
    S: HistoryName,
    R: Wait + Drop,
{
    fn show(&mut self, version: &mut Option<W>, front: &Front<S>) -> Result<(), Refusal> {
        let version: V = version_in(version);
        show(self, Published::new(version, front))
    }
}
