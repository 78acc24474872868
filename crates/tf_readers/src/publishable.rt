//! What can be published.
ghost use Rattle.std.specs.Prelude.{◌≡◌, List, IfErr, IfOk, IsSomeAnd, OnOk};
ghost use Rattle.tf_journal.specs.declared.entry.Entry.{Entry};
ghost use Rattle.tf_readers.specs.Asked.{IsFound};

use crate::asked::{Asked, Found};
use std::alloc::{AllocError, Allocator};
use tf_records::Refusal;

/// A value that shows a journal.
pub trait Shows {
    /// The journal that it shows.
    ghost journal: { Self → List Entry };
}

/// A value that shows a journal, has as many owners as are asked for, and is asked what the journal has.
pub trait Publishable: Shows {
    /// Puts the same value, with one more owner, into a place. It takes no memory.
    ///
    /// It is refused only where there are 2^63 - 1 owners, of which contracts know nothing. It takes a place and gives no value, since
    /// whoever names a type for a trait has the whole layout of each value compared that a call gives by itself.
    fn again_into(&self, place: &mut Option<Self>) -> Result<(), AllocError>
        ensures { OnOk result (IsSomeAnd place.new (λ copy. Self.journal copy ≡ Self.journal self.now)) };

    /// The rows that are asked for: those of the query or the look-up on the journal. [`Refusal::NoMemory`] is the only
    /// refusal. It costs what the query does.
    fn ask<B: Allocator + Copy>(&self, alloc: B, asked: &Asked) -> Result<Found<B>, Refusal>
        ensures found { IfOk result (IsFound (Self.journal self.now) asked.now) }
        ensures refusal { IfErr result (λ refusal. refusal ≡ Refusal.NoMemory) };
}

/// The same value, with one more owner. It takes no memory, and is refused only where there are 2^63 - 1 owners.
pub(crate) fn again<V: Publishable + Drop>(version: &V) -> Result<V, AllocError>
    ensures { IfOk result (λ copy. V.journal copy ≡ V.journal version.now) }
{
    let mut place = None;
    version.again_into(&mut place)?;
    match place {
        Some(copy) => Ok(copy),
        None => unreachable!(),
    }
}
