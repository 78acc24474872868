//! What was published.
ghost use Rattle.std.specs.Prelude.{◌≡◌, IfOk};
ghost use Rattle.tf_journal.specs.Lawful.{IsLawful};

use crate::publishable::{Publishable, again};
use left_right::Absorb;
use std::alloc::AllocError;
use std::marker::Model;
use tf_history::{Front, HistoryName};
use tf_journal::Entry;

/// A version, and the history as far as it goes: both are one journal, which is lawful. Contracts see it as that journal.
#[derive(Drop)]
pub struct Published<V: Publishable, S: HistoryName> {
    version: V,
    front: Front<S>,
}

impl<V: Publishable, S: HistoryName> Model for Published<V, S> {
    ghost use Rattle.std.specs.Prelude.{◌≡◌, List};
    ghost use Rattle.tf_journal.specs.declared.entry.Entry.{Entry};

    ghost Value = { List Entry };

    ghost view = { λ p. p.front };

    ghost invariant = { λ p. V.journal p.version ≡ p.front };
}

impl<V: Publishable, S: HistoryName> Published<V, S> {
    /// A version that shows a front's journal. It takes no memory.
    pub fn new(version: V, front: &Front<S>) -> Published<V, S>
        requires { V.journal version ≡ front.now }
        ensures { result ≡ front.now }
    {
        Published {
            version,
            front: front.again(),
        }
    }

    /// The version.
    pub fn version(&self) -> &V
        ensures { V.journal result.now ≡ self.now }
    {
        &self.version
    }

    /// The history as far as it goes.
    pub fn front(&self) -> &Front<S>
        ensures { result.now ≡ self.now }
    {
        &self.front
    }
}

impl<V: Publishable + Drop, S: HistoryName> Published<V, S> {
    /// The same, with one more owner of the version. It takes no memory, and is refused only where the version has 2^63 - 1
    /// owners.
    pub fn again(&self) -> Result<Published<V, S>, AllocError>
        ensures { IfOk result (λ copy. copy ≡ self.now) }
    {
        Ok(Published {
            version: again(&self.version)?,
            front: self.front.again(),
        })
    }
}

/// What is published takes the place of what was.
impl<V: Publishable + Drop, S: HistoryName> Absorb<Published<V, S>> for Published<V, S> {
    type State = [Entry; 0];

    ghost state = { λ p. p };

    ghost applied = { λ before next. next };

    /// One more owner of the version. It takes no memory, and is refused only where the version has 2^63 - 1 owners.
    fn absorb_first(
        &mut self,
        operation: &Published<V, S>,
        _other: &Published<V, S>,
    ) -> Result<(), AllocError> {
        *self = operation.again()?;
        Ok(())
    }

    /// Takes the operation's own version, and is never refused.
    fn absorb_second(
        &mut self,
        operation: Published<V, S>,
        _other: &Published<V, S>,
    ) -> Result<(), Published<V, S>> {
        *self = operation;
        Ok(())
    }
}
