//! Receipts of batches.
ghost use Rattle.std.specs.Prelude.{◌≡◌};
ghost use Rattle.tf_history.specs.Beginning.{OneBegins, longer};
ghost use Rattle.tf_store.specs.Events.{batch_of};
ghost use Rattle.tf_store.specs.Receipt.{IsReceipt, Waits, receipt_of};

use crate::{Events, StoreName};
use std::alloc::Allocator;
use std::marker::Model;
use tf_history::Front;
use tf_readers::{Publishable, Reader};
use tf_records::Reply;

/// A batch that was stored and waits for the next publish, with the lengths of the journal before and after it.
#[derive(Drop)]
pub(crate) struct Waiting<A: Allocator> {
    pub(crate) events: Events<A>,
    pub(crate) moment: u64,
    pub(crate) clock: u64,
    pub(crate) reply: Reply<A>,
    pub(crate) before: usize,
    pub(crate) after: usize,
}

impl<A: Allocator> Model for Waiting<A> {
    ghost use Rattle.tf_store.specs.Events.{batch_of};
    ghost use Rattle.tf_store.specs.Receipt as receipt;

    ghost Value = { receipt.Waiting };

    ghost view = { λ w. record { events = batch_of w.events; moment = w.moment; clock = w.clock; reply = w.reply; before = w.before; after = w.after } };
}

/// A batch that was stored and published: its events, the moment that was handed in with them, the clock before it, its
/// reply, and, for contracts alone, the journals before and after it. Both are beginnings of one journal that was published.
#[derive(Drop)]
pub struct Receipt<A: Allocator, S: StoreName> {
    waiting: Waiting<A>,
    front: Front<S>,
}

impl<A: Allocator, S: StoreName> Model for Receipt<A, S> {
    ghost use Rattle.tf_store.specs.Receipt.{ReceiptView, Waits, receipt_of};

    ghost Value = { ReceiptView };

    ghost view = { λ r. receipt_of r.front r.waiting };

    ghost invariant = { λ r. Waits r.front r.waiting };
}

impl<A: Allocator, S: StoreName> Receipt<A, S> {
    /// The receipt of a batch, of which a journal that was published tells.
    pub(crate) fn new(waiting: Waiting<A>, front: Front<S>) -> Receipt<A, S>
        requires { Waits front waiting }
        ensures { result ≡ receipt_of front waiting }
    {
        Receipt { waiting, front }
    }

    /// The events of the batch, in their order. It takes no memory.
    ///
    /// Run on the journal before it, at its clock and moment, they give the reply and the journal after it.
    pub fn events(&self) -> &Events<A>
        ensures events { batch_of result.now ≡ self.now.events }
        ensures batch { IsReceipt self.now }
    {
        &self.waiting.events
    }

    /// The moment that was handed in with the batch, in nanoseconds. It takes no memory.
    pub fn now(&self) -> u64
        ensures { result ≡ self.now.moment }
    {
        self.waiting.moment
    }

    /// The store's clock before the batch, in nanoseconds. It takes no memory.
    pub fn clock_before(&self) -> u64
        ensures { result ≡ self.now.clock }
    {
        self.waiting.clock
    }

    /// The reply: the events of the batch that aren't stored. It takes no memory.
    pub fn reply(&self) -> &Reply<A>
        ensures { result.now ≡ self.now.reply }
    {
        &self.waiting.reply
    }

    /// Tells a reader of the batch: it has then seen the journal after it at least, and so gives no version without it. Any
    /// number of readers may be told. It takes no memory.
    pub fn show<V: Publishable + Drop, B: Allocator>(&self, reader: &mut Reader<V, B, S>)
        ensures seen { reader.new.seen ≡ longer reader.old.seen self.now.second }
        ensures one { OneBegins reader.old.seen self.now.second }
        ensures held { reader.new.held ≡ reader.old.held }
    {
        reader.learn(&self.front, self.waiting.after as u64);
    }
}
