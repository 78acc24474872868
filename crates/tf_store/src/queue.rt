//! The batches whose receipts wait for a publish.
ghost use Rattle.std.specs.Prelude.{◌≡◌, ◌++◌, ◌∷◌, ◌<◌, [], length, map, OnOk, IfErr, vec_len, vec_capacity, ◌≤◌};
ghost use Rattle.std.specs.List.{All};
ghost use Rattle.tf_store.specs.Receipt.{Waits, receipt_of};

use crate::StoreName;
use crate::receipt::{Receipt, Waiting};
use std::alloc::Allocator;
use std::marker::Model;
use std::mem;
use tf_history::Front;
use tf_records::Refusal;

/// The batches whose receipts wait, the oldest first, with room for as many receipts. Contracts see the batches, and how
/// many there is room for.
#[derive(Drop)]
pub(crate) struct Queue<A: Allocator, S: StoreName> {
    waiting: Vec<Waiting<A>, A>,
    /// Empty, with room for the receipts of all that wait.
    places: Vec<Receipt<A, S>, A>,
}

impl<A: Allocator, S: StoreName> Model for Queue<A, S> {
    ghost use Rattle.std.specs.Prelude.{◌≡◌, ◌≤◌, [], min, vec_len, vec_capacity};
    ghost use Rattle.tf_store.specs.Queue.{QueueView};

    ghost Value = { QueueView };

    ghost view = { λ q. record { waiting = q.waiting.items; room = min (vec_capacity q.waiting) (vec_capacity q.places) } };

    ghost invariant = { λ q. (q.places.items ≡ []) × (vec_len q.places ≡ 0) × (vec_len q.waiting ≤ vec_capacity q.places) };
}

impl<A: Allocator + Copy, S: StoreName> Queue<A, S> {
    /// No batch. It takes no memory.
    pub(crate) fn new(alloc: A) -> Queue<A, S>
        ensures { result.waiting ≡ [] }
    {
        Queue {
            waiting: Vec::new(alloc),
            places: Vec::new(alloc),
        }
    }

    /// Makes room for one more batch and its receipt. The only refusal is `NoMemory`, and it changes nothing.
    pub(crate) fn reserve(&mut self) -> Result<(), Refusal>
        ensures same { self.new.waiting ≡ self.old.waiting }
        ensures room { OnOk result (length self.new.waiting < self.new.room) }
        ensures refusal { IfErr result (λ refusal. refusal ≡ Refusal.NoMemory) }
    {
        self.waiting.reserve(1)?;
        self.places.reserve(self.waiting.len() + 1)?;
        Ok(())
    }

    /// Puts a batch behind the others. There has to be room for it.
    pub(crate) fn push(&mut self, batch: Waiting<A>)
        requires { length self.old.waiting < self.old.room }
        ensures { self.new.waiting ≡ self.old.waiting ++ batch ∷ [] }
    {
        match self.waiting.push(batch) {
            Ok(()) => {}
            Err(_) => unreachable!(),
        }
    }

    /// Hands out the receipts of all that wait, which a journal that was published tells of: then none waits. It takes no
    /// memory.
    pub(crate) fn hand_over(&mut self, alloc: A, front: &Front<S>) -> Vec<Receipt<A, S>, A>
        requires { All (Waits front.now) self.old.waiting }
        ensures receipts { result.items ≡ map (receipt_of front.now) self.old.waiting }
        ensures none { self.new.waiting ≡ [] }
    {
        let waiting = mem::replace(&mut self.waiting, Vec::new(alloc));
        let places = mem::replace(&mut self.places, Vec::new(alloc));
        hand_out(waiting, places, front)
    }
}

/// Makes the receipts of batches, for which there is room. It takes no memory.
fn hand_out<A: Allocator, S: StoreName>(
    waiting: Vec<Waiting<A>, A>,
    places: Vec<Receipt<A, S>, A>,
    front: &Front<S>,
) -> Vec<Receipt<A, S>, A>
    requires waits { All (Waits front.now) waiting.items }
    requires empty { (places.items ≡ []) × (vec_len places ≡ 0) }
    requires room { vec_len waiting ≤ vec_capacity places }
    ensures { result.items ≡ map (receipt_of front.now) waiting.items }
{
    let mut receipts = places;
    for batch in waiting {
        match receipts.push(Receipt::new(batch, front.again())) {
            Ok(()) => {}
            Err(_) => unreachable!(),
        }
    }
    receipts
}
