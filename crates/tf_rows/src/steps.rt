//! Steps that take changes back, in little room.
ghost use Rattle.std.specs.Prelude.{◌≡◌, ◌++◌, ◌∷◌, [], is_some, length, OnOk, OnErr, IfErr, MatchOption};
ghost use Rattle.std.specs.Option.{option_to_list};
ghost use Rattle.tf_rows.specs.Packed.{had_of, step_of};

use crate::{Before, PutTransfer, Step};
use std::alloc::Allocator;
use std::marker::Model;
use tf_manifest::{Row, Value};
use tf_records::{Refusal, Transfer};
use tf_table::Key;

/// What was changed: a key of a row, with whether it had an entry, or what a transfer's record put. It has 32 bytes, since the
/// fields lie in this order behind the tag.
#[derive(Drop)]
pub(crate) enum Touched {
    Key {
        had: bool,
        row: Row,
        timestamp: u64,
        value: u128,
    },
    Transfer(PutTransfer),
}

impl Touched {
    fn key(row: Row, key: &Key, before: &Before) -> Touched
        ensures had { had_of result ≡ is_some before.now }
        ensures step { step_of result (option_to_list before.now) ≡ Step.Key row key.now before.now }
    {
        Touched::Key {
            had: before.is_some(),
            row,
            timestamp: key.timestamp,
            value: key.value,
        }
    }

    /// Whether it had an entry.
    fn had(&self) -> bool
        ensures { result ≡ had_of self.now }
    {
        match self {
            Touched::Key { had, .. } => *had,
            Touched::Transfer(_) => false,
        }
    }

    /// The step that takes it back, with what the key had.
    #[tactic(auto, using(crate::proofs::Touched::before_kept))]
    fn step(self, before: Before) -> Step
        requires { had_of self ≡ is_some before }
        ensures { result ≡ step_of self (option_to_list before) }
    {
        match self {
            Touched::Key {
                row,
                timestamp,
                value,
                ..
            } => Step::Key {
                row,
                key: Key { value, timestamp },
                before,
            },
            Touched::Transfer(transfer) => Step::Transfer(transfer),
        }
    }
}

/// Steps, of which the last one is taken first. Contracts see their list.
///
/// A step takes 32 bytes, and where its key had an entry as many more as one has. The room doubles where it is full, and
/// `clear` keeps it.
#[derive(Drop)]
pub struct Steps<A: Allocator> {
    touched: Vec<Touched, A>,
    /// What those keys had that had an entry, in their order.
    entries: Vec<Option<Value>, A>,
}

impl<A: Allocator> Model for Steps<A> {
    ghost use Rattle.std.specs.Prelude.{◌≡◌, List, length};
    ghost use Rattle.tf_rows.specs.declared.change.Step.{Step};

    ghost Value = { List Step };

    ghost use Rattle.tf_rows.specs.Packed.{had_count, steps_of};

    ghost view = { λ s. steps_of s.touched.items s.entries.items };

    ghost invariant = { λ s. had_count s.touched.items ≡ length s.entries.items };
}

impl<A: Allocator + Copy> Steps<A> {
    /// No step. It takes no memory.
    pub fn new(alloc: A) -> Steps<A>
        ensures { result ≡ [] }
    {
        Steps {
            touched: Vec::new(alloc),
            entries: Vec::new(alloc),
        }
    }
}

impl<A: Allocator> Steps<A> {
    /// How many there are.
    pub fn len(&self) -> usize
        ensures { result ≡ length self.now }
    {
        self.touched.len()
    }

    /// Forgets all. It takes no memory, and the room stays.
    pub fn clear(&mut self)
        ensures { self.new ≡ [] }
    {
        self.touched.clear();
        self.entries.clear();
    }

    /// Puts the step behind the others that gives a key the entry back that it had. The only refusal is `NoMemory`, and it changes
    /// nothing.
    pub(crate) fn push(&mut self, row: Row, key: &Key, before: &Before) -> Result<(), Refusal>
        ensures ok { OnOk result (self.new ≡ self.old ++ Step.Key row key.now before.now ∷ []) }
        ensures err { OnErr result (self.new ≡ self.old) }
        ensures refusal { IfErr result (λ refusal. refusal ≡ Refusal.NoMemory) }
    {
        if self.touched.reserve(1).is_err() {
            return Err(Refusal::NoMemory);
        }
        if self.entries.reserve(1).is_err() {
            return Err(Refusal::NoMemory);
        }
        self.touched.push_reserved(Touched::key(row, key, before));
        match before {
            Some(entry) => self.entries.push_reserved(*entry),
            None => {}
        }
        Ok(())
    }

    /// Puts the step behind the others that takes a transfer's record away. The only refusal is `NoMemory`, and it changes nothing.
    #[tactic(auto, using(crate::proofs::Touched::recorded_count, crate::proofs::Touched::recorded_steps))]
    pub(crate) fn push_transfer(&mut self, transfer: &Transfer) -> Result<(), Refusal>
        ensures ok { OnOk result (self.new ≡ self.old ++ Step.Transfer transfer.now ∷ []) }
        ensures err { OnErr result (self.new ≡ self.old) }
        ensures refusal { IfErr result (λ refusal. refusal ≡ Refusal.NoMemory) }
    {
        if self.touched.reserve(1).is_err() {
            return Err(Refusal::NoMemory);
        }
        self.touched
            .push_reserved(Touched::Transfer(PutTransfer::of(transfer)));
        Ok(())
    }

    /// Takes the last step out.
    pub(crate) fn pop(&mut self) -> Option<Step>
        ensures { MatchOption result ((self.old ≡ []) × (self.new ≡ [])) (λ step. self.old ≡ self.new ++ step ∷ []) }
    {
        let touched = self.touched.pop()?;
        if !touched.had() {
            return Some(touched.step(None));
        }
        match self.entries.pop() {
            Some(entry) => Some(touched.step(Some(entry))),
            None => unreachable!(),
        }
    }
}
