//! The count of tables that were pushed, under its limit.
ghost use Rattle.std.specs.Prelude.{◌≡◌, ◌<◌, ◌≤◌, false, IsTrue};
ghost use Rattle.tf_registry.specs.Limit.{IsWithinLimit, one_more};

use std::marker::Model;

/// How many tables a store has pushed into its registries, and the limit of that, at most 1,048,576.
///
/// The registry itself counts nothing: the count lies with what the lock guards.
#[derive(Clone, Copy, Debug)]
pub struct Pushes {
    count: u32,
    limit: u32,
}

impl Model for Pushes {
    ghost use Rattle.tf_registry.specs.Limit.{Pushed, IsWithinLimit};

    ghost Value = { Pushed };

    ghost view = { λ p. record { count = p.count; limit = p.limit } };

    ghost invariant = { λ p. IsWithinLimit record { count = p.count; limit = p.limit } };

    ghost inverse = { λ p. record { count = p.count; limit = p.limit } };
}

impl Pushes {
    /// The greatest limit.
    pub const MOST: u32 = 1_048_576;

    /// None pushed yet, under this limit.
    pub fn new(limit: u32) -> Pushes
        requires { limit ≤ 1048576 }
        ensures { result ≡ record { count = 0; limit = limit } }
    {
        Pushes { count: 0, limit }
    }

    /// How many were pushed.
    #[inline]
    pub fn count(&self) -> u32
        ensures value { result ≡ self.now.count }
        ensures within { IsWithinLimit self.now }
    {
        self.count
    }

    /// How many may be pushed.
    #[inline]
    pub fn limit(&self) -> u32
        ensures { result ≡ self.now.limit }
    {
        self.limit
    }

    /// Whether no more may be pushed.
    #[inline]
    pub fn is_full(&self) -> bool
        ensures full { IsTrue result → self.now.count ≡ self.now.limit }
        ensures room { result ≡ false → self.now.count < self.now.limit }
    {
        self.count == self.limit
    }

    /// Counts one more.
    #[inline]
    pub fn add(&mut self)
        requires { self.old.count < self.old.limit }
        ensures { self.new ≡ one_more self.old }
    {
        self.count += 1;
    }
}
