//! A forest as trials call it. Whatever tries it names none of the parts that it is made of, and so its check compares none.

use std::alloc::Global;
use std::sync::Wait;
use tf_forest_trials::{Answered, Call, Tried};

/// A forest that is tried, with what was taken of it. It has one call, since all of them are compared at once wherever a forest is
/// given away as one.
pub trait TriedForest {
    /// Makes a call.
    fn call<R: Wait>(&mut self, rt: &R, lists: Global, call: Call<'_>) -> Answered;
}

/// A forest that is lent, with what each of its calls is given.
#[derive(Drop)]
pub struct Lent<'f, F, R> {
    pub rt: &'f R,
    pub lists: Global,
    pub forest: &'f mut F,
}

impl<'f, F: TriedForest, R: Wait> Tried for Lent<'f, F, R> {
    fn call(&mut self, call: Call<'_>) -> Answered {
        self.forest.call(self.rt, self.lists, call)
    }
}
