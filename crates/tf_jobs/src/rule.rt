//! The rule of a queue: what was offered is what was taken and what it holds.
use crate::Known;
use crossbeam_queue::protocol::{Join, Lesson, Outcome, Protocol, Split};

/// What was offered is what was taken and what the queue holds.
pub(crate) struct Fair;

impl<T> Protocol<T, Known<T>> for Fair {
    ghost use Rattle.std.specs.Prelude.{[]};
    ghost use Rattle.tf_jobs.specs.Rule.{IsFair, known};

    ghost holds = { IsFair };

    ghost first = { known 1 1 [] [] };
}

/// There is one part more, which goes to the pass that has all parts.
pub(crate) struct Grows;

impl<T> Split<Known<T>> for Grows {
    ghost use Rattle.std.specs.Prelude.{[], ◌+◌};
    ghost use Rattle.tf_jobs.specs.Rule.{known};

    ghost left = { λ v. known (v.parts + 1) (v.whole + 1) v.offered v.taken };

    ghost right = { λ v. known 0 0 [] [] };
}

/// One part goes to a new pass, or all parts of a pass to another.
pub(crate) struct Cut;

impl<T> Split<Known<T>> for Cut {
    ghost use Rattle.std.specs.Prelude.{[], ◌-◌};
    ghost use Rattle.tf_jobs.specs.Rule.{known};

    ghost left = { λ v. known (v.parts - 1) v.whole v.offered v.taken };

    ghost right = { λ v. known 1 v.whole [] [] };
}

impl<T> Join<Known<T>> for Cut {
    ghost use Rattle.std.specs.Prelude.{[], ◌+◌, ◌++◌};
    ghost use Rattle.tf_jobs.specs.Rule.{known};

    ghost both = { λ v w. known (v.parts + w.parts) v.whole (v.offered ++ w.offered) (v.taken ++ w.taken) };

    ghost spent = { known 0 0 [] [] };
}

/// A job is offered.
pub(crate) struct Offers;

impl<T> Outcome<T, Known<T>> for Offers {
    ghost use Rattle.std.specs.Prelude.{◌≡◌, [], ◌∷◌, ◌++◌};
    ghost use Rattle.tf_jobs.specs.Rule.{known};

    ghost then = { λ v x w. w ≡ known v.parts v.whole (v.offered ++ x ∷ []) v.taken };
}

impl<T> Lesson<T, Known<T>> for Offers {
    ghost use Rattle.tf_jobs.specs.Rule.{IsAllowed};

    ghost fact = { λ v items. IsAllowed items };
}

/// A job is taken.
pub(crate) struct Takes;

impl<T> Outcome<T, Known<T>> for Takes {
    ghost use Rattle.std.specs.Prelude.{◌≡◌, [], ◌∷◌, ◌++◌};
    ghost use Rattle.tf_jobs.specs.Rule.{known};

    ghost then = { λ v x w. w ≡ known v.parts v.whole v.offered (v.taken ++ x ∷ []) };
}

impl<T> Lesson<T, Known<T>> for Takes {
    ghost use Rattle.tf_jobs.specs.Rule.{IsAllowed};

    ghost fact = { λ v items. IsAllowed items };
}

/// The pass that has all parts learns the whole.
pub(crate) struct LearnsAll;

impl<T> Lesson<T, Known<T>> for LearnsAll {
    ghost use Rattle.tf_jobs.specs.Jobs.{IsBalanced};

    ghost fact = { λ v items. IsBalanced v.offered v.taken items };
}
