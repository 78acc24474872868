//! What is tried of the versions of an empty forest.

use crate::counts::{are_bounds_kept, does_limit_hold};
use crate::journals::is_journal_answered;
use crate::parts::are_parts_answered;
use crate::refusals::are_refusals_right;
use crate::scripts::is_script_answered;
use crate::stays::does_version_stay;
use crate::tried::Tried;
use crate::worked::scripts;
use std::alloc::Global;
use tf_records::Refusal;
use tf_trials::Plain;

/// A trial.
#[derive(Clone, Copy)]
pub enum Trial {
    /// A version is kept while the forest goes on.
    Stays,
    /// Versions of a worked script, by its place, answer.
    Script(usize),
    /// Versions of a random journal answer.
    Journal(u64),
    /// Versions give answers about as long as the parts in which they are read.
    Parts,
    /// Requests for memory are refused to a version.
    Refusals,
    /// What publishes and merges count stays within its bounds.
    Bounds,
    /// A publish under a limit of pushed tables.
    Limit(u32),
}

/// What is tried, each time of an empty forest.
#[derive(Clone, Copy)]
pub enum Course {
    /// A trial, once.
    Once(Trial),
    /// Versions of all worked scripts.
    Scripts,
    /// Versions of 2,000 random journals.
    Journals,
}

impl Course {
    /// How often it is tried.
    pub fn turns(self) -> usize {
        match self {
            Course::Once(_) => 1,
            Course::Scripts => scripts(),
            Course::Journals => 2000,
        }
    }

    /// The trial of a turn.
    pub fn trial(self, turn: usize) -> Trial {
        match self {
            Course::Once(trial) => trial,
            Course::Scripts => Trial::Script(turn),
            Course::Journals => Trial::Journal(turn as u64),
        }
    }

    /// How many tables may be pushed, unless it is as many as there is room for.
    pub fn limit(self) -> Option<u32> {
        match self {
            Course::Once(Trial::Limit(limit)) => Some(limit),
            _ => None,
        }
    }
}

/// Whether an empty forest does as it has to, beside plain ledgers.
fn is_right<F: Tried>(
    alloc: Global,
    then: &mut Plain,
    plain: &mut Plain,
    forest: &mut F,
    trial: Trial,
) -> Result<bool, Refusal> {
    match trial {
        Trial::Stays => does_version_stay(alloc, then, plain, forest),
        Trial::Script(place) => is_script_answered(alloc, plain, forest, place),
        Trial::Journal(seed) => is_journal_answered(alloc, plain, forest, seed),
        Trial::Parts => are_parts_answered(alloc, plain, forest),
        Trial::Refusals => are_refusals_right(alloc, plain, forest),
        Trial::Bounds => Ok(are_bounds_kept(alloc, forest)),
        Trial::Limit(limit) => Ok(does_limit_hold(alloc, forest, limit)),
    }
}

/// The same, beside plain ledgers of its own.
pub fn try_out<F: Tried>(alloc: Global, forest: &mut F, trial: Trial) -> Result<bool, Refusal> {
    let mut then = Plain::new(alloc);
    let mut plain = Plain::new(alloc);
    let tried = is_right(alloc, &mut then, &mut plain, forest, trial);
    drop(plain);
    drop(then);
    tried
}
