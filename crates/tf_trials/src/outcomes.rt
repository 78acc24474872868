//! What a store hands out and hands back, taken apart by functions that are generic in what they own: one that names versions,
//! jobs or merged tables has a proof that spells out each of their parts.

use crate::tried::Acted;
use std::alloc::{AllocError, Global};
use tf_records::Refusal;

/// Whether a word names a refusal of a call. `any` names that for want of memory, and none a fault of a script or a record.
pub fn is_refusal(refusal: Refusal, word: &str) -> bool {
    match word {
        "no_memory" | "any" => refusal == Refusal::NoMemory,
        "batch_too_large" => refusal == Refusal::BatchTooLarge,
        "clock_exhausted" => refusal == Refusal::ClockExhausted,
        "stale" => refusal == Refusal::Stale,
        "registry_full" => refusal == Refusal::RegistryFull,
        _ => false,
    }
}

/// The job that a row gave, or why it gave none.
pub fn found<J: Drop>(answer: Result<Option<J>, AllocError>) -> Result<J, Acted> {
    match answer {
        Ok(Some(job)) => Ok(job),
        Ok(None) => Err(Acted::Nothing),
        Err(_) => Err(Acted::Refused(Refusal::NoMemory)),
    }
}

/// Keeps what was handed out, behind what is kept already.
pub fn keep<X: Drop>(kept: &mut Vec<X, Global>, answer: Result<X, Refusal>) -> Acted {
    match answer {
        Ok(given) => match kept.push(given) {
            Ok(()) => Acted::Done,
            Err(_) => Acted::Refused(Refusal::NoMemory),
        },
        Err(refusal) => Acted::Refused(refusal),
    }
}

/// Keeps what a reader gave, behind what is kept already.
pub fn keep_given<X: Drop>(kept: &mut Vec<X, Global>, given: Option<X>) -> Acted {
    match given {
        Some(given) => keep(kept, Ok(given)),
        None => Acted::Nothing,
    }
}

/// Lets go of what was kept last.
pub fn let_go<X: Drop>(kept: &mut Vec<X, Global>) -> Acted {
    match kept.pop() {
        Some(_) => Acted::Done,
        None => Acted::Nothing,
    }
}

/// The last of what is kept, which isn't any more.
pub fn last_of<X: Drop>(kept: &mut Vec<X, Global>) -> Result<X, Acted> {
    match kept.pop() {
        Some(last) => Ok(last),
        None => Err(Acted::Nothing),
    }
}

/// What became of what is done or refused.
pub fn acted(answer: Result<(), Refusal>) -> Acted {
    match answer {
        Ok(()) => Acted::Done,
        Err(refusal) => Acted::Refused(refusal),
    }
}

/// Whether something was done.
pub fn done(is_done: bool) -> Acted {
    if is_done { Acted::Done } else { Acted::Nothing }
}
