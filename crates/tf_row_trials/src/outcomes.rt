//! What rows give, put into places that are lent, and what an install answers.

use tf_records::Refusal;
use tf_registry::Uninstalled;

/// What became of an install.
#[derive(Clone, Copy, Debug, PartialEq, Eq)]
pub enum Outcome {
    Installed,
    Stale,
    RegistryFull,
    NoMemory,
}

/// Puts what was made into a place.
pub fn keep<X: Drop>(made: Result<X, Refusal>, place: &mut Option<X>) -> Result<(), Refusal> {
    *place = Some(made?);
    Ok(())
}

/// Puts what was found into a place.
pub fn keep_found<X: Drop, E: Drop>(found: Result<Option<X>, E>, place: &mut Option<X>) {
    if let Ok(found) = found {
        *place = found;
    }
}

/// What an install answered. What it hands back is put into a place.
pub fn outcome_of<M: Drop>(answer: Result<(), Uninstalled<M>>, place: &mut Option<M>) -> Outcome {
    match answer {
        Ok(()) => Outcome::Installed,
        Err(Uninstalled::Stale) => Outcome::Stale,
        Err(Uninstalled::RegistryFull) => Outcome::RegistryFull,
        Err(Uninstalled::NoMemory(back)) => {
            *place = Some(back);
            Outcome::NoMemory
        }
    }
}
