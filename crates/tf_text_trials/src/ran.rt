//! What came of a text.

use tf_records::Refusal;
use tf_trials::Stopped;

/// A text was run to its end, and its store was ended as it has to; or where that stopped.
pub type Ran<'t> = Result<(), Stopped<'t>>;

/// What came of a text, if a fact holds behind it.
pub fn and<'t>(ran: Ran<'t>, holds: bool, fact: &'t str) -> Ran<'t> {
    match ran {
        Ok(()) if !holds => Err(Stopped {
            part: fact,
            refusal: None,
        }),
        _ => ran,
    }
}

/// A fact that a refusal keeps from holding.
pub fn refused(fact: &str, refusal: Refusal) -> Ran<'_> {
    Err(Stopped {
        part: fact,
        refusal: Some(refusal),
    })
}
