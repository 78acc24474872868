//! Which history a value is of.
use std::marker::Brand;

/// The history that values belong to. Each run picks it, and it has no bytes.
pub trait HistoryName {
    ghost use Rattle.logbook.specs.Pages.{Book};

    /// The book of the history.
    ghost history: { Book };
}

impl HistoryName for Brand {
    ghost history = { record { number = 0; log_name = 0; cells_name = 0 } };
}
