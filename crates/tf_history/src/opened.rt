//! A new history.
ghost use Rattle.std.specs.Prelude.{◌≡◌};
ghost use Rattle.tf_history.specs.Written.{nothing_written};

use crate::law::{Chunk, Law};
use crate::name::HistoryName;
use crate::writer::Writer;
use logbook::{Pen, Seen, Start};
use std::marker::Model;

/// A new history, in which nothing was published and which has no name yet. Contracts see it as its book.
pub struct Opened {
    pen: Pen,
    seen: Seen<Chunk, u64, Law>,
}

impl Model for Opened {
    ghost use Rattle.std.specs.Prelude.{◌≡◌, []};
    ghost use Rattle.logbook.specs.Pages.{Book};
    ghost use Rattle.tf_history.specs.Rule.{counts};

    ghost Value = { Book };

    ghost view = { λ o. o.seen.book };

    ghost invariant = { λ o. (o.seen.log ≡ []) × (o.pen.book ≡ o.seen.book) × (o.pen.nib ≡ counts 0) };
}

impl Opened {
    /// A history of its own. It takes no memory.
    pub fn new() -> Opened {
        let (seen, pen, _second) = Seen::open(Start::alone(), 0, 0);
        Opened { pen, seen }
    }

    /// The right to add to the history that is named. It takes no memory.
    pub fn named<H: HistoryName>(self) -> Writer<H>
        requires { self ≡ H.history }
        ensures { result ≡ nothing_written }
    {
        let Opened { pen, seen } = self;
        Writer::first(pen, seen)
    }
}
