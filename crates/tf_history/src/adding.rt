//! How a publication is added to a history.
ghost use Rattle.std.specs.Prelude.{◌≡◌, ◌++◌, ◌∷◌, [], length};
ghost use Rattle.tf_history.specs.Added.{chunk_of};
ghost use Rattle.tf_history.specs.History.{entries_of};
ghost use Rattle.tf_history.specs.Rule.{counts};
ghost use Rattle.tf_journal.specs.Lawful.{IsLawful};

use crate::law::{Add, Addition, Chunk, Law, Nothing};
use logbook::{Offer, Pen, Seen};
use tf_journal::Ledger;

/// Adds what an offer asks for to what was seen, which is the whole history: the pen counts as many publications. It does
/// nothing, and is proved by hand, since what a pen tells of its word is no clause of `logbook`.
fn note(seen: &mut Seen<Chunk, u64, Law>, pen: &mut Pen, offer: &Offer<Chunk, u64, Law, Nothing>)
    requires { (pen.old.book ≡ seen.old.book) × (pen.old.nib ≡ counts (length seen.old.log)) × IsLawful (entries_of (seen.old.log ++ offer.now.ask ∷ [])) }
    ensures { (seen.new.book ≡ seen.old.book) × (pen.new.book ≡ seen.old.book) × (seen.new.log ≡ seen.old.log ++ offer.now.ask ∷ []) × (pen.new.nib ≡ counts (length seen.new.log)) }
{}

/// Adds a publication to what was seen, which is the whole history: the pen counts as many publications.
pub fn add<L: Ledger>(seen: &mut Seen<Chunk, u64, Law>, pen: &mut Pen, addition: &Addition<L>)
    requires book { pen.old.book ≡ seen.old.book }
    requires whole { pen.old.nib ≡ counts (length seen.old.log) }
    requires lawful { IsLawful (entries_of (seen.old.log ++ chunk_of L.journal addition.now ∷ [])) }
    ensures book { (seen.new.book ≡ seen.old.book) × (pen.new.book ≡ seen.old.book) }
    ensures added { seen.new.log ≡ seen.old.log ++ chunk_of L.journal addition.now ∷ [] }
    ensures whole { pen.new.nib ≡ counts (length seen.new.log) }
{
    let offer: Offer<Chunk, u64, Law, Nothing> = seen.plain::<Nothing, Addition<L>, Add>(addition);
    note(seen, pen, &offer);
}
