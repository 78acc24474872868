//! The journal that rows spell.
ghost use Rattle.std.specs.Prelude.{◌≡◌, List};
ghost use Rattle.tf_rows.specs.Spelled.{journal_in};
ghost use Rattle.tf_rows.specs.Next.{content_in};
ghost use Rattle.tf_rows.specs.Parts.{Parts};
ghost use Rattle.tf_journal.specs.declared.entry.Entry.{Entry};
ghost use Rattle.tf_journal.specs.Lawful.{IsSound};
ghost use Rattle.tf_manifest.specs.Shows.{Shows};

use tf_manifest::{Value, rows_spell_their_journal};
use tf_table::content_is_a_map;

/// Rows spell the sound journal that they show. Does nothing.
pub fn rows_spell_the_journal_they_show()
    ensures { (rows : Parts) (journal : List Entry) → IsSound journal → Shows (content_in rows) journal → journal_in rows ≡ journal }
{
    rows_spell_their_journal();
    content_is_a_map::<Value>();
    // The pairs of a row are those of its tables, newest first.
}
