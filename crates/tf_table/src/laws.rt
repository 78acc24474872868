//! Laws of tables, each the contract of a function that does nothing.
ghost use Rattle.std.specs.Prelude.{◌≡◌, List, Option};
ghost use Rattle.std.specs.Option.{option_flatten};
ghost use Rattle.tf_sorted.specs.Rows.{IsRising, value_at};
ghost use Rattle.tf_table.specs.declared.key.Key.{Key};
ghost use Rattle.tf_table.specs.Key.{key_cmp};
ghost use Rattle.tf_table.specs.Content.{content_of, entry_of};

/// The pairs of tables, newest first, stand in the order of their keys. Each key has there the value of its entry, and
/// none where it has no entry or a tombstone. No other list is such. Does nothing.
pub fn content_is_a_map<V>()
    ensures rising { (tables : List (List (Key × Option V))) → IsRising key_cmp (content_of tables) }
    ensures values { (tables : List (List (Key × Option V))) (key : Key) → value_at key_cmp key (content_of tables) ≡ option_flatten (entry_of key tables) }
    ensures alone { (tables : List (List (Key × Option V))) (pairs : List (Key × V)) → IsRising key_cmp pairs → ((key : Key) → value_at key_cmp key pairs ≡ option_flatten (entry_of key tables)) → pairs ≡ content_of tables }
{
    // A table put over others changes the keys that it has, and no other.
}
