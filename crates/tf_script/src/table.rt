//! Tables whose entries have names.

ghost use Rattle.std.specs.Prelude.{◌≡◌, ◌<◌, ℕ, List, length, map, IfSome};
ghost use Rattle.tf_script.specs.Values.{place_of};

/// An entry of a table.
pub trait Named {
    // The bytes of its name.
    ghost name_of: { Self → List ℕ };

    /// The bytes of its name.
    fn name(&self) -> &[u8]
        ensures { result.now ≡ name_of self.now };
}

impl Named for &str {
    ghost name_of = { λ text. text.now };

    fn name(&self) -> &[u8] {
        self.as_bytes()
    }
}

/// The place of the first entry of that name, from 0 on. Linear in the table's length.
pub fn place<T: Named>(table: &[T], name: &[u8]) -> Option<usize>
    ensures value { result ≡ place_of (map T.name_of table.now) name.now }
    ensures within { IfSome result (λ place. place < length table.now) }
{
    for (place, entry) in table.iter().enumerate() {
        if entry.name() == name {
            return Some(place);
        }
    }
    None
}
