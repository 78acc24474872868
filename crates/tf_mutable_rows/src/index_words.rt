//! The keys of an index in order, by words that are sorted in their place.
ghost use Rattle.std.specs.Prelude.{◌≡◌, ◌≤◌, length, IfOk, IfSome};
ghost use Rattle.tf_table.specs.declared.key.Key.{Key};
ghost use Rattle.tf_mutable.specs.Mutable.{in_order, rows_of_key};
ghost use Rattle.tf_mutable_rows.specs.Indexes.{AreByTime, index_of};

use crate::rising::RisingDraft;
use crate::transfers::{Field, Object};
use std::alloc::{AllocError, Allocator};
use tf_table::Sealed;

/// What a word of an index has: in its lower bits the place of an object, and above them as many bits of the object's field as there is
/// room for, from the greatest one in which any two objects differ.
///
/// Such words rise as the keys do, unless two fields differ in lower bits alone. A word is a hint: whoever goes by it looks at the key.
#[derive(Clone, Copy)]
struct Packing {
    /// How many lower bits of a field are left out.
    shift: u32,
    place_bits: u32,
}

impl Packing {
    fn of(objects: &[Object], field: Field) -> Packing {
        let first = match objects.first() {
            Some(object) => field.key(object).value,
            None => 0,
        };
        let mut differing = 0;
        for object in objects {
            differing |= field.key(object).value ^ first;
        }
        let value_bits = u128::BITS.saturating_sub(differing.leading_zeros());
        let places = objects.len() as u64;
        let place_bits = u64::BITS.saturating_sub(places.leading_zeros());
        let room = u64::BITS.saturating_sub(place_bits);
        Packing {
            shift: value_bits.saturating_sub(room),
            place_bits,
        }
    }

    #[inline]
    fn word(self, value: u128, place: u64) -> u64 {
        let bits = value.wrapping_shr(self.shift) & u64::MAX as u128;
        (bits as u64).wrapping_shl(self.place_bits) | place
    }

    #[inline]
    fn place(self, word: u64) -> usize {
        (word & !u64::MAX.wrapping_shl(self.place_bits)) as usize
    }
}

/// The index of a field as a sealed table, with its memory from `alloc`, or none where words don't put its keys in order.
pub(crate) fn seal_by_words<A: Allocator + Clone>(
    objects: &[Object],
    field: Field,
    alloc: A,
) -> Result<Option<Sealed<(), A>>, AllocError>
    requires times { AreByTime objects.now }
    requires once { (key : Key) → length (rows_of_key key objects.now) ≤ 1 }
    ensures { IfOk result (λ sealed. IfSome sealed (λ table. table ≡ index_of field (in_order objects.now))) }
{
    let packing = Packing::of(objects, field);
    let words = sorted_words(objects, field, packing, alloc.clone()?)?;
    let sealed = sealed_in_order(objects, field, packing, &words, alloc);
    drop(words);
    sealed
}

/// A word of each object, in order.
fn sorted_words<A: Allocator>(
    objects: &[Object],
    field: Field,
    packing: Packing,
    alloc: A,
) -> Result<Vec<u64, A>, AllocError> {
    let mut words = Vec::with_capacity(alloc, objects.len())?;
    for object in objects {
        let place = words.len() as u64;
        words.push(packing.word(field.key(object).value, place))?;
    }
    words.sort_unstable();
    Ok(words)
}

/// The index of a field as a sealed table, if its keys rise where the objects come in the order of the words, each of them once.
fn sealed_in_order<A: Allocator + Clone>(
    objects: &[Object],
    field: Field,
    packing: Packing,
    words: &[u64],
    alloc: A,
) -> Result<Option<Sealed<(), A>>, AllocError>
    requires times { AreByTime objects.now }
    requires once { (key : Key) → length (rows_of_key key objects.now) ≤ 1 }
    ensures { IfOk result (λ sealed. IfSome sealed (λ table. table ≡ index_of field (in_order objects.now))) }
{
    if words.len() != objects.len() {
        return Ok(None);
    }
    let mut draft = RisingDraft::with_room(alloc.clone()?, objects.len())?;
    for word in words {
        let Some(object) = objects.get(packing.place(*word)) else {
            return Ok(None);
        };
        if !draft.add(&field.key(object), &Some(()))? {
            return Ok(None);
        }
    }
    Ok(Some(draft.seal(alloc)?))
}
