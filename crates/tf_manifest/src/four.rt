//! Four values that may be there.
ghost use Rattle.std.specs.Prelude.{◌≡◌};
ghost use Rattle.std.specs.Option.{option_zip};

/// Four values in pairs, if all are there.
#[inline]
pub(crate) fn four<S: Drop, T: Drop, U: Drop, V: Drop>(
    first: Option<S>,
    second: Option<T>,
    third: Option<U>,
    fourth: Option<V>,
) -> Option<((S, T), (U, V))>
    ensures { result ≡ option_zip (option_zip first second) (option_zip third fourth) }
{
    first.zip(second).zip(third.zip(fourth))
}
