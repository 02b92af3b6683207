//! Two values, each of which may not be there.

ghost use Rattle.std.specs.Prelude.{IfOk};
ghost use Rattle.catalog_read.specs.Rows.{AreBoth};

use memory::both;

/// The two values, where both are there. So whoever makes two values has none of them in hand where the
/// other is missing.
pub(crate) fn both_found<A: Drop, B: Drop, E: Drop>(
    first: Result<Option<A>, E>,
    second: Result<Option<B>, E>,
) -> Result<Option<(A, B)>, E>
    ensures { IfOk result (AreBoth first second) }
{
    match both(first, second) {
        Ok((first, second)) => Ok(first.zip(second)),
        Err(error) => Err(error),
    }
}
