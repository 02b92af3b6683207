//! A value beside one that is made: nobody who calls this drops a value where memory is refused.

ghost use Rattle.std.specs.Prelude.{◌≡◌, Ok, IfOk};

use calculus::OutOfMemory;

/// The two values; an error where the first is missing.
pub(crate) fn beside<A: Drop, B: Drop>(
    first: Result<A, OutOfMemory>,
    second: B,
) -> Result<(A, B), OutOfMemory>
    ensures { IfOk result (λ pair. (first ≡ Ok pair.0) × (second ≡ pair.1)) }
{
    let first = first?;
    Ok((first, second))
}
