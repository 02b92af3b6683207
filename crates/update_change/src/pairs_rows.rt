//! The old rows and the new rows of pairs.

ghost use Rattle.std.specs.Prelude.{◌≡◌, List, IsFalse, IfOk, IfErr, OnOk};
ghost use Rattle.calculus.specs.Replacement.{contended, old_rows, new_rows};
ghost use Rattle.calculus.specs.Rows.{Row, set_of};
ghost use Rattle.update_change.specs.Causes.{IsCause};

use crate::{ChangeFault, UpdateFault, rows_of_pairs};
use calculus::{Pair, RowSet};
use std::alloc::Global;

/// The set of the old rows of pairs and that of their new rows, moved out of the pairs.
pub(crate) fn pairs_rows(alloc: Global, pairs: Vec<Pair>) -> Result<(RowSet, RowSet), UpdateFault>
    ensures old { IfOk result (λ sets. sets.0 ≡ set_of (old_rows pairs.items)) }
    ensures new { IfOk result (λ sets. sets.1 ≡ set_of (new_rows pairs.items)) }
    ensures uncontended { OnOk result (IsFalse (contended pairs.items)) }
    ensures cause { (rows : List Row) → IfErr result (IsCause rows pairs.items) }
{
    match rows_of_pairs(alloc, pairs) {
        Ok(sets) => Ok(sets),
        Err(ChangeFault::Contended { old, first, second }) => {
            Err(UpdateFault::Contended { old, first, second })
        }
        Err(ChangeFault::TooMany { rows }) => Err(UpdateFault::TooMany { rows }),
        Err(ChangeFault::OutOfMemory) => Err(UpdateFault::OutOfMemory),
    }
}
