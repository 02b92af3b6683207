//! The old rows and the new rows of pairs.

ghost use Rattle.std.specs.Prelude.{◌≡◌, ◌++◌, List, map, IsFalse, IfOk, IfErr, OnOk};
ghost use Rattle.calculus.specs.Replacement.{contended, old_rows, new_rows};
ghost use Rattle.calculus.specs.Rows.{set_of};
ghost use Rattle.update_change.specs.PairsCauses.{IsContention};
ghost use Rattle.update_change.specs.Parts.{IsParted};
ghost use Rattle.calculus.specs.declared.change.Pair.{Pair};

use crate::ChangeFault;
use crate::contention::refuse_contended;
use crate::pair_rows::{Parts, parts_of, put_rows};
use crate::replacements::in_order;
use calculus::{OutOfMemory, Pair, Row, RowSet};
use std::alloc::Global;

/// The sets of these rows and those of the replacements.
fn joined(
    all: Vec<(Row, Row)>,
    old: Vec<Row>,
    new: Vec<Row>,
) -> Result<(RowSet, RowSet), ChangeFault>
    ensures old { IfOk result (λ sets. sets.0 ≡ set_of (old.items ++ map (λ b. b.0) all.items)) }
    ensures new { IfOk result (λ sets. sets.1 ≡ set_of (new.items ++ map (λ b. b.1) all.items)) }
    ensures cause { IfErr result (λ fault. fault ≡ ChangeFault.OutOfMemory) }
{
    let mut old = old;
    let mut new = new;
    match put_rows(all, &mut old, &mut new) {
        Ok(()) => Ok((RowSet::of_rows(old), RowSet::of_rows(new))),
        Err(OutOfMemory) => Err(ChangeFault::OutOfMemory),
    }
}

/// The sets of the old rows and of the new rows, where no old row has different new rows.
fn uncontended(alloc: Global, parts: Parts) -> Result<(RowSet, RowSet), ChangeFault>
    ensures old { (ps : List Pair) → IsParted ps parts → IfOk result (λ sets. sets.0 ≡ set_of (old_rows ps)) }
    ensures new { (ps : List Pair) → IsParted ps parts → IfOk result (λ sets. sets.1 ≡ set_of (new_rows ps)) }
    ensures uncontended { (ps : List Pair) → IsParted ps parts → OnOk result (IsFalse (contended ps)) }
    ensures cause { (ps : List Pair) → IsParted ps parts → IfErr result (IsContention ps) }
{
    let Parts {
        both,
        old_rows,
        new_rows,
    } = parts;
    let both = in_order(both);
    match refuse_contended(alloc, &both) {
        Ok(()) => joined(both, old_rows, new_rows),
        Err(fault) => Err(fault),
    }
}

/// The set of the old rows of pairs and that of their new rows, moved out of the pairs. It is refused
/// exactly where an old row has different new rows: the fault carries the least such row, and the two
/// least of its new rows, ascending. Costs a sort of the pairs and one of each of the sets, which are
/// a pass each where the pairs come in ascending order; copies no row.
pub fn rows_of_pairs(alloc: Global, pairs: Vec<Pair>) -> Result<(RowSet, RowSet), ChangeFault>
    ensures old { IfOk result (λ sets. sets.0 ≡ set_of (old_rows pairs.items)) }
    ensures new { IfOk result (λ sets. sets.1 ≡ set_of (new_rows pairs.items)) }
    ensures uncontended { OnOk result (IsFalse (contended pairs.items)) }
    ensures cause { IfErr result (IsContention pairs.items) }
{
    match parts_of(alloc, pairs) {
        Ok(parts) => uncontended(alloc, parts),
        Err(OutOfMemory) => Err(ChangeFault::OutOfMemory),
    }
}
