//! Old rows with different new rows.

ghost use Rattle.std.specs.Prelude.{List, IfOk, IfErr, IfSome, IfNone, IsFalse, OnOk};
ghost use Rattle.std.specs.List.Sorted.{IsStrictlySortedBy};
ghost use Rattle.calculus.specs.declared.change.Pair.{Pair};
ghost use Rattle.calculus.specs.Replacement.{contended};
ghost use Rattle.update_change.specs.Replacements.{both_cmp, AreReplacements, IsFirstShared, SharesNone};
ghost use Rattle.update_change.specs.PairsCauses.{IsContention};
ghost use Rattle.update_change.specs.Contention.{IsFound};

use crate::ChangeFault;
use calculus::{OutOfMemory, Row, TryCopy};
use memory::both;
use std::alloc::Global;

/// An old row and two different new rows of it.
#[derive(Drop)]
pub struct Contention {
    /// The old row.
    pub old: Row,
    /// The lesser new row.
    pub first: Row,
    /// The greater new row.
    pub second: Row,
}

/// The first place whose old row is also that of the place behind it.
fn first_shared(all: &[(Row, Row)]) -> Option<usize>
    ensures found { IfSome result (IsFirstShared all.now) }
    ensures none { IfNone result (SharesNone all.now) }
{
    for next in 1..all.len() {
        if all[next - 1].0 == all[next].0 {
            return Some(next - 1);
        }
    }
    None
}

/// The least old row that has different new rows, and the two least of these, where these are the
/// replacements among some pairs, in order.
fn least_contention(alloc: Global, all: &[(Row, Row)]) -> Result<Option<Contention>, OutOfMemory>
    requires { IsStrictlySortedBy both_cmp all.now }
    ensures { (ps : List Pair) → AreReplacements ps all.now → IfOk result (IsFound ps) }
{
    let Some(place) = first_shared(all) else {
        return Ok(None);
    };
    let least = &all[place];
    let next = &all[place + 1];
    let rows = both(least.1.copy(alloc), next.1.copy(alloc));
    let (old, (first, second)) = both(least.0.copy(alloc), rows)?;
    Ok(Some(Contention { old, first, second }))
}

/// Refuses replacements, in order, where an old row has different new rows.
pub fn refuse_contended(alloc: Global, all: &[(Row, Row)]) -> Result<(), ChangeFault>
    requires { IsStrictlySortedBy both_cmp all.now }
    ensures uncontended { (ps : List Pair) → AreReplacements ps all.now → OnOk result (IsFalse (contended ps)) }
    ensures cause { (ps : List Pair) → AreReplacements ps all.now → IfErr result (IsContention ps) }
{
    match least_contention(alloc, all) {
        Ok(None) => Ok(()),
        Ok(Some(contention)) => {
            let Contention { old, first, second } = contention;
            Err(ChangeFault::Contended { old, first, second })
        }
        Err(OutOfMemory) => Err(ChangeFault::OutOfMemory),
    }
}
