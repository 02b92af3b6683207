//! What is asked of the rows of a database in memory.

ghost use Rattle.std.specs.Prelude.{◌≡◌, Some, IfOk, IsTrue, is_some, length};
ghost use Rattle.calculus.specs.Rows.{has};
ghost use Rattle.calculus.specs.Stored.{rows_at};
ghost use Rattle.base_trait.specs.Scans.{Gives, IsOver};
ghost use Rattle.plain_base.specs.Places.{rows_from};
ghost use Rattle.plain_base.specs.Shown.{database_of};
ghost use Rattle.catalog.specs.declared.catalog.Catalog.{Catalog as KnownCatalog};
ghost use Rattle.db_disk.specs.Answered.{IsWant};
ghost use Rattle.db_disk.specs.Known.{SameKnown};

use base_trait::{Base, BaseFault};
use calculus::{Place, Probe, RelKey, Row};
use catalog::Catalog;
use std::alloc::Global;

/// How many rows a relation has.
#[tactic(auto, using(crate::proofs::Causes::plain_want))]
pub(crate) fn size(
    catalog: &mut Option<Catalog>,
    alloc: Global,
    key: &RelKey,
) -> Result<u32, BaseFault>
    requires { IsTrue (is_some catalog.old) }
    ensures known { (c : KnownCatalog) → catalog.old ≡ Some c → IfOk result (λ n. n ≡ length (rows_at (database_of c.plain) key.now)) }
    ensures same { SameKnown catalog.old catalog.new }
    ensures want { IsWant result }
{
    match catalog {
        Some(cached) => cached.plain.size(alloc, key),
        None => unreachable!(),
    }
}

/// Whether a relation has a row.
#[tactic(auto, using(crate::proofs::Causes::plain_want))]
pub(crate) fn has_row(
    catalog: &mut Option<Catalog>,
    alloc: Global,
    key: &RelKey,
    row: &Row,
) -> Result<bool, BaseFault>
    requires { IsTrue (is_some catalog.old) }
    ensures known { (c : KnownCatalog) → catalog.old ≡ Some c → IfOk result (λ b. b ≡ has (rows_at (database_of c.plain) key.now) row.now) }
    ensures same { SameKnown catalog.old catalog.new }
    ensures want { IsWant result }
{
    match catalog {
        Some(cached) => cached.plain.has_row(alloc, key, row),
        None => unreachable!(),
    }
}

/// The next row of a relation that meets a probe.
#[tactic(auto, using(crate::proofs::Causes::plain_want))]
pub(crate) fn scan(
    catalog: &mut Option<Catalog>,
    alloc: Global,
    key: &RelKey,
    probe: &Probe,
    at: &mut Place,
) -> Result<Option<Row>, BaseFault>
    requires { IsTrue (is_some catalog.old) }
    ensures known { (c : KnownCatalog) → catalog.old ≡ Some c → Gives probe.now (rows_from (database_of c.plain) key.now) at.old at.new result }
    ensures over { (c : KnownCatalog) → catalog.old ≡ Some c → IsOver probe.now (rows_from (database_of c.plain) key.now) at.new result }
    ensures same { SameKnown catalog.old catalog.new }
    ensures want { IsWant result }
{
    match catalog {
        Some(cached) => cached.plain.scan(alloc, key, probe, at),
        None => unreachable!(),
    }
}
