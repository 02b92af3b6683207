//! What is asked of a database in memory, of which the schema is known.

ghost use Rattle.std.specs.Prelude.{◌≡◌, Some, IfOk, IsTrue, is_some, length};
ghost use Rattle.calculus.specs.Database.{Db, entries, permits_on, rules_on};
ghost use Rattle.calculus.specs.Finding.{found};
ghost use Rattle.base_trait.specs.Known.{is_named_by_view, known_at, query_at};
ghost use Rattle.db_disk.specs.Answered.{IsWant};
ghost use Rattle.db_disk.specs.Known.{SameKnown, schema_known};

use base_trait::{Base, BaseFault};
use calculus::{Name, Permit, Query, RelInfo, RelKey, Rule};
use catalog::Catalog;
use std::alloc::Global;

/// The name of the administrator.
#[tactic(auto, using(crate::proofs::Causes::plain_want))]
pub(crate) fn dba(catalog: &mut Option<Catalog>, alloc: Global) -> Result<Name, BaseFault>
    requires { IsTrue (is_some catalog.old) }
    ensures known { (s : Db) → schema_known catalog.new ≡ Some s → IfOk result (λ name. name ≡ s.dba) }
    ensures same { SameKnown catalog.old catalog.new }
    ensures want { IsWant result }
{
    match catalog {
        Some(cached) => cached.plain.dba(alloc),
        None => unreachable!(),
    }
}

/// The number of relations, views and indexes.
#[tactic(auto, using(crate::proofs::Causes::plain_want))]
pub(crate) fn count(catalog: &mut Option<Catalog>) -> Result<u32, BaseFault>
    requires { IsTrue (is_some catalog.old) }
    ensures known { (s : Db) → schema_known catalog.new ≡ Some s → IfOk result (λ n. n ≡ length (entries s)) }
    ensures same { SameKnown catalog.old catalog.new }
    ensures want { IsWant result }
{
    match catalog {
        Some(cached) => cached.plain.count(),
        None => unreachable!(),
    }
}

/// What the user means by a name.
#[tactic(auto, using(crate::proofs::Causes::plain_want))]
pub(crate) fn find(
    catalog: &mut Option<Catalog>,
    alloc: Global,
    name: &Name,
    user: &Name,
) -> Result<Option<RelInfo>, BaseFault>
    requires { IsTrue (is_some catalog.old) }
    ensures known { (s : Db) → schema_known catalog.new ≡ Some s → IfOk result (λ info. info ≡ found s user.now name.now) }
    ensures same { SameKnown catalog.old catalog.new }
    ensures want { IsWant result }
{
    match catalog {
        Some(cached) => cached.plain.find(alloc, name, user),
        None => unreachable!(),
    }
}

/// What stands under a key.
#[tactic(auto, using(crate::proofs::Causes::plain_want))]
pub(crate) fn info(
    catalog: &mut Option<Catalog>,
    alloc: Global,
    key: &RelKey,
) -> Result<Option<RelInfo>, BaseFault>
    requires { IsTrue (is_some catalog.old) }
    ensures known { (s : Db) → schema_known catalog.new ≡ Some s → IfOk result (λ info. info ≡ known_at s key.now) }
    ensures same { SameKnown catalog.old catalog.new }
    ensures want { IsWant result }
{
    match catalog {
        Some(cached) => cached.plain.info(alloc, key),
        None => unreachable!(),
    }
}

/// The query of a view.
#[tactic(auto, using(crate::proofs::Causes::plain_want))]
pub(crate) fn view(
    catalog: &mut Option<Catalog>,
    alloc: Global,
    key: &RelKey,
) -> Result<Option<Query>, BaseFault>
    requires { IsTrue (is_some catalog.old) }
    ensures known { (s : Db) → schema_known catalog.new ≡ Some s → IfOk result (λ q. q ≡ query_at s key.now) }
    ensures same { SameKnown catalog.old catalog.new }
    ensures want { IsWant result }
{
    match catalog {
        Some(cached) => cached.plain.view(alloc, key),
        None => unreachable!(),
    }
}

/// The rules of a relation.
#[tactic(auto, using(crate::proofs::Causes::plain_want))]
pub(crate) fn rules(
    catalog: &mut Option<Catalog>,
    alloc: Global,
    key: &RelKey,
) -> Result<Vec<Rule>, BaseFault>
    requires { IsTrue (is_some catalog.old) }
    ensures known { (s : Db) → schema_known catalog.new ≡ Some s → IfOk result (λ rs. rs.items ≡ rules_on s key.now) }
    ensures same { SameKnown catalog.old catalog.new }
    ensures want { IsWant result }
{
    match catalog {
        Some(cached) => cached.plain.rules(alloc, key),
        None => unreachable!(),
    }
}

/// The permits of a relation.
#[tactic(auto, using(crate::proofs::Causes::plain_want))]
pub(crate) fn permits(
    catalog: &mut Option<Catalog>,
    alloc: Global,
    key: &RelKey,
) -> Result<Vec<Permit>, BaseFault>
    requires { IsTrue (is_some catalog.old) }
    ensures known { (s : Db) → schema_known catalog.new ≡ Some s → IfOk result (λ ps. ps.items ≡ permits_on s key.now) }
    ensures same { SameKnown catalog.old catalog.new }
    ensures want { IsWant result }
{
    match catalog {
        Some(cached) => cached.plain.permits(alloc, key),
        None => unreachable!(),
    }
}

/// Whether some view but these names the relation.
#[tactic(auto, using(crate::proofs::Causes::plain_want))]
pub(crate) fn named_by_view(
    catalog: &mut Option<Catalog>,
    alloc: Global,
    key: &RelKey,
    but: &[RelKey],
) -> Result<bool, BaseFault>
    requires { IsTrue (is_some catalog.old) }
    ensures known { (s : Db) → schema_known catalog.new ≡ Some s → IfOk result (λ b. b ≡ is_named_by_view s but.now key.now) }
    ensures same { SameKnown catalog.old catalog.new }
    ensures want { IsWant result }
{
    match catalog {
        Some(cached) => cached.plain.named_by_view(alloc, key, but),
        None => unreachable!(),
    }
}
