//! The kinds of aggregates.

ghost use Rattle.std.specs.Prelude.{◌≡◌, ◌&&◌, ◌∷◌, [], length, map, nat_eq, vec_items, zip, IfOk, Some};
ghost use Rattle.std.specs.List.{list_all};
ghost use Rattle.base_trait.specs.Causes.{HasCause};
ghost use Rattle.calculus.specs.Aggregate.{source_kinds};
ghost use Rattle.calculus.specs.Database.{Db};
ghost use Rattle.calculus.specs.Kinds.{comparable, kind_of, kinds_fit};
ghost use Rattle.quel_meaning.specs.KindsInQueries.{aggregate_kind, fitting_kind, folded_kind, links_fit};

use base_trait::{Base, BaseFault};
use calculus::{
    AggOp, AggSource, Kind, OutOfMemory, QAgg, QTerm, comparable, is_number_kind, kind_of,
    kinds_fit,
};
use ovqp::source_kinds;
use std::alloc::Global;

/// The kind of what an operation gives for values of a kind; `None` exactly where it would add texts up.
fn folded_kind(op: AggOp, kind: Kind) -> Option<Kind>
    ensures { result ≡ folded_kind op kind }
{
    if is_number_kind(kind) {
        return Some(Kind::Wide);
    }
    match op {
        AggOp::Count => Some(Kind::Wide),
        AggOp::Countu => Some(Kind::Wide),
        AggOp::Sum => None,
        AggOp::Sumu => None,
        AggOp::Avg => None,
        AggOp::Avgu => None,
        AggOp::Min => Some(kind),
        AggOp::Max => Some(kind),
        AggOp::Any => Some(Kind::Wide),
    }
}

fn are_as_many(by: &[QTerm], link: &[QTerm]) -> bool
    ensures { result ≡ nat_eq (length by.now) (length link.now) }
{
    by.len() == link.len()
}

fn pairs_fit(inner: &[Vec<Kind>], by: &[QTerm], vars: &[Vec<Kind>], link: &[QTerm]) -> bool
    ensures { result ≡ list_all (λ p. comparable (kind_of p.0 (map vec_items inner.now)) (kind_of p.1 (map vec_items vars.now))) (zip by.now link.now) }
{
    let mut pairs = by.iter().zip(link);
    pairs.all(|(term, bound)| comparable(kind_of(term, inner), kind_of(bound, vars)))
}

/// Whether terms over a row of the source and terms over the variables around are as many, and item by
/// item both numbers or both texts. Takes no memory.
fn links_fit(inner: &[Vec<Kind>], by: &[QTerm], vars: &[Vec<Kind>], link: &[QTerm]) -> bool
    ensures { result ≡ links_fit (map vec_items inner.now) by.now (map vec_items vars.now) link.now }
{
    if !are_as_many(by, link) {
        return false;
    }
    pairs_fit(inner, by, vars, link)
}

/// The kind of an aggregate whose source has attributes of these kinds. Takes no memory.
fn kind_over(g: &QAgg, inner: &[Vec<Kind>], vars: &[Vec<Kind>]) -> Option<Kind>
    ensures { result ≡ fitting_kind (links_fit (map vec_items inner.now) g.now.by (map vec_items vars.now) g.now.link && kinds_fit g.now.qual (map vec_items inner.now)) g.now.op (kind_of g.now.arg (map vec_items inner.now)) }
{
    let kind = kind_of(&g.arg, inner)?;
    if !links_fit(inner, g.by.items(), vars, g.link.items()) {
        return None;
    }
    if !kinds_fit(&g.qual, inner) {
        return None;
    }
    folded_kind(g.op, kind)
}

/// The kinds of the attributes of one variable, as those of all variables.
fn alone(alloc: Global, kinds: Vec<Kind>) -> Result<Vec<Vec<Kind>>, OutOfMemory>
    ensures { IfOk result (λ vars. map vec_items vars.items ≡ kinds.items ∷ []) }
{
    let mut vars = Vec::new(alloc);
    vars.push(kinds)?;
    Ok(vars)
}

/// The kinds of the attributes of a source, as those of the only variable.
fn inner_kinds<B: Base>(
    alloc: Global,
    base: &mut B,
    source: &AggSource,
) -> Result<Vec<Vec<Kind>>, BaseFault>
    ensures known { (db : Db) → B.schema base.old ≡ Some db → IfOk result (λ vars. map vec_items vars.items ≡ source_kinds db source.now ∷ []) }
    ensures kept { B.database base.new ≡ B.database base.old }
    ensures stays { (s : Db) → B.schema base.old ≡ Some s → B.schema base.new ≡ Some s }
    ensures asked { (b : B) → B.asked b base.old → B.asked b base.new }
    ensures cause { HasCause (B.database base.old) (B.faults base.old) (B.faults base.new) result }
{
    let kinds = source_kinds(alloc, base, source)?;
    Ok(alone(alloc, kinds)?)
}

/// The kind of an aggregate in a query whose variables have attributes of these kinds; `None` exactly
/// where it is of the wrong kind, a place in it is out of range, or an aggregate stands in it.
pub(crate) fn aggregate_kind<B: Base>(
    alloc: Global,
    base: &mut B,
    g: &QAgg,
    vars: &[Vec<Kind>],
) -> Result<Option<Kind>, BaseFault>
    ensures known { (db : Db) → B.schema base.old ≡ Some db → IfOk result (λ kind. kind ≡ aggregate_kind db g.now (map vec_items vars.now)) }
    ensures kept { B.database base.new ≡ B.database base.old }
    ensures stays { (s : Db) → B.schema base.old ≡ Some s → B.schema base.new ≡ Some s }
    ensures asked { (b : B) → B.asked b base.old → B.asked b base.new }
    ensures cause { HasCause (B.database base.old) (B.faults base.old) (B.faults base.new) result }
{
    let inner = inner_kinds(alloc, base, &g.source)?;
    Ok(kind_over(g, &inner, vars))
}
