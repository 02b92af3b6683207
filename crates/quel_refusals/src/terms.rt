//! The kinds of terms in queries, and whether those of a qualification fit each other. The base is asked
//! for the sources of aggregates alone.

ghost use Rattle.std.specs.Prelude.{◌≡◌, map, vec_items, IfOk, Some};
ghost use Rattle.base_trait.specs.Causes.{HasCause};
ghost use Rattle.calculus.specs.Database.{Db};
ghost use Rattle.quel_meaning.specs.KindsInQueries.{kind_in_query, kinds_fit_in_query};

use crate::aggregates::aggregate_kind;
use base_trait::{Base, BaseFault};
use calculus::{
    Kind, QQual, QTerm, comparable, is_text_kind, joined_kind, kind_of, number_kind, operated_kind,
};
use std::alloc::Global;

/// The kind of a term in a query whose variables have attributes of these kinds; `None` exactly where a
/// part is of the wrong kind or a place is out of range.
#[tactic(auto, using(crate::proofs::KindForms::kind_int, crate::proofs::KindForms::kind_chars, crate::proofs::KindForms::kind_attr, crate::proofs::KindForms::kind_neg, crate::proofs::KindForms::kind_abs, crate::proofs::KindForms::kind_arith, crate::proofs::KindForms::kind_concat, crate::proofs::KindForms::kind_agg))]
pub fn kind_in_query<B: Base>(
    alloc: Global,
    base: &mut B,
    t: &QTerm,
    vars: &[Vec<Kind>],
) -> Result<Option<Kind>, BaseFault>
    ensures known { (db : Db) → B.schema base.old ≡ Some db → IfOk result (λ kind. kind ≡ kind_in_query db t.now (map vec_items vars.now)) }
    ensures kept { B.database base.new ≡ B.database base.old }
    ensures stays { (s : Db) → B.schema base.old ≡ Some s → B.schema base.new ≡ Some s }
    ensures asked { (b : B) → B.asked b base.old → B.asked b base.new }
    ensures cause { HasCause (B.database base.old) (B.faults base.old) (B.faults base.new) result }
{
    match t {
        QTerm::Int(_) | QTerm::Chars(_) | QTerm::Attr { .. } => Ok(kind_of(t, vars)),
        QTerm::Neg(inner) | QTerm::Abs(inner) => {
            let kind = kind_in_query(alloc, base, inner.get(), vars)?;
            Ok(number_kind(kind))
        }
        QTerm::Arith { op: _, left, right } => {
            let front = kind_in_query(alloc, base, left.get(), vars)?;
            let behind = kind_in_query(alloc, base, right.get(), vars)?;
            Ok(operated_kind(front, behind))
        }
        QTerm::Concat { left, right } => {
            let front = kind_in_query(alloc, base, left.get(), vars)?;
            let behind = kind_in_query(alloc, base, right.get(), vars)?;
            Ok(joined_kind(front, behind))
        }
        QTerm::Agg(agg) => aggregate_kind(alloc, base, agg.get(), vars),
    }
}

/// Whether a qualification of a query compares numbers with numbers and texts with texts; false also
/// exactly where a term in it has no kind.
#[tactic(auto, using(crate::proofs::KindForms::fit_true, crate::proofs::KindForms::fit_cmp, crate::proofs::KindForms::fit_like, crate::proofs::KindForms::fit_and, crate::proofs::KindForms::fit_or, crate::proofs::KindForms::fit_not))]
pub fn kinds_fit_in_query<B: Base>(
    alloc: Global,
    base: &mut B,
    q: &QQual,
    vars: &[Vec<Kind>],
) -> Result<bool, BaseFault>
    ensures known { (db : Db) → B.schema base.old ≡ Some db → IfOk result (λ fit. fit ≡ kinds_fit_in_query db q.now (map vec_items vars.now)) }
    ensures kept { B.database base.new ≡ B.database base.old }
    ensures stays { (s : Db) → B.schema base.old ≡ Some s → B.schema base.new ≡ Some s }
    ensures asked { (b : B) → B.asked b base.old → B.asked b base.new }
    ensures cause { HasCause (B.database base.old) (B.faults base.old) (B.faults base.new) result }
{
    match q {
        QQual::True => Ok(true),
        QQual::Cmp { op: _, left, right } => {
            let front = kind_in_query(alloc, base, left, vars)?;
            let behind = kind_in_query(alloc, base, right, vars)?;
            Ok(comparable(front, behind))
        }
        QQual::Like { term, .. } => {
            let kind = kind_in_query(alloc, base, term, vars)?;
            Ok(is_text_kind(kind))
        }
        QQual::And(left, right) | QQual::Or(left, right) => {
            if !kinds_fit_in_query(alloc, base, left.get(), vars)? {
                return Ok(false);
            }
            kinds_fit_in_query(alloc, base, right.get(), vars)
        }
        QQual::Not(inner) => kinds_fit_in_query(alloc, base, inner.get(), vars),
    }
}
