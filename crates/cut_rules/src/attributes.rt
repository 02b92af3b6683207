//! Which attributes of its source's row an aggregate names.

ghost use Rattle.std.specs.Prelude.{◌≡◌, ◌==◌, if◌then◌else◌, [], ◌∷◌, ◌++◌, IfOk, OnOk};
ghost use Rattle.std.specs.List.{flat_map};
ghost use Rattle.calculus.specs.Used.{used_in_aggregate};
ghost use Rattle.ovqp.specs.Naming.{named, named_in_qual};

use calculus::{OutOfMemory, QAgg, QQual, QTerm};
use std::alloc::Global;

/// Puts the attribute behind the others, where the variable is the first.
fn put_attribute(var: u8, attr: u8, attrs: &mut Vec<u8>) -> Result<(), OutOfMemory>
    ensures { OnOk result (attrs.new.items ≡ attrs.old.items ++ (if var == 0 then attr ∷ [] else [])) }
{
    if var == 0 {
        attrs.push(attr)?;
    }
    Ok(())
}

/// Puts the attributes of the first variable that a term names behind the others.
#[cycle(naming)]
#[tactic(auto, using(ovqp::proofs::NamedForms::named_int, ovqp::proofs::NamedForms::named_chars, ovqp::proofs::NamedForms::named_attr, ovqp::proofs::NamedForms::named_neg, ovqp::proofs::NamedForms::named_abs, ovqp::proofs::NamedForms::named_arith, ovqp::proofs::NamedForms::named_concat, ovqp::proofs::NamedForms::named_agg))]
fn put_named(t: &QTerm, attrs: &mut Vec<u8>) -> Result<(), OutOfMemory>
    ensures { OnOk result (attrs.new.items ≡ attrs.old.items ++ named 0 t.now) }
{
    match t {
        QTerm::Int(_) => Ok(()),
        QTerm::Chars(_) => Ok(()),
        QTerm::Attr { var, attr } => put_attribute(*var, *attr, attrs),
        QTerm::Neg(inner) => put_named(inner.get(), attrs),
        QTerm::Abs(inner) => put_named(inner.get(), attrs),
        QTerm::Arith { op: _, left, right } => match put_named(left.get(), attrs) {
            Ok(()) => put_named(right.get(), attrs),
            Err(error) => Err(error),
        },
        QTerm::Concat { left, right } => match put_named(left.get(), attrs) {
            Ok(()) => put_named(right.get(), attrs),
            Err(error) => Err(error),
        },
        QTerm::Agg(agg) => put_all_named(agg.get().link.items(), attrs),
    }
}

/// Puts those that terms name behind the others.
#[cycle(naming)]
fn put_all_named(terms: &[QTerm], attrs: &mut Vec<u8>) -> Result<(), OutOfMemory>
    ensures { OnOk result (attrs.new.items ≡ attrs.old.items ++ flat_map (named 0) terms.now) }
{
    for term in terms {
        put_named(term, attrs)?;
    }
    Ok(())
}

/// Puts those that a qualification names behind the others.
#[tactic(auto, using(ovqp::proofs::NamedForms::named_true, ovqp::proofs::NamedForms::named_cmp, ovqp::proofs::NamedForms::named_like, ovqp::proofs::NamedForms::named_and, ovqp::proofs::NamedForms::named_or, ovqp::proofs::NamedForms::named_not))]
fn substituted_qual(q: &QQual, attrs: &mut Vec<u8>) -> Result<(), OutOfMemory>
    ensures { OnOk result (attrs.new.items ≡ attrs.old.items ++ named_in_qual 0 q.now) }
{
    match q {
        QQual::True => Ok(()),
        QQual::Cmp { op: _, left, right } => match put_named(left, attrs) {
            Ok(()) => put_named(right, attrs),
            Err(error) => Err(error),
        },
        QQual::Like {
            term,
            pattern: _,
            same: _,
        } => put_named(term, attrs),
        QQual::And(left, right) => match substituted_qual(left.get(), attrs) {
            Ok(()) => substituted_qual(right.get(), attrs),
            Err(error) => Err(error),
        },
        QQual::Or(left, right) => match substituted_qual(left.get(), attrs) {
            Ok(()) => substituted_qual(right.get(), attrs),
            Err(error) => Err(error),
        },
        QQual::Not(inner) => substituted_qual(inner.get(), attrs),
    }
}

/// The attributes that an aggregate names of its source's row, by place: in its argument, its by-list
/// and its qualification. They stand in the order of the expansion, each as often as it is named.
pub(crate) fn aggregate_uses(alloc: Global, g: &QAgg) -> Result<Vec<u8>, OutOfMemory>
    ensures { IfOk result (λ attrs. attrs.items ≡ used_in_aggregate g.now) }
{
    let mut attrs = Vec::new(alloc);
    put_named(&g.arg, &mut attrs)?;
    put_all_named(g.by.items(), &mut attrs)?;
    substituted_qual(&g.qual, &mut attrs)?;
    Ok(attrs)
}
