//! Queries that are printed.

ghost use Rattle.std.specs.Prelude.{◌≡◌, ◌≤◌, ◌++◌, ◌∷◌, [], Some, length, IfOk, OnOk};
ghost use Rattle.calculus.specs.declared.query.QTerm.TheVariants as qterm;
ghost use Rattle.calculus.specs.declared.request.Checked.TheVariants.{Answer};
ghost use Rattle.calculus.specs.Tree.{query};
ghost use Rattle.quel_meaning.specs.Resolved.{unsorted, whole};
ghost use Rattle.quel_meaning.specs.WrittenQuery.{attr_targets};

use crate::places::byte;
use calculus::{
    Asked, Attr, Checked, List, OutOfMemory, QQual, QTerm, Query, RelInfo, RelKey, Target, TryCopy,
};
use memory::{alone, both, push};
use std::alloc::Global;

/// The query of these variables, targets and qualification, whose rows ascend.
#[tactic(auto, using(calculus::proofs::Forms::query_is))]
pub(crate) fn unsorted(alloc: Global, vars: Vec<RelKey>, targets: Vec<Target>, qual: QQual) -> Asked
    ensures { result ≡ unsorted (query vars.items targets.items qual) }
{
    let query = Query {
        vars: List::of(vars),
        targets: List::of(targets),
        qual,
    };
    Asked {
        query,
        sort: List::of(Vec::new(alloc)),
    }
}

/// What asks for one table.
pub(crate) fn answer(alloc: Global, asked: Asked) -> Result<Checked, OutOfMemory>
    ensures { IfOk result (λ tree. tree ≡ Answer (asked ∷ [])) }
{
    let asked = alone(alloc, asked)?;
    Ok(Checked::Answer(List::of(asked)))
}

/// The target of an attribute of the first variable, under its own name.
fn attr_target(alloc: Global, place: usize, attr: &Attr) -> Result<Target, OutOfMemory>
    ensures { IfOk result (λ target. place ≤ 255 → target ≡ record { name = attr.now.name; kind = attr.now.kind; term = qterm.Attr 0 place }) }
{
    let name = attr.name.copy(alloc)?;
    let term = QTerm::Attr {
        var: 0,
        attr: byte(place),
    };
    Ok(Target {
        name,
        kind: attr.kind,
        term,
    })
}

/// A target for each of these attributes of the first variable.
fn targets_of(alloc: Global, attrs: &[Attr]) -> Result<Vec<Target>, OutOfMemory>
    ensures { IfOk result (λ targets. length attrs.now ≤ 256 → targets.items ≡ attr_targets 0 attrs.now) }
{
    let mut targets = Vec::new(alloc);
    for (place, attr) in attrs.iter().enumerate() {
        let target = attr_target(alloc, place, attr)?;
        push(&mut targets, target)?;
    }
    Ok(targets)
}

/// The key of what is known, alone.
fn var_of(alloc: Global, info: &RelInfo) -> Result<Vec<RelKey>, OutOfMemory>
    ensures { IfOk result (λ vars. vars.items ≡ info.now.key ∷ []) }
{
    let key = info.key.copy(alloc)?;
    alone(alloc, key)
}

/// All of what is known: each attribute of its rows.
pub(crate) fn whole(alloc: Global, info: &RelInfo) -> Result<Asked, OutOfMemory>
    ensures { IfOk result (λ asked. length info.now.attrs ≤ 256 → asked ≡ whole (Some info.now)) }
{
    let (vars, targets) = both(var_of(alloc, info), targets_of(alloc, info.attrs.items()))?;
    Ok(unsorted(alloc, vars, targets, QQual::True))
}
