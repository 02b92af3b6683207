//! Trees of aggregates.

ghost use Rattle.std.specs.Prelude.{◌≡◌, ◌≤◌, ◌++◌, ◌∷◌, [], true, All, Some, length, option_map, slice_get, IfOk, IfSome, OnOk};
ghost use Rattle.calculus.specs.declared.statement.Term.TheVariants as written;
ghost use Rattle.quel_check.specs.Known.{AreTermTrees, IsTermFrom, Knows, is_one_of};
ghost use Rattle.quel_meaning.specs.Scope.{Scope, ranged};
ghost use Rattle.quel_meaning.specs.WrittenParts.{aggregate_vars};
ghost use Rattle.quel_meaning.specs.WrittenTree.{first_var};

use crate::inner::aggregate_vars;
use crate::known::Known;
use crate::places::var_place;
use crate::trees::{qual_tree, term_tree};
use calculus::{
    AggSource, AggTerm, Boxed, List, Name, OutOfMemory, QAgg, QTerm, RelInfo, Term, TryCopy,
};
use memory::both;
use std::alloc::Global;

fn push(trees: &mut Vec<QTerm>, tree: QTerm) -> Result<(), OutOfMemory>
    ensures { OnOk result (trees.new.items ≡ trees.old.items ++ tree ∷ []) }
{
    Ok(trees.push(tree)?)
}

/// Puts the trees of terms without aggregates behind the others, of which there are none.
fn push_trees(
    alloc: Global,
    vars: &[Name],
    infos: &[RelInfo],
    terms: &[Term],
    trees: &mut Vec<QTerm>,
) -> Result<(), OutOfMemory>
    requires { trees.old.items ≡ [] }
    ensures { OnOk result (AreTermTrees vars.now infos.now terms.now trees.new.items) }
{
    for term in terms {
        let tree = term_tree(alloc, vars, infos, term)?;
        push(trees, tree)?;
    }
    Ok(())
}

/// The trees of terms without aggregates.
fn term_trees(
    alloc: Global,
    vars: &[Name],
    infos: &[RelInfo],
    terms: &[Term],
) -> Result<List<QTerm>, OutOfMemory>
    ensures { IfOk result (λ trees. AreTermTrees vars.now infos.now terms.now trees) }
{
    let mut trees = Vec::new(alloc);
    match push_trees(alloc, vars, infos, terms, &mut trees) {
        Ok(()) => Ok(List::of(trees)),
        Err(error) => Err(error),
    }
}

/// What stands at this place; `None` where nothing does.
fn info_at(infos: &[RelInfo], place: u8) -> Option<&RelInfo>
    ensures at { option_map (λ info. info.now) result ≡ slice_get infos.now place }
    ensures few { All (λ info. length info.attrs ≤ 256) infos.now → IfSome result (λ info. length info.now.attrs ≤ 256) }
{
    infos.get(place as usize)
}

/// What the variable of an aggregate that is over one ranges over; `None` where it is none of those in
/// aggregates.
fn info_of<'a>(known: Known<'a>, vars: &[Name]) -> Option<&'a RelInfo>
    ensures over { (s : Scope) → Knows s known.entry.inner_vars.now known.entry.inner_infos.now → is_one_of known.entry.inner_vars.now vars.now ≡ true → option_map (λ info. info.now) result ≡ ranged s (first_var vars.now) }
    ensures few { All (λ info. length info.attrs ≤ 256) known.entry.inner_infos.now → IfSome result (λ info. length info.now.attrs ≤ 256) }
{
    match vars.first() {
        Some(var) => info_at(known.inner_infos, var_place(known.inner_vars, var)),
        None => None,
    }
}

/// The tree of an aggregate over rows of which this is known; its only variable is in `vars`.
fn tree_over(
    alloc: Global,
    known: Known<'_>,
    slot: u16,
    g: &AggTerm,
    vars: &[Name],
    info: &RelInfo,
) -> Result<QTerm, OutOfMemory>
    ensures { vars.now ≡ aggregate_vars g.now → ((s : Scope) → Knows s known.entry.inner_vars.now known.entry.inner_infos.now → is_one_of known.entry.inner_vars.now vars.now ≡ true → Some info.now ≡ ranged s (first_var vars.now))
        → ((s : Scope) → Knows s known.entry.inner_vars.now known.entry.inner_infos.now → length info.now.attrs ≤ 256)
        → IfOk result (IsTermFrom known.entry.vars.now known.entry.infos.now known.entry.inner_vars.now known.entry.inner_infos.now slot (written.Agg g.now)) }
{
    let infos = std::slice::from_ref(info);
    let arg = term_tree(alloc, vars, infos, &g.arg);
    let by = term_trees(alloc, vars, infos, g.by.items());
    let link = term_trees(alloc, known.vars, known.infos, g.by.items());
    let qual = qual_tree(alloc, vars, infos, &g.qual);
    let lists = both(by, link);
    let parts = both(both(arg, qual), both(lists, info.key.copy(alloc)));
    let ((arg, qual), ((by, link), key)) = parts?;
    let aggregate = QAgg {
        slot,
        op: g.op,
        source: AggSource::Named(key),
        arg,
        by,
        link,
        qual,
    };
    Ok(QTerm::Agg(Boxed::new(alloc, aggregate)?))
}

fn tree_of_one(
    alloc: Global,
    known: Known<'_>,
    slot: u16,
    g: &AggTerm,
    vars: &[Name],
) -> Result<QTerm, OutOfMemory>
    ensures { vars.now ≡ aggregate_vars g.now → IfOk result (IsTermFrom known.entry.vars.now known.entry.infos.now known.entry.inner_vars.now known.entry.inner_infos.now slot (written.Agg g.now)) }
{
    match info_of(known, vars) {
        Some(info) => tree_over(alloc, known, slot, g, vars, info),
        None => Ok(QTerm::Int(0)),
    }
}

/// The tree of an aggregate before which so many stand, where it holds no other and is over one variable
/// of which it is known what it ranges over. Of others nothing is said.
pub(crate) fn aggregate_tree(
    alloc: Global,
    known: Known<'_>,
    slot: u16,
    g: &AggTerm,
) -> Result<QTerm, OutOfMemory>
    ensures { IfOk result (IsTermFrom known.entry.vars.now known.entry.infos.now known.entry.inner_vars.now known.entry.inner_infos.now slot (written.Agg g.now)) }
{
    let vars = aggregate_vars(alloc, g)?;
    let tree = tree_of_one(alloc, known, slot, g, vars.items());
    drop(vars);
    tree
}
