//! Trees of terms and qualifications without aggregates, where the names in them were found.

ghost use Rattle.std.specs.Prelude.{◌≡◌, ◌≤◌, false, true, All, length, slice_get, IfOk};
ghost use Rattle.calculus.specs.declared.query.QTerm.TheVariants as qterm;
ghost use Rattle.calculus.specs.Lists.{is_any};
ghost use Rattle.quel_check.specs.Known.{IsQualTree, IsTermTree, Knows, is_among};
ghost use Rattle.quel_meaning.specs.Scope.{Scope, place_found};
ghost use Rattle.quel_meaning.specs.WrittenParts.{text_aggregates, vars_in, where_of};
ghost use Rattle.quel_meaning.specs.WrittenQuery.{where_tree};
ghost use Rattle.quel_meaning.specs.WrittenTree.{attr_in, var_place};

use crate::places::{attr_place, compared, var_place};
use crate::statement_parts::where_of;
use calculus::{Boxed, Name, OutOfMemory, QQual, QTerm, Qual, RelInfo, Statement, Term};
use memory::both;
use std::alloc::Global;

/// The place of an attribute in what stands at this place; 0 where nothing does.
fn attr_place_at(infos: &[RelInfo], place: u8, attr: &Name) -> u8
    ensures { All (λ info. length info.attrs ≤ 256) infos.now → result ≡ place_found (slice_get infos.now place) attr.now }
{
    match infos.get(place as usize) {
        Some(info) => attr_place(info.attrs.items(), attr),
        None => 0,
    }
}

/// The tree of a variable with an attribute.
fn dotted_tree(vars: &[Name], infos: &[RelInfo], var: &Name, attr: &Name) -> QTerm
    ensures { (s : Scope) → Knows s vars.now infos.now → is_among vars.now var.now ≡ true → result ≡ qterm.Attr (var_place vars.now var.now) (attr_in s var.now attr.now) }
{
    let place = var_place(vars, var);
    let attr = attr_place_at(infos, place, attr);
    QTerm::Attr { var: place, attr }
}

fn int_tree(number: &i64) -> QTerm
    ensures { result ≡ qterm.Int number.now }
{
    QTerm::Int(*number)
}

#[cycle(trees)]
fn boxed_tree(
    alloc: Global,
    vars: &[Name],
    infos: &[RelInfo],
    t: &Term,
) -> Result<Boxed<QTerm>, OutOfMemory>
    ensures { IfOk result (IsTermTree vars.now infos.now t.now) }
{
    Boxed::new(alloc, term_tree(alloc, vars, infos, t)?)
}

/// The tree of a term that has no aggregate, where each of its variables is one of `vars` and ranges
/// over what stands at its place in `infos`. Of a term that has one nothing is said.
#[cycle(trees)]
pub fn term_tree(
    alloc: Global,
    vars: &[Name],
    infos: &[RelInfo],
    t: &Term,
) -> Result<QTerm, OutOfMemory>
    ensures { IfOk result (IsTermTree vars.now infos.now t.now) }
{
    match t {
        Term::Int(number) => Ok(int_tree(number)),
        Term::Chars(chars) => Ok(QTerm::Chars(chars.copy(alloc)?)),
        Term::Attr { var, attr } => Ok(dotted_tree(vars, infos, var, attr)),
        Term::Neg(inner) => Ok(QTerm::Neg(boxed_tree(alloc, vars, infos, inner.get())?)),
        Term::Abs(inner) => Ok(QTerm::Abs(boxed_tree(alloc, vars, infos, inner.get())?)),
        Term::Arith { op, left, right } => {
            let left = boxed_tree(alloc, vars, infos, left.get());
            let right = boxed_tree(alloc, vars, infos, right.get());
            let (left, right) = both(left, right)?;
            Ok(QTerm::Arith {
                op: *op,
                left,
                right,
            })
        }
        Term::Concat { left, right } => {
            let left = boxed_tree(alloc, vars, infos, left.get());
            let right = boxed_tree(alloc, vars, infos, right.get());
            let (left, right) = both(left, right)?;
            Ok(QTerm::Concat { left, right })
        }
        Term::Agg(_) => Ok(QTerm::Int(0)),
    }
}

#[cycle(qual_trees)]
fn boxed_qual(
    alloc: Global,
    vars: &[Name],
    infos: &[RelInfo],
    q: &Qual,
) -> Result<Boxed<QQual>, OutOfMemory>
    ensures { IfOk result (IsQualTree vars.now infos.now q.now) }
{
    Boxed::new(alloc, qual_tree(alloc, vars, infos, q)?)
}

/// The tree of a qualification that has no aggregate, where each of its variables is one of `vars`
/// and ranges over what stands at its place in `infos`. Of one that has an aggregate nothing is said.
#[cycle(qual_trees)]
pub fn qual_tree(
    alloc: Global,
    vars: &[Name],
    infos: &[RelInfo],
    q: &Qual,
) -> Result<QQual, OutOfMemory>
    ensures { IfOk result (IsQualTree vars.now infos.now q.now) }
{
    match q {
        Qual::True => Ok(QQual::True),
        Qual::Cmp { op, left, right } => {
            let left = term_tree(alloc, vars, infos, left);
            let right = term_tree(alloc, vars, infos, right);
            let (left, right) = both(left, right)?;
            Ok(compared(*op, left, right))
        }
        Qual::And(left, right) => {
            let left = boxed_qual(alloc, vars, infos, left.get());
            let right = boxed_qual(alloc, vars, infos, right.get());
            let (left, right) = both(left, right)?;
            Ok(QQual::And(left, right))
        }
        Qual::Or(left, right) => {
            let left = boxed_qual(alloc, vars, infos, left.get());
            let right = boxed_qual(alloc, vars, infos, right.get());
            let (left, right) = both(left, right)?;
            Ok(QQual::Or(left, right))
        }
        Qual::Not(inner) => Ok(QQual::Not(boxed_qual(alloc, vars, infos, inner.get())?)),
    }
}

fn qual_tree_of(
    alloc: Global,
    vars: &[Name],
    infos: &[RelInfo],
    s: &Statement,
) -> Result<QQual, OutOfMemory>
    ensures { IfOk result (IsQualTree vars.now infos.now (where_of s.now)) }
{
    match where_of(s) {
        Some(qual) => qual_tree(alloc, vars, infos, qual),
        None => Ok(QQual::True),
    }
}

/// The tree of a statement's qualification, where the statement has no aggregate, `vars` are its
/// variables, and each ranges over what stands at its place in `infos`.
pub fn where_tree(
    alloc: Global,
    vars: &[Name],
    infos: &[RelInfo],
    s: &Statement,
) -> Result<QQual, OutOfMemory>
    ensures { IfOk result (λ tree. (scope : Scope) → vars.now ≡ vars_in s.now → Knows scope vars.now infos.now → is_any (text_aggregates s.now) ≡ false → tree ≡ where_tree scope s.now) }
{
    qual_tree_of(alloc, vars, infos, s)
}
