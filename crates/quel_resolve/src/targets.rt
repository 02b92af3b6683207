//! The targets of a target list.

ghost use Rattle.std.specs.Prelude.{◌≡◌, ◌≤◌, ℕ, [], ◌∷◌, ◌++◌, length, map, slice_get, unwrap_or, vec_items, All, IfOk, OnOk, Some};
ghost use Rattle.base_trait.specs.Causes.{HasCause};
ghost use Rattle.calculus.specs.declared.query.QTerm.TheVariants as qterm;
ghost use Rattle.calculus.specs.declared.statement.Item.TheVariants as item;
ghost use Rattle.calculus.specs.declared.statement.Term.TheVariants as written;
ghost use Rattle.calculus.specs.declared.value.Kind.TheVariants.{Wide};
ghost use Rattle.calculus.specs.Database.{Db};
ghost use Rattle.calculus.specs.Stored.{attrs_in};
ghost use Rattle.quel_meaning.specs.KindsInQueries.{kind_in_query};
ghost use Rattle.quel_meaning.specs.WrittenQuery.{attr_targets};
ghost use Rattle.quel_resolve.specs.Targets.{Puts, kinds_in};

use crate::places::{byte, var_place};
use base_trait::{Base, BaseFault};
use calculus::{Attr, Item, Kind, Name, OutOfMemory, QTerm, RelInfo, Target, Term, TryCopy};
use memory::{both, push};
use quel_check::{Known, slot_behind_item, term_tree_from};
use quel_refusals::kind_in_query;
use std::alloc::Global;

/// The target of this name for a term, with the term's kind.
fn target<B: Base>(
    alloc: Global,
    base: &mut B,
    name: Name,
    term: QTerm,
    kinds: &[Vec<Kind>],
) -> Result<Target, BaseFault>
    ensures known { (db : Db) → B.schema base.old ≡ Some db
        → IfOk result (λ made. made ≡ record { name = name; kind = unwrap_or (kind_in_query db term (map vec_items kinds.now)) Wide; term = term }) }
    ensures kept { B.database base.new ≡ B.database base.old }
    ensures stays { (s : Db) → B.schema base.old ≡ Some s → B.schema base.new ≡ Some s }
    ensures asked { (b : B) → B.asked b base.old → B.asked b base.new }
    ensures cause { HasCause (B.database base.old) (B.faults base.old) (B.faults base.new) result }
{
    match kind_in_query(alloc, base, &term, kinds) {
        Ok(kind) => Ok(Target {
            name,
            kind: kind.unwrap_or(Kind::Wide),
            term,
        }),
        Err(fault) => {
            drop(name);
            drop(term);
            Err(fault)
        }
    }
}

/// Puts the target of this name for a written term, before which `slot` aggregates stand, behind the
/// others.
fn push_term<B: Base>(
    alloc: Global,
    base: &mut B,
    known: Known<'_>,
    kinds: &[Vec<Kind>],
    slot: u16,
    name: &Name,
    term: &Term,
    targets: &mut Vec<Target>,
) -> Result<(), BaseFault>
    requires { map vec_items kinds.now ≡ kinds_in known.infos.now }
    ensures known { (db : Db) → B.schema base.old ≡ Some db
        → OnOk result (Puts db known.entry.vars.now known.entry.infos.now known.entry.inner_vars.now known.entry.inner_infos.now slot (item.Set name.now term.now ∷ []) targets.old.items targets.new.items) }
    ensures kept { B.database base.new ≡ B.database base.old }
    ensures stays { (s : Db) → B.schema base.old ≡ Some s → B.schema base.new ≡ Some s }
    ensures asked { (b : B) → B.asked b base.old → B.asked b base.new }
    ensures cause { HasCause (B.database base.old) (B.faults base.old) (B.faults base.new) result }
{
    let term = term_tree_from(alloc, known, slot, term);
    let (term, name) = both(term, name.copy(alloc))?;
    let target = target(alloc, base, name, term, kinds)?;
    Ok(push(targets, target)?)
}

/// The target of an attribute of a variable, both by place.
fn attr_target(alloc: Global, var: u8, place: usize, attr: &Attr) -> Result<Target, OutOfMemory>
    ensures { IfOk result (λ target. place ≤ 255 → target ≡ record { name = attr.now.name; kind = attr.now.kind; term = qterm.Attr var place }) }
{
    let name = attr.name.copy(alloc)?;
    let term = QTerm::Attr {
        var,
        attr: byte(place),
    };
    Ok(Target {
        name,
        kind: attr.kind,
        term,
    })
}

/// Puts a target for each of these attributes of a variable behind the others.
fn push_attrs(
    alloc: Global,
    var: u8,
    attrs: &[Attr],
    targets: &mut Vec<Target>,
) -> Result<(), OutOfMemory>
    ensures { OnOk result (length attrs.now ≤ 256 → targets.new.items ≡ targets.old.items ++ attr_targets var attrs.now) }
{
    for (place, attr) in attrs.iter().enumerate() {
        let target = attr_target(alloc, var, place, attr)?;
        push(targets, target)?;
    }
    Ok(())
}

/// The attributes of what stands at this place; none where nothing does.
fn attrs_at(infos: &[RelInfo], place: u8) -> &[Attr]
    ensures attrs { result.now ≡ attrs_in (slice_get infos.now place) }
    ensures few { All (λ info. length info.attrs ≤ 256) infos.now → length result.now ≤ 256 }
{
    match infos.get(place as usize) {
        Some(info) => info.attrs.items(),
        None => &[],
    }
}

/// Puts a target for each attribute of the variable behind the others.
fn push_all(
    alloc: Global,
    known: Known<'_>,
    var: &Name,
    targets: &mut Vec<Target>,
) -> Result<(), OutOfMemory>
    ensures { (db : Db) (slot : ℕ) → OnOk result (Puts db known.entry.vars.now known.entry.infos.now known.entry.inner_vars.now known.entry.inner_infos.now slot (item.All var.now ∷ []) targets.old.items targets.new.items) }
{
    let place = var_place(known.vars, var);
    push_attrs(alloc, place, attrs_at(known.infos, place), targets)
}

/// A variable's attribute as a written term.
fn attr_term(alloc: Global, var: &Name, attr: &Name) -> Result<Term, OutOfMemory>
    ensures { IfOk result (λ term. term ≡ written.Attr var.now attr.now) }
{
    let var = var.copy(alloc)?;
    let attr = attr.copy(alloc)?;
    Ok(Term::Attr { var, attr })
}

/// Puts the target of a variable's attribute, under the attribute's name, behind the others.
fn push_attr<B: Base>(
    alloc: Global,
    base: &mut B,
    known: Known<'_>,
    kinds: &[Vec<Kind>],
    var: &Name,
    attr: &Name,
    targets: &mut Vec<Target>,
) -> Result<(), BaseFault>
    requires { map vec_items kinds.now ≡ kinds_in known.infos.now }
    ensures known { (db : Db) (slot : ℕ) → B.schema base.old ≡ Some db
        → OnOk result (Puts db known.entry.vars.now known.entry.infos.now known.entry.inner_vars.now known.entry.inner_infos.now slot (item.Attr var.now attr.now ∷ []) targets.old.items targets.new.items) }
    ensures kept { B.database base.new ≡ B.database base.old }
    ensures stays { (s : Db) → B.schema base.old ≡ Some s → B.schema base.new ≡ Some s }
    ensures asked { (b : B) → B.asked b base.old → B.asked b base.new }
    ensures cause { HasCause (B.database base.old) (B.faults base.old) (B.faults base.new) result }
{
    let term = attr_term(alloc, var, attr)?;
    let done = push_term(alloc, base, known, kinds, 0, attr, &term, targets);
    drop(term);
    done
}

/// Puts the targets of an item, before which `slot` aggregates stand, behind the others.
fn push_item<B: Base>(
    alloc: Global,
    base: &mut B,
    known: Known<'_>,
    kinds: &[Vec<Kind>],
    slot: u16,
    item: &Item,
    targets: &mut Vec<Target>,
) -> Result<(), BaseFault>
    requires { map vec_items kinds.now ≡ kinds_in known.infos.now }
    ensures known { (db : Db) → B.schema base.old ≡ Some db
        → OnOk result (Puts db known.entry.vars.now known.entry.infos.now known.entry.inner_vars.now known.entry.inner_infos.now slot (item.now ∷ []) targets.old.items targets.new.items) }
    ensures kept { B.database base.new ≡ B.database base.old }
    ensures stays { (s : Db) → B.schema base.old ≡ Some s → B.schema base.new ≡ Some s }
    ensures asked { (b : B) → B.asked b base.old → B.asked b base.new }
    ensures cause { HasCause (B.database base.old) (B.faults base.old) (B.faults base.new) result }
{
    match item {
        Item::Set { name, term } => {
            push_term(alloc, base, known, kinds, slot, name, term, targets)
        }
        Item::Attr { var, attr } => push_attr(alloc, base, known, kinds, var, attr, targets),
        Item::All { var } => Ok(push_all(alloc, known, var, targets)?),
    }
}

/// The targets of the items of a target list, where `kinds` are those of the attributes of what the
/// variables range over.
pub(crate) fn targets_from<B: Base>(
    alloc: Global,
    base: &mut B,
    known: Known<'_>,
    kinds: &[Vec<Kind>],
    items: &[Item],
) -> Result<Vec<Target>, BaseFault>
    requires { map vec_items kinds.now ≡ kinds_in known.infos.now }
    ensures known { (db : Db) → B.schema base.old ≡ Some db
        → IfOk result (λ targets. Puts db known.entry.vars.now known.entry.infos.now known.entry.inner_vars.now known.entry.inner_infos.now 0 items.now [] targets.items) }
    ensures kept { B.database base.new ≡ B.database base.old }
    ensures stays { (s : Db) → B.schema base.old ≡ Some s → B.schema base.new ≡ Some s }
    ensures asked { (b : B) → B.asked b base.old → B.asked b base.new }
    ensures cause { HasCause (B.database base.old) (B.faults base.old) (B.faults base.new) result }
{
    let mut targets = Vec::new(alloc);
    let mut slot = 0;
    for item in items {
        push_item(alloc, base, known, kinds, slot, item, &mut targets)?;
        slot = slot_behind_item(slot, item);
    }
    Ok(targets)
}
