//! Attributes of what is made of the targets of a query.

ghost use Rattle.std.specs.Prelude.{◌≡◌, ◌&&◌, [], map, IfOk, OnOk};
ghost use Rattle.calculus.specs.IsDatabase.{are_stored, attrs_stand};
ghost use Rattle.calculus.specs.QueryParts.{targets_of};
ghost use Rattle.calculus.specs.Replacement.{made_attr};
ghost use Rattle.quel_meaning.specs.Planned.{target_attr};

use calculus::{Attr, OutOfMemory, Query, Target, made_kind};
use change_check::{attrs_stand, relation_attrs_stand};
use std::alloc::Global;

/// The attribute of a view that a target is.
fn target_attr(alloc: Global, target: &Target) -> Result<Attr, OutOfMemory>
    ensures { IfOk result (λ attr. attr ≡ target_attr target.now) }
{
    let kind = target.kind;
    match target.name.copy(alloc) {
        Ok(name) => Ok(Attr { name, kind }),
        Err(error) => Err(error),
    }
}

fn push_target_attrs(
    alloc: Global,
    attrs: &mut Vec<Attr>,
    targets: &[Target],
) -> Result<(), OutOfMemory>
    requires { attrs.old.items ≡ [] }
    ensures { OnOk result (attrs.new.items ≡ map target_attr targets.now) }
{
    for target in targets {
        attrs.push(target_attr(alloc, target)?)?;
    }
    Ok(())
}

/// The attribute of a new relation that holds the values of a target: a number of 64 bits becomes one of
/// 32.
fn made_attr(alloc: Global, target: &Target) -> Result<Attr, OutOfMemory>
    ensures { IfOk result (λ attr. attr ≡ made_attr target.now) }
{
    let kind = made_kind(target);
    match target.name.copy(alloc) {
        Ok(name) => Ok(Attr { name, kind }),
        Err(error) => Err(error),
    }
}

fn push_made_attrs(
    alloc: Global,
    attrs: &mut Vec<Attr>,
    targets: &[Target],
) -> Result<(), OutOfMemory>
    requires { attrs.old.items ≡ [] }
    ensures { OnOk result (attrs.new.items ≡ map made_attr targets.now) }
{
    for target in targets {
        attrs.push(made_attr(alloc, target)?)?;
    }
    Ok(())
}

/// Whether the targets of a query would be attributes of a view.
#[tactic(auto, using(ovqp::proofs::Parts::targets_is))]
pub(crate) fn target_attrs_stand(alloc: Global, q: &Query) -> Result<bool, OutOfMemory>
    ensures { IfOk result (λ stand. stand ≡ attrs_stand (map target_attr (targets_of q.now))) }
{
    let mut attrs = Vec::new(alloc);
    match push_target_attrs(alloc, &mut attrs, q.targets.items()) {
        Ok(()) => attrs_stand(alloc, &attrs),
        Err(error) => Err(error),
    }
}

/// Whether what is made of the targets of a query would be attributes of a relation.
#[tactic(auto, using(ovqp::proofs::Parts::targets_is))]
pub(crate) fn made_attrs_stand(alloc: Global, q: &Query) -> Result<bool, OutOfMemory>
    ensures { IfOk result (λ stand. stand ≡ (attrs_stand (map made_attr (targets_of q.now)) && are_stored (map made_attr (targets_of q.now)))) }
{
    let mut attrs = Vec::new(alloc);
    match push_made_attrs(alloc, &mut attrs, q.targets.items()) {
        Ok(()) => relation_attrs_stand(alloc, &attrs),
        Err(error) => Err(error),
    }
}
