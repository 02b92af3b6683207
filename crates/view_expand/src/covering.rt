//! Which permits cover what is asked, and their conditions.

ghost use Rattle.std.specs.Prelude.{◌≡◌, [], ◌∷◌, ◌++◌, OnOk};
ghost use Rattle.std.specs.List.{list_all};
ghost use Rattle.calculus.specs.Lists.{has_number};
ghost use Rattle.calculus.specs.Rights.{covers, has_attrs, is_for};
ghost use Rattle.calculus.specs.Who.{asker_of};
ghost use Rattle.view_expand.specs.Asking.{right_of};
ghost use Rattle.view_expand.specs.Covering.{covering_conditions};

use crate::Right;
use calculus::{Name, OutOfMemory, Permit, QQual};
use std::alloc::Global;
use view_text::permit_condition;

/// Whether the permit is for this user, or for all.
fn is_for(named: &Option<Name>, user: &Name) -> bool
    ensures { result ≡ is_for named.now user.now }
{
    match named {
        None => true,
        Some(name) => *name == *user,
    }
}

/// Whether the number is one of these.
fn has_number(numbers: &[u8], n: u8) -> bool
    ensures { result ≡ has_number numbers.now n }
{
    for number in numbers {
        if *number == n {
            return true;
        }
    }
    false
}

/// Whether each of the attributes is one of these.
fn has_all(numbers: &[u8], attrs: &[u8]) -> bool
    ensures { result ≡ list_all (has_number numbers.now) attrs.now }
{
    for attr in attrs {
        if !has_number(numbers, *attr) {
            return false;
        }
    }
    true
}

/// Whether a permit's attributes hold all of these; a permit without attributes is for all.
fn has_attrs(numbers: &[u8], attrs: &[u8]) -> bool
    ensures { result ≡ has_attrs numbers.now attrs.now }
{
    match numbers {
        [] => true,
        [_, ..] => has_all(numbers, attrs),
    }
}

/// Whether the permit is for the user, allows this and is for all of these attributes.
#[tactic(auto, unfolding(calculus::specs::Rights::covers))]
fn covers(permit: &Permit, user: &Name, right: Right, attrs: &[u8]) -> bool
    ensures { result ≡ covers permit.now (asker_of user.now) (right_of right) attrs.now }
{
    let allows = right.is_in(permit.ops);
    let whole = has_attrs(permit.attrs.items(), attrs);
    is_for(&permit.user, user) && allows && whole
}

/// Puts the condition of a permit behind those that are there, where it covers this.
fn put_condition(
    alloc: Global,
    permit: &Permit,
    user: &Name,
    right: Right,
    attrs: &[u8],
    made: &mut Vec<QQual>,
) -> Result<(), OutOfMemory>
    ensures { OnOk result (made.new.items ≡ made.old.items ++ covering_conditions (permit.now ∷ []) (asker_of user.now) (right_of right) attrs.now) }
{
    if covers(permit, user, right, attrs) {
        made.push(permit_condition(alloc, &permit.qual)?)?;
    }
    Ok(())
}

/// Puts the conditions of the permits that cover this behind those that are there.
pub(crate) fn put_covering(
    alloc: Global,
    permits: &[Permit],
    user: &Name,
    right: Right,
    attrs: &[u8],
    made: &mut Vec<QQual>,
) -> Result<(), OutOfMemory>
    ensures { OnOk result (made.new.items ≡ made.old.items ++ covering_conditions permits.now (asker_of user.now) (right_of right) attrs.now) }
{
    for permit in permits {
        put_condition(alloc, permit, user, right, attrs, made)?;
    }
    Ok(())
}
