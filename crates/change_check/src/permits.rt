//! Permits and rules that are made.

ghost use Rattle.std.specs.Prelude.{◌≡◌, [], ◌&&◌, length, nat_lt, IfOk, Some, bytes_eq};
ghost use Rattle.std.specs.List.{list_all};
ghost use Rattle.base_trait.specs.Causes.{HasCause};
ghost use Rattle.calculus.specs.Change.{permit_numbers, rule_numbers};
ghost use Rattle.calculus.specs.Database.{Db, is_relation};
ghost use Rattle.calculus.specs.IsDatabase.{valid_row_qual, user_is_named};
ghost use Rattle.calculus.specs.QueryParts.{qual_aggregates};
ghost use Rattle.calculus.specs.Storable.{permit_lists_are_storable, row_qual_is_storable};
ghost use Rattle.calculus.specs.Stored.{kinds_at};
ghost use Rattle.change_laws.specs.Fit.{number_is_free, permit_is_fit, rule_is_fit};

use crate::keys::is_relation;
use crate::numbers::has_number;
use base_trait::{Base, BaseFault};
use calculus::limits::MOST_NUMBERED;
use calculus::{Kind, Name, Permit, QQual, RelKey, Rule, is_name};
use ovqp::kinds_at;
use quel_refusals::{existing_permits, existing_rules, qual_is_small, valid_row_qual};
use std::alloc::Global;
use update_laws::qual_is_spelled;

/// The attributes that a permit lists at most.
const MOST_LISTED: usize = 65_535;

/// The sum of all rights.
const ALL_RIGHTS: u8 = 15;

/// Whether the administrator is the owner.
fn is_administrators<B: Base>(alloc: Global, base: &mut B, rel: &RelKey) -> Result<bool, BaseFault>
    ensures known { (db : Db) → B.schema base.old ≡ Some db → IfOk result (λ own. own ≡ bytes_eq rel.now.owner db.dba) }
    ensures kept { B.database base.new ≡ B.database base.old }
    ensures stays { (s : Db) → B.schema base.old ≡ Some s → B.schema base.new ≡ Some s }
    ensures asked { (b : B) → B.asked b base.old → B.asked b base.new }
    ensures cause { HasCause (B.database base.old) (B.faults base.old) (B.faults base.new) result }
{
    let dba = base.dba(alloc)?;
    Ok(rel.owner.bytes() == dba.bytes())
}

/// Whether the user of a permit has a name.
fn user_is_named(user: &Option<Name>) -> bool
    ensures { result ≡ user_is_named user.now }
{
    match user {
        None => true,
        Some(user) => is_name(user.bytes()),
    }
}

/// Whether these are places of attributes, which are of these kinds.
pub fn are_places(kinds: &[Kind], attrs: &[u8]) -> bool
    ensures { result ≡ list_all (λ a. nat_lt a (length kinds.now)) attrs.now }
{
    let most = kinds.len();
    attrs.iter().all(|attr| (*attr as usize) < most)
}

/// Whether a qualification in which no aggregate stands can be stored: it is small enough, and its
/// constants are those of their types.
fn is_storable(qual: &QQual) -> bool
    ensures { qual_aggregates qual.now ≡ [] → result ≡ row_qual_is_storable qual.now }
{
    qual_is_spelled(qual);
    qual_is_small(qual)
}

/// Whether a qualification over a row of the relation stands, and can be stored.
pub fn row_qual_is_fit<B: Base>(
    alloc: Global,
    base: &mut B,
    rel: &RelKey,
    qual: &QQual,
) -> Result<bool, BaseFault>
    ensures known { (db : Db) → B.schema base.old ≡ Some db → IfOk result (λ fit. fit ≡ (valid_row_qual db rel.now qual.now && row_qual_is_storable qual.now)) }
    ensures kept { B.database base.new ≡ B.database base.old }
    ensures stays { (s : Db) → B.schema base.old ≡ Some s → B.schema base.new ≡ Some s }
    ensures asked { (b : B) → B.asked b base.old → B.asked b base.new }
    ensures cause { HasCause (B.database base.old) (B.faults base.old) (B.faults base.new) result }
{
    if !valid_row_qual(alloc, base, rel, qual)? {
        return Ok(false);
    }
    Ok(is_storable(qual))
}

/// Whether the attributes of a permit are places of attributes of its relation.
pub fn attrs_are_places<B: Base>(
    alloc: Global,
    base: &mut B,
    rel: &RelKey,
    attrs: &[u8],
) -> Result<bool, BaseFault>
    ensures known { (db : Db) → B.schema base.old ≡ Some db → IfOk result (λ fit. fit ≡ list_all (λ a. nat_lt a (length (kinds_at db rel.now))) attrs.now) }
    ensures kept { B.database base.new ≡ B.database base.old }
    ensures stays { (s : Db) → B.schema base.old ≡ Some s → B.schema base.new ≡ Some s }
    ensures asked { (b : B) → B.asked b base.old → B.asked b base.new }
    ensures cause { HasCause (B.database base.old) (B.faults base.old) (B.faults base.new) result }
{
    let kinds = kinds_at(alloc, base, rel)?;
    Ok(are_places(&kinds, attrs))
}

/// Whether a permit lists rights, and no more attributes than one may.
fn lists_are_storable(permit: &Permit) -> bool
    ensures { result ≡ permit_lists_are_storable permit.now }
{
    permit.attrs.items().len() <= MOST_LISTED && permit.ops <= ALL_RIGHTS
}

/// Whether the user of a permit has a name, and what the permit lists can be stored.
fn is_said_well(permit: &Permit) -> bool
    ensures { result ≡ (user_is_named permit.now.user && permit_lists_are_storable permit.now) }
{
    user_is_named(&permit.user) && lists_are_storable(permit)
}

/// Whether a number is none of these, and there may be one more.
#[tactic(auto, unfolding(change_laws::specs::Fit::number_is_free))]
fn number_is_free(numbers: &[u32], number: u32) -> bool
    ensures { result ≡ number_is_free 100 numbers.now number }
{
    !has_number(numbers, number) && numbers.len() < MOST_NUMBERED
}

/// Whether a permit of the relation may have the number.
fn permit_number_is_free<B: Base>(
    alloc: Global,
    base: &mut B,
    rel: &RelKey,
    number: u32,
) -> Result<bool, BaseFault>
    ensures known { (db : Db) → B.schema base.old ≡ Some db → IfOk result (λ free. free ≡ number_is_free 100 (permit_numbers db rel.now) number) }
    ensures kept { B.database base.new ≡ B.database base.old }
    ensures stays { (s : Db) → B.schema base.old ≡ Some s → B.schema base.new ≡ Some s }
    ensures asked { (b : B) → B.asked b base.old → B.asked b base.new }
    ensures cause { HasCause (B.database base.old) (B.faults base.old) (B.faults base.new) result }
{
    let numbers = existing_permits(alloc, base, rel)?;
    Ok(number_is_free(&numbers, number))
}

/// Whether a rule of the relation may have the number.
fn rule_number_is_free<B: Base>(
    alloc: Global,
    base: &mut B,
    rel: &RelKey,
    number: u32,
) -> Result<bool, BaseFault>
    ensures known { (db : Db) → B.schema base.old ≡ Some db → IfOk result (λ free. free ≡ number_is_free 100 (rule_numbers db rel.now) number) }
    ensures kept { B.database base.new ≡ B.database base.old }
    ensures stays { (s : Db) → B.schema base.old ≡ Some s → B.schema base.new ≡ Some s }
    ensures asked { (b : B) → B.asked b base.old → B.asked b base.new }
    ensures cause { HasCause (B.database base.old) (B.faults base.old) (B.faults base.new) result }
{
    let numbers = existing_rules(alloc, base, rel)?;
    Ok(number_is_free(&numbers, number))
}

/// Whether a rule has what one must have, asked part by part.
fn rule_has_parts<B: Base>(
    alloc: Global,
    base: &mut B,
    rel: &RelKey,
    rule: &Rule,
) -> Result<bool, BaseFault>
    ensures known { (db : Db) → B.schema base.old ≡ Some db → IfOk result (λ fit. fit ≡ (is_relation db rel.now && ((valid_row_qual db rel.now rule.now.qual && row_qual_is_storable rule.now.qual) && number_is_free 100 (rule_numbers db rel.now) rule.now.number))) }
    ensures kept { B.database base.new ≡ B.database base.old }
    ensures stays { (s : Db) → B.schema base.old ≡ Some s → B.schema base.new ≡ Some s }
    ensures asked { (b : B) → B.asked b base.old → B.asked b base.new }
    ensures cause { HasCause (B.database base.old) (B.faults base.old) (B.faults base.new) result }
{
    if !is_relation(alloc, base, rel)? {
        return Ok(false);
    }
    if !row_qual_is_fit(alloc, base, rel, &rule.qual)? {
        return Ok(false);
    }
    rule_number_is_free(alloc, base, rel, rule.number)
}

/// Whether a rule may be made: it stands on a relation, is no larger than one may be, and has a free
/// number.
pub(crate) fn rule_is_fit<B: Base>(
    alloc: Global,
    base: &mut B,
    rel: &RelKey,
    rule: &Rule,
) -> Result<bool, BaseFault>
    ensures known { (db : Db) → B.schema base.old ≡ Some db → IfOk result (λ fit. fit ≡ rule_is_fit db rel.now rule.now) }
    ensures kept { B.database base.new ≡ B.database base.old }
    ensures stays { (s : Db) → B.schema base.old ≡ Some s → B.schema base.new ≡ Some s }
    ensures asked { (b : B) → B.asked b base.old → B.asked b base.new }
    ensures cause { HasCause (B.database base.old) (B.faults base.old) (B.faults base.new) result }
{
    rule_has_parts(alloc, base, rel, rule)
}

/// Whether a permit lists attributes of its relation, and its qualification stands and can be stored.
fn permit_covers<B: Base>(
    alloc: Global,
    base: &mut B,
    rel: &RelKey,
    permit: &Permit,
) -> Result<bool, BaseFault>
    ensures known { (db : Db) → B.schema base.old ≡ Some db → IfOk result (λ fit. fit ≡ (list_all (λ a. nat_lt a (length (kinds_at db rel.now))) permit.now.attrs && (valid_row_qual db rel.now permit.now.qual && row_qual_is_storable permit.now.qual))) }
    ensures kept { B.database base.new ≡ B.database base.old }
    ensures stays { (s : Db) → B.schema base.old ≡ Some s → B.schema base.new ≡ Some s }
    ensures asked { (b : B) → B.asked b base.old → B.asked b base.new }
    ensures cause { HasCause (B.database base.old) (B.faults base.old) (B.faults base.new) result }
{
    if !attrs_are_places(alloc, base, rel, permit.attrs.items())? {
        return Ok(false);
    }
    row_qual_is_fit(alloc, base, rel, &permit.qual)
}

/// Whether a relation stands under a key, and is the administrator's.
fn is_administrators_relation<B: Base>(
    alloc: Global,
    base: &mut B,
    rel: &RelKey,
) -> Result<bool, BaseFault>
    ensures known { (db : Db) → B.schema base.old ≡ Some db → IfOk result (λ own. own ≡ (is_relation db rel.now && bytes_eq rel.now.owner db.dba)) }
    ensures kept { B.database base.new ≡ B.database base.old }
    ensures stays { (s : Db) → B.schema base.old ≡ Some s → B.schema base.new ≡ Some s }
    ensures asked { (b : B) → B.asked b base.old → B.asked b base.new }
    ensures cause { HasCause (B.database base.old) (B.faults base.old) (B.faults base.new) result }
{
    if !is_relation(alloc, base, rel)? {
        return Ok(false);
    }
    is_administrators(alloc, base, rel)
}

/// Whether what a permit covers stands, and its number is free.
fn valid_permit<B: Base>(
    alloc: Global,
    base: &mut B,
    rel: &RelKey,
    permit: &Permit,
) -> Result<bool, BaseFault>
    ensures known { (db : Db) → B.schema base.old ≡ Some db → IfOk result (λ fit. fit ≡ ((list_all (λ a. nat_lt a (length (kinds_at db rel.now))) permit.now.attrs && (valid_row_qual db rel.now permit.now.qual && row_qual_is_storable permit.now.qual)) && number_is_free 100 (permit_numbers db rel.now) permit.now.number)) }
    ensures kept { B.database base.new ≡ B.database base.old }
    ensures stays { (s : Db) → B.schema base.old ≡ Some s → B.schema base.new ≡ Some s }
    ensures asked { (b : B) → B.asked b base.old → B.asked b base.new }
    ensures cause { HasCause (B.database base.old) (B.faults base.old) (B.faults base.new) result }
{
    if !permit_covers(alloc, base, rel, permit)? {
        return Ok(false);
    }
    permit_number_is_free(alloc, base, rel, permit.number)
}

/// Whether a permit has what one must have, asked part by part.
fn permit_has_parts<B: Base>(
    alloc: Global,
    base: &mut B,
    rel: &RelKey,
    permit: &Permit,
) -> Result<bool, BaseFault>
    ensures known { (db : Db) → B.schema base.old ≡ Some db → IfOk result (λ fit. fit ≡ ((user_is_named permit.now.user && permit_lists_are_storable permit.now) && ((is_relation db rel.now && bytes_eq rel.now.owner db.dba) && ((list_all (λ a. nat_lt a (length (kinds_at db rel.now))) permit.now.attrs && (valid_row_qual db rel.now permit.now.qual && row_qual_is_storable permit.now.qual)) && number_is_free 100 (permit_numbers db rel.now) permit.now.number)))) }
    ensures kept { B.database base.new ≡ B.database base.old }
    ensures stays { (s : Db) → B.schema base.old ≡ Some s → B.schema base.new ≡ Some s }
    ensures asked { (b : B) → B.asked b base.old → B.asked b base.new }
    ensures cause { HasCause (B.database base.old) (B.faults base.old) (B.faults base.new) result }
{
    if !is_said_well(permit) {
        return Ok(false);
    }
    if !is_administrators_relation(alloc, base, rel)? {
        return Ok(false);
    }
    valid_permit(alloc, base, rel, permit)
}

/// Whether a permit may be made: it stands on a relation of the administrator's, is no larger than one
/// may be, and has a free number.
pub(crate) fn permit_is_fit<B: Base>(
    alloc: Global,
    base: &mut B,
    rel: &RelKey,
    permit: &Permit,
) -> Result<bool, BaseFault>
    ensures known { (db : Db) → B.schema base.old ≡ Some db → IfOk result (λ fit. fit ≡ permit_is_fit db rel.now permit.now) }
    ensures kept { B.database base.new ≡ B.database base.old }
    ensures stays { (s : Db) → B.schema base.old ≡ Some s → B.schema base.new ≡ Some s }
    ensures asked { (b : B) → B.asked b base.old → B.asked b base.new }
    ensures cause { HasCause (B.database base.old) (B.faults base.old) (B.faults base.new) result }
{
    permit_has_parts(alloc, base, rel, permit)
}
