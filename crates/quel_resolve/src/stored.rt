//! The trees of views, permits and rules, and of permits and rules that go.

ghost use Rattle.std.specs.Prelude.{◌≡◌, ◌≤◌, ℕ, List as Items, None, Some, is_some, length, map, option_copied, IfOk, IfSome};
ghost use Rattle.calculus.specs.declared.query.Query.{Query as AskedQuery};
ghost use Rattle.calculus.specs.declared.request.Checked.TheVariants.{Utility as ForUtilities};
ghost use Rattle.calculus.specs.declared.request.Utility.TheVariants as utility;
ghost use Rattle.calculus.specs.declared.statement.Qual.{Qual as WrittenQual};
ghost use Rattle.calculus.specs.declared.statement.Statement.TheVariants as statement;
ghost use Rattle.calculus.specs.Keys.{key_of};
ghost use Rattle.calculus.specs.QueryParts.{qual_of};
ghost use Rattle.calculus.specs.Stored.{attrs_in};
ghost use Rattle.quel_meaning.specs.Resolved.{tree_by};
ghost use Rattle.quel_meaning.specs.Scope.{Scope, named, place_found, ranged};

use crate::known::key_of;
use crate::pairs::beside;
use crate::places::attr_place;
use calculus::{
    Checked, List, Name, OutOfMemory, Permit, QQual, Query, RelInfo, RelKey, Rule, TryCopy, Utility,
};
use memory::both;
use std::alloc::Global;

/// The tree of a view of the user's with this name.
pub(crate) fn viewed(
    alloc: Global,
    user: &Name,
    name: &Name,
    q: Query,
) -> Result<Option<Checked>, OutOfMemory>
    ensures { IfOk result (λ tree. tree ≡ Some (ForUtilities (utility.View (key_of user.now name.now) q))) }
{
    let (rel, query) = beside(key_of(alloc, user, name), q)?;
    Ok(Some(Checked::Utility(Utility::View { rel, query })))
}

/// The places of the attributes of these names.
fn places_named(alloc: Global, info: &RelInfo, names: &[Name]) -> Result<Vec<u8>, OutOfMemory>
    ensures { IfOk result (λ places. length info.now.attrs ≤ 256 → places.items ≡ map (place_found (Some info.now)) names.now) }
{
    let mut places = Vec::new(alloc);
    for name in names {
        places.push(attr_place(info.attrs.items(), name))?;
    }
    Ok(places)
}

/// A permit that has no number yet.
fn permit_of(ops: u8, places: Vec<u8>, user: Option<Name>, qual: QQual) -> Permit
    ensures { result ≡ record { number = 0; ops = ops; attrs = places.items; user = user; qual = qual } }
{
    let attrs = List::of(places);
    Permit {
        number: 0,
        ops,
        attrs,
        user,
        qual,
    }
}

/// The tree of a permit on the relation of which this is known.
fn permit_on(
    alloc: Global,
    info: &RelInfo,
    ops: u8,
    attrs: &[Name],
    user: &Option<Name>,
    qual: &QQual,
) -> Result<Checked, OutOfMemory>
    ensures { IfOk result (λ tree. length info.now.attrs ≤ 256 → tree ≡ ForUtilities (utility.Permit info.now.key (record { number = 0; ops = ops; attrs = map (place_found (Some info.now)) attrs.now; user = user.now; qual = qual.now }))) }
{
    let names = both(info.key.copy(alloc), user.copy(alloc));
    let rest = both(places_named(alloc, info, attrs), qual.copy(alloc));
    let ((rel, user), (places, qual)) = both(names, rest)?;
    let permit = permit_of(ops, places, user, qual);
    Ok(Checked::Utility(Utility::Permit { rel, permit }))
}

/// The tree of a permit; `None` where nothing is known of its relation, which has at most 256
/// attributes.
pub(crate) fn permitted(
    alloc: Global,
    target: Option<&RelInfo>,
    ops: u8,
    attrs: &[Name],
    user: &Option<Name>,
    q: &Query,
) -> Result<Option<Checked>, OutOfMemory>
    ensures built { IfOk result (λ tree. is_some tree ≡ is_some target.entry) }
    ensures tree { IfOk result (λ tree. (scope : Scope) (var : Items ℕ) (qual : WrittenQual) → ranged scope var ≡ option_copied target.entry → length (attrs_in (option_copied target.entry)) ≤ 256 → IfSome tree (λ checked. checked ≡ tree_by scope q.now (statement.Permit ops var attrs.now user.now qual))) }
{
    match target {
        Some(info) => Ok(Some(permit_on(alloc, info, ops, attrs, user, &q.qual)?)),
        None => Ok(None),
    }
}

/// The tree of a rule on the relation of which this is known.
fn rule_on(alloc: Global, info: &RelInfo, qual: &QQual) -> Result<Checked, OutOfMemory>
    ensures { IfOk result (λ tree. tree ≡ ForUtilities (utility.Rule info.now.key (record { number = 0; qual = qual.now }))) }
{
    let (rel, qual) = both(info.key.copy(alloc), qual.copy(alloc))?;
    let rule = Rule { number: 0, qual };
    Ok(Checked::Utility(Utility::Rule { rel, rule }))
}

/// The tree of a rule; `None` where nothing is known of its relation.
pub(crate) fn ruled(
    alloc: Global,
    target: Option<&RelInfo>,
    q: &Query,
) -> Result<Option<Checked>, OutOfMemory>
    ensures built { IfOk result (λ tree. is_some tree ≡ is_some target.entry) }
    ensures tree { IfOk result (λ tree. (scope : Scope) (var : Items ℕ) (qual : WrittenQual) → ranged scope var ≡ option_copied target.entry → IfSome tree (λ checked. checked ≡ tree_by scope q.now (statement.Rule var qual))) }
{
    match target {
        Some(info) => Ok(Some(rule_on(alloc, info, &q.qual)?)),
        None => Ok(None),
    }
}

/// The relation of which this is known, and numbers.
fn numbered(
    alloc: Global,
    info: &RelInfo,
    numbers: &List<u32>,
) -> Result<(RelKey, List<u32>), OutOfMemory>
    ensures { IfOk result (λ pair. (pair.0 ≡ info.now.key) × (pair.1 ≡ numbers.now)) }
{
    both(info.key.copy(alloc), numbers.copy(alloc))
}

/// The tree of permits that go; `None` where nothing is known of their relation.
pub(crate) fn permits_dropped(
    alloc: Global,
    target: Option<&RelInfo>,
    numbers: &List<u32>,
) -> Result<Option<Checked>, OutOfMemory>
    ensures built { IfOk result (λ tree. is_some tree ≡ is_some target.entry) }
    ensures tree { IfOk result (λ tree. (scope : Scope) (rel : Items ℕ) (q : AskedQuery) → named scope rel ≡ option_copied target.entry → IfSome tree (λ checked. checked ≡ tree_by scope q (statement.DropPermits rel numbers.now))) }
{
    match target {
        Some(info) => {
            let (rel, numbers) = numbered(alloc, info, numbers)?;
            Ok(Some(Checked::Utility(Utility::DropPermits { rel, numbers })))
        }
        None => Ok(None),
    }
}

/// The tree of rules that go; `None` where nothing is known of their relation.
pub(crate) fn rules_dropped(
    alloc: Global,
    target: Option<&RelInfo>,
    numbers: &List<u32>,
) -> Result<Option<Checked>, OutOfMemory>
    ensures built { IfOk result (λ tree. is_some tree ≡ is_some target.entry) }
    ensures tree { IfOk result (λ tree. (scope : Scope) (rel : Items ℕ) (q : AskedQuery) → named scope rel ≡ option_copied target.entry → IfSome tree (λ checked. checked ≡ tree_by scope q (statement.DropRules rel numbers.now))) }
{
    match target {
        Some(info) => {
            let (rel, numbers) = numbered(alloc, info, numbers)?;
            Ok(Some(Checked::Utility(Utility::DropRules { rel, numbers })))
        }
        None => Ok(None),
    }
}
