//! The tree of a statement.

ghost use Rattle.std.specs.Prelude.{◌≡◌, ◌≤◌, ℕ, List as Items, [], ◌∷◌, None, Some, true, is_some, length, map, option_copied, IfOk, IfSome};
ghost use Rattle.calculus.specs.declared.request.Checked.TheVariants.{Answer, Update, Utility as ForUtilities};
ghost use Rattle.calculus.specs.declared.request.Utility.TheVariants as utility;
ghost use Rattle.calculus.specs.declared.statement.Item.{Item as WrittenItem};
ghost use Rattle.calculus.specs.declared.statement.Qual.{Qual as WrittenQual};
ghost use Rattle.calculus.specs.declared.statement.Statement.TheVariants as statement;
ghost use Rattle.calculus.specs.Keys.{key_of};
ghost use Rattle.calculus.specs.QueryParts.{targets_of};
ghost use Rattle.calculus.specs.Stored.{attrs_in};
ghost use Rattle.quel_meaning.specs.Resolved.{sort_key, stored_attr, tree_by};
ghost use Rattle.quel_meaning.specs.Scope.{Scope, named, ranged};
ghost use Rattle.quel_meaning.specs.StatementUpdate.{append_of, delete_of, replace_of};
ghost use Rattle.quel_resolve.specs.Changed.{Suits, changed, is_built, restricts};

use crate::known::key_of;
use crate::pairs::beside;
use crate::sorting::sort_keys;
use crate::stored::{permits_dropped, permitted, ruled, rules_dropped, viewed};
use crate::updates::{append_of, delete_of, into_of, replace_of};
use calculus::{
    Asked, Attr, Checked, Domain, Kind, List, Name, OutOfMemory, Query, RelInfo, Statement, Utility,
};
use memory::{alone, both, push};
use std::alloc::Global;

/// The tree of a `retrieve` that prints, for a query of at most 256 targets.
fn printed(alloc: Global, q: Query, sort: &[(Name, bool)]) -> Result<Option<Checked>, OutOfMemory>
    ensures built { IfOk result (λ tree. is_some tree ≡ true) }
    ensures tree { IfOk result (λ tree. length (targets_of q) ≤ 256 → tree ≡ Some (Answer (record { query = q; sort = map (sort_key (targets_of q)) sort.now } ∷ []))) }
{
    let keys = sort_keys(alloc, q.targets.items(), sort);
    let (keys, query) = beside(keys, q)?;
    let sort = List::of(keys);
    let asked = alone(alloc, Asked { query, sort })?;
    Ok(Some(Checked::Answer(List::of(asked))))
}

/// The attribute of this name with its domain.
fn stored_attr(alloc: Global, name: &Name, domain: Domain) -> Result<Attr, OutOfMemory>
    ensures { IfOk result (λ attr. attr ≡ stored_attr (name.now, domain)) }
{
    let name = name.copy(alloc)?;
    let kind = Kind::Of(domain);
    Ok(Attr { name, kind })
}

/// The attributes with their domains.
fn stored_attrs(alloc: Global, attrs: &[(Name, Domain)]) -> Result<Vec<Attr>, OutOfMemory>
    ensures { IfOk result (λ stored. stored.items ≡ map stored_attr attrs.now) }
{
    let mut stored = Vec::new(alloc);
    for (name, domain) in attrs {
        let attr = stored_attr(alloc, name, *domain)?;
        push(&mut stored, attr)?;
    }
    Ok(stored)
}

/// The tree of a `create`.
fn created(
    alloc: Global,
    user: &Name,
    rel: &Name,
    attrs: &[(Name, Domain)],
) -> Result<Option<Checked>, OutOfMemory>
    ensures { IfOk result (λ tree. tree ≡ Some (ForUtilities (utility.Create (key_of user.now rel.now) (map stored_attr attrs.now)))) }
{
    let key = key_of(alloc, user, rel);
    let (rel, attrs) = both(key, stored_attrs(alloc, attrs))?;
    let attrs = List::of(attrs);
    Ok(Some(Checked::Utility(Utility::Create { rel, attrs })))
}

/// The tree of a `retrieve`, for a query of at most 256 targets.
fn retrieved(
    alloc: Global,
    user: &Name,
    into: &Option<Name>,
    sort: &[(Name, bool)],
    q: Query,
) -> Result<Option<Checked>, OutOfMemory>
    ensures built { IfOk result (λ tree. is_some tree ≡ true) }
    ensures tree { IfOk result (λ tree. (scope : Scope) (items : Items WrittenItem) (qual : WrittenQual) → scope.user ≡ user.now → length (targets_of q) ≤ 256 → tree ≡ Some (tree_by scope q (statement.Retrieve into.now items qual sort.now))) }
{
    match into {
        None => printed(alloc, q, sort),
        Some(name) => Ok(Some(Checked::Update(into_of(alloc, user, name, q)?))),
    }
}

/// No tree for a query.
fn no_tree(q: Query) -> Result<Option<Checked>, OutOfMemory>
    ensures { IfOk result (λ tree. tree ≡ None) }
{
    drop(q);
    Ok(None)
}

/// The tree of an `append`; `None` where what it changes isn't there.
fn appended(
    alloc: Global,
    target: Option<&RelInfo>,
    q: Query,
) -> Result<Option<Checked>, OutOfMemory>
    ensures built { IfOk result (λ tree. is_some tree ≡ is_some target.entry) }
    ensures tree { IfOk result (λ tree. (scope : Scope) (rel : Items ℕ) → named scope rel ≡ option_copied target.entry → length (attrs_in (option_copied target.entry)) ≤ 256 → IfSome tree (λ checked. checked ≡ Update (append_of scope rel q))) }
{
    match target {
        Some(info) => Ok(Some(Checked::Update(append_of(alloc, info, q)?))),
        None => no_tree(q),
    }
}

/// The tree of a `replace`; `None` where what it changes isn't there.
fn replaced(
    alloc: Global,
    target: Option<&RelInfo>,
    q: Query,
) -> Result<Option<Checked>, OutOfMemory>
    ensures built { IfOk result (λ tree. is_some tree ≡ is_some target.entry) }
    ensures tree { IfOk result (λ tree. (scope : Scope) (var : Items ℕ) → ranged scope var ≡ option_copied target.entry → length (attrs_in (option_copied target.entry)) ≤ 256 → IfSome tree (λ checked. checked ≡ Update (replace_of scope var q))) }
{
    match target {
        Some(info) => Ok(Some(Checked::Update(replace_of(alloc, info, q)?))),
        None => no_tree(q),
    }
}

/// The tree of a `delete`; `None` where what it changes isn't there.
fn deleted(
    alloc: Global,
    target: Option<&RelInfo>,
    q: Query,
) -> Result<Option<Checked>, OutOfMemory>
    ensures built { IfOk result (λ tree. is_some tree ≡ is_some target.entry) }
    ensures tree { IfOk result (λ tree. (scope : Scope) (var : Items ℕ) → ranged scope var ≡ option_copied target.entry → length (attrs_in (option_copied target.entry)) ≤ 256 → IfSome tree (λ checked. checked ≡ Update (delete_of scope var q))) }
{
    match target {
        Some(info) => Ok(Some(Checked::Update(delete_of(alloc, info, q)?))),
        None => no_tree(q),
    }
}

/// The tree of a statement that defines or drops permits or rules, where `target` is known of their
/// relation, and has at most 256 attributes; `None` where it isn't there, and of all other statements.
fn restricted(
    alloc: Global,
    s: &Statement,
    q: &Query,
    target: Option<&RelInfo>,
) -> Result<Option<Checked>, OutOfMemory>
    ensures built { IfOk result (λ tree. is_some tree ≡ restricts s.now (option_copied target.entry)) }
    ensures tree { IfOk result (λ tree. (scope : Scope) → changed scope s.now ≡ option_copied target.entry → length (attrs_in (option_copied target.entry)) ≤ 256 → IfSome tree (λ checked. checked ≡ tree_by scope q.now s.now)) }
{
    match s {
        Statement::Permit {
            ops,
            attrs,
            user,
            ..
        } => permitted(alloc, target, *ops, attrs.items(), user, q),
        Statement::Rule { .. } => ruled(alloc, target, q),
        Statement::DropPermits { numbers, .. } => permits_dropped(alloc, target, numbers),
        Statement::DropRules { numbers, .. } => rules_dropped(alloc, target, numbers),
        _ => Ok(None),
    }
}

/// The tree of a user's statement whose query is this, where `target` is what the statement changes,
/// and the query has at most 256 targets and `target` as many attributes: of a `retrieve`, of a
/// `create`, of a view, and of an `append`, a `replace` or a `delete`, of permits and of rules that are
/// defined or go, whose `target` is there. `None` of all others, which have no trees yet.
pub fn tree_by(
    alloc: Global,
    user: &Name,
    s: &Statement,
    q: Query,
    target: Option<&RelInfo>,
) -> Result<Option<Checked>, OutOfMemory>
    ensures built { IfOk result (λ tree. is_some tree ≡ is_built s.now (option_copied target.entry)) }
    ensures tree { IfOk result (λ tree. (scope : Scope) → Suits scope user.now s.now q (option_copied target.entry) → IfSome tree (λ checked. checked ≡ tree_by scope q s.now)) }
{
    match s {
        Statement::Retrieve { into, sort, .. } => { retrieved(alloc, user, into, sort.items(), q) }
        Statement::Create { rel, attrs } => {
            drop(q);
            created(alloc, user, rel, attrs.items())
        }
        Statement::Append { .. } => appended(alloc, target, q),
        Statement::Replace { .. } => replaced(alloc, target, q),
        Statement::Delete { .. } => deleted(alloc, target, q),
        Statement::View { name, .. } => viewed(alloc, user, name, q),
        _ => {
            let tree = restricted(alloc, s, &q, target);
            drop(q);
            tree
        }
    }
}
