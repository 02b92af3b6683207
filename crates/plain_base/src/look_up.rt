//! What stands under a key in lists.

ghost use Rattle.std.specs.Prelude.{◌≡◌, [], ◌∷◌, ◌++◌, not, ◌&&◌, cond, find, filter, map, option_map, IfOk, OnOk};
ghost use Rattle.std.specs.List.{list_any};
ghost use Rattle.std.specs.List.Sorted.{IsStrictlySortedBy};
ghost use Rattle.calculus.specs.Keys.{same_key, has_key, key_cmp};
ghost use Rattle.calculus.specs.QueryParts.{vars_of};

use crate::ordered::key_order;
use crate::under_keys::{Indexed, Known, Viewed};
use calculus::{OutOfMemory, RelInfo, RelKey, TryCopy};
use std::alloc::Global;

/// Whether the two keys have one owner and one name.
pub(crate) fn is_same(left: &RelKey, right: &RelKey) -> bool
    ensures { result ≡ same_key left.now right.now }
{
    left.owner.bytes() == right.owner.bytes() && left.name.bytes() == right.name.bytes()
}

/// Whether the key is one of these.
pub(crate) fn is_among(keys: &[RelKey], key: &RelKey) -> bool
    ensures { result ≡ has_key keys.now key.now }
{
    keys.iter().any(|other| is_same(key, other))
}

/// What stands under the key, where keys ascend. A binary search.
pub(crate) fn under<'a, T: Known>(items: &'a [T], key: &RelKey) -> Option<&'a T>
    requires { IsStrictlySortedBy key_cmp (map (λ t. (T.known t).key) items.now) }
    ensures { option_map (λ t. t.now) result ≡ find (λ t. same_key (T.known t).key key.now) items.now }
{
    match items.binary_search_by(|item| key_order(&item.info().key, key)) {
        Ok(place) => Some(&items[place]),
        Err(_) => None,
    }
}

/// What is known of what stands under the key, where keys ascend. A binary search.
pub(crate) fn about<'a, T: Known>(items: &'a [T], key: &RelKey) -> Option<&'a RelInfo>
    requires { IsStrictlySortedBy key_cmp (map (λ t. (T.known t).key) items.now) }
    ensures { option_map (λ i. i.now) result ≡ find (λ i. same_key i.key key.now) (map (λ t. T.known t) items.now) }
{
    match under(items, key) {
        Some(item) => Some(item.info()),
        None => None,
    }
}

/// Puts a copy of a rule or permit behind others, where it is one of the relation.
fn push_on<T: TryCopy + Drop>(
    alloc: Global,
    copies: &mut Vec<T>,
    item: &(RelKey, T),
    key: &RelKey,
) -> Result<(), OutOfMemory>
    ensures { OnOk result (copies.new.items ≡ copies.old.items ++ cond (same_key item.now.0 key.now) (item.now.1 ∷ []) []) }
{
    if is_same(&item.0, key) {
        let copy = item.1.copy(alloc)?;
        copies.push(copy)?;
    }
    Ok(())
}

/// Puts copies of the rules or permits of a relation behind others.
fn push_all_on<T: TryCopy + Drop>(
    alloc: Global,
    copies: &mut Vec<T>,
    items: &[(RelKey, T)],
    key: &RelKey,
) -> Result<(), OutOfMemory>
    ensures { OnOk result (copies.new.items ≡ copies.old.items ++ map (λ p. p.1) (filter (λ p. same_key p.0 key.now) items.now)) }
{
    for item in items {
        push_on(alloc, copies, item, key)?;
    }
    Ok(())
}

/// Copies of the rules or permits of a relation.
pub(crate) fn on<T: TryCopy + Drop>(
    alloc: Global,
    items: &[(RelKey, T)],
    key: &RelKey,
) -> Result<Vec<T>, OutOfMemory>
    ensures { IfOk result (λ copies. copies.items ≡ map (λ p. p.1) (filter (λ p. same_key p.0 key.now) items.now)) }
{
    let mut copies = Vec::new(alloc);
    push_all_on(alloc, &mut copies, items, key)?;
    Ok(copies)
}

/// Puts a copy of the key of an index behind others, where it is one on the relation.
fn push_index_key(
    alloc: Global,
    keys: &mut Vec<RelKey>,
    index: &Indexed,
    rel: &RelKey,
) -> Result<(), OutOfMemory>
    ensures { OnOk result (keys.new.items ≡ keys.old.items ++ cond (same_key index.now.base rel.now) (index.now.info.key ∷ []) []) }
{
    if is_same(&index.base, rel) {
        let key = index.info.key.copy(alloc)?;
        keys.push(key)?;
    }
    Ok(())
}

/// Puts copies of the keys of the indexes on a relation behind others.
fn push_index_keys(
    alloc: Global,
    keys: &mut Vec<RelKey>,
    indexes: &[Indexed],
    rel: &RelKey,
) -> Result<(), OutOfMemory>
    ensures { OnOk result (keys.new.items ≡ keys.old.items ++ map (λ x. x.info.key) (filter (λ x. same_key x.base rel.now) indexes.now)) }
{
    for index in indexes {
        push_index_key(alloc, keys, index, rel)?;
    }
    Ok(())
}

/// Copies of the keys of the indexes on a relation.
pub(crate) fn index_keys(
    alloc: Global,
    indexes: &[Indexed],
    rel: &RelKey,
) -> Result<Vec<RelKey>, OutOfMemory>
    ensures { IfOk result (λ keys. keys.items ≡ map (λ x. x.info.key) (filter (λ x. same_key x.base rel.now) indexes.now)) }
{
    let mut keys = Vec::new(alloc);
    push_index_keys(alloc, &mut keys, indexes, rel)?;
    Ok(keys)
}

/// Whether the view is none of these, and names what stands under the key.
fn names(view: &Viewed, but: &[RelKey], key: &RelKey) -> bool
    ensures { result ≡ (not (has_key but.now view.now.info.key) && has_key (vars_of view.now.query) key.now) }
{
    !is_among(but, &view.info.key) && is_among(view.query.vars.items(), key)
}

/// Whether some view that is none of these names what stands under the key.
pub(crate) fn some_view_names(views: &[Viewed], but: &[RelKey], key: &RelKey) -> bool
    ensures { result ≡ list_any (λ v. not (has_key but.now v.info.key) && has_key (vars_of v.query) key.now) views.now }
{
    views.iter().any(|view| names(view, but, key))
}
