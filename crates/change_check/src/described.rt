//! Whether what is said of a relation, a view or an index stands: attributes, keys and structure.

ghost use Rattle.std.specs.Prelude.{◌≡◌, ◌≤◌, map, length, nat_eq, nat_le, nat_lt, sum_by, IfOk, ◌&&◌};
ghost use Rattle.std.specs.List.{list_all, list_any};
ghost use Rattle.calculus.specs.IsDatabase.{are_stored, attrs_stand, is_domain, is_kind, is_stored_kind, keys_stand, kind_bytes, valid_structure, valid_view_info};
ghost use Rattle.calculus.specs.Lists.{differ_by, is_any};
ghost use Rattle.calculus.specs.Name.{is_name};
ghost use Rattle.calculus.specs.declared.query.RelKey.{RelKey as Key};
ghost use Rattle.quel_meaning.specs.Causes.{repeats};

use calculus::limits::{MOST_ATTRIBUTES, MOST_KEYS, MOST_ROW_BYTES};
use calculus::{Attr, Domain, Kind, Name, OutOfMemory, RelInfo, Spec, is_name};
use quel_refusals::{kind_bytes, repeats};
use std::alloc::Global;

fn is_domain(domain: Domain) -> bool
    ensures { result ≡ is_domain domain }
{
    match domain {
        Domain::I1 => true,
        Domain::I2 => true,
        Domain::I4 => true,
        Domain::C(width) => width >= 1,
    }
}

/// Whether it is a domain, or whole numbers of 64 bits.
pub fn is_kind(kind: Kind) -> bool
    ensures { result ≡ is_kind kind }
{
    match kind {
        Kind::Wide => true,
        Kind::Of(domain) => is_domain(domain),
    }
}

fn is_stored_kind(kind: Kind) -> bool
    ensures { result ≡ is_stored_kind kind }
{
    match kind {
        Kind::Wide => false,
        Kind::Of(domain) => is_domain(domain),
    }
}

/// Whether the attributes have domains.
pub(crate) fn are_stored(attrs: &[Attr]) -> bool
    ensures { result ≡ are_stored attrs.now }
{
    for attr in attrs {
        if !is_stored_kind(attr.kind) {
            return false;
        }
    }
    true
}

fn are_named(attrs: &[Attr]) -> bool
    ensures { result ≡ list_all (λ a. is_name a.name) attrs.now }
{
    for attr in attrs {
        if !is_name(attr.name.bytes()) {
            return false;
        }
    }
    true
}

fn have_kinds(attrs: &[Attr]) -> bool
    ensures { result ≡ list_all (λ a. is_kind a.kind) attrs.now }
{
    for attr in attrs {
        if !is_kind(attr.kind) {
            return false;
        }
    }
    true
}

fn row_bytes(attrs: &[Attr]) -> u32
    requires { length attrs.now ≤ 49 }
    ensures { result ≡ sum_by (λ a. kind_bytes a.kind) attrs.now }
{
    let mut bytes = 0;
    for attr in attrs {
        bytes += kind_bytes(attr.kind);
    }
    bytes
}

fn names_of(alloc: Global, attrs: &[Attr]) -> Result<Vec<&Name>, OutOfMemory>
    ensures { IfOk result (λ names. map (λ n. n.now) names.items ≡ map (λ a. a.name) attrs.now) }
{
    let mut names: Vec<&Name> = Vec::new(alloc);
    for attr in attrs {
        names.push(&attr.name)?;
    }
    Ok(names)
}

fn names_repeat(alloc: Global, attrs: &[Attr]) -> Result<bool, OutOfMemory>
    ensures { IfOk result (λ found. found ≡ repeats (map (λ a. a.name) attrs.now)) }
{
    let names = names_of(alloc, attrs)?;
    repeats(alloc, &names)
}

fn is_any(attrs: &[Attr]) -> bool
    ensures { result ≡ is_any attrs.now }
{
    !attrs.is_empty()
}

fn are_few(attrs: &[Attr]) -> bool
    ensures { result ≡ nat_le (length attrs.now) 49 }
{
    attrs.len() <= MOST_ATTRIBUTES
}

fn is_narrow(attrs: &[Attr]) -> bool
    requires { length attrs.now ≤ 49 }
    ensures { result ≡ nat_le (sum_by (λ a. kind_bytes a.kind) attrs.now) 1000 }
{
    row_bytes(attrs) <= MOST_ROW_BYTES
}

/// Whether there is at least one attribute and at most the limit, of kinds with names that differ,
/// together no wider than a row may be.
pub fn attrs_stand(alloc: Global, attrs: &[Attr]) -> Result<bool, OutOfMemory>
    ensures { IfOk result (λ stand. stand ≡ attrs_stand attrs.now) }
{
    if !is_any(attrs) {
        return Ok(false);
    }
    if !are_few(attrs) {
        return Ok(false);
    }
    if !are_named(attrs) {
        return Ok(false);
    }
    if names_repeat(alloc, attrs)? {
        return Ok(false);
    }
    Ok(have_kinds(attrs) && is_narrow(attrs))
}

fn is_among(key: u8, keys: &[u8]) -> bool
    ensures { result ≡ list_any (nat_eq key) keys.now }
{
    keys.iter().any(|other| key == *other)
}

/// Whether no two of these few places are the same.
pub fn places_differ(keys: &[u8]) -> bool
    ensures { result ≡ differ_by nat_eq keys.now }
{
    let Some((key, others)) = keys.split_first() else {
        return true;
    };
    !is_among(*key, others) && places_differ(others)
}

fn are_places(attrs: &[Attr], keys: &[u8]) -> bool
    ensures { result ≡ list_all (λ k. nat_lt k (length attrs.now)) keys.now }
{
    let most = attrs.len();
    keys.iter().all(|key| (*key as usize) < most)
}

/// Whether these are places of attributes, all different, and no more than there may be.
pub fn keys_stand(attrs: &[Attr], keys: &[u8]) -> bool
    ensures { result ≡ keys_stand attrs.now keys.now }
{
    if keys.len() > MOST_KEYS {
        return false;
    }
    are_places(attrs, keys) && places_differ(keys)
}

/// Whether there is at least one key, and they are places of attributes, as they stand.
pub fn some_keys_stand(attrs: &[Attr], keys: &[u8]) -> bool
    ensures { result ≡ (is_any keys.now && keys_stand attrs.now keys.now) }
{
    !keys.is_empty() && keys_stand(attrs, keys)
}

/// Whether a relation with these attributes may be stored so: a heap without keys, or a hash or an
/// ISAM structure with at least one.
pub(crate) fn valid_structure(to: Spec, attrs: &[Attr], keys: &[u8]) -> bool
    ensures { (key : Key) → result ≡ valid_structure (record { key = key; spec = to; attrs = attrs.now; keys = keys.now }) }
{
    match to {
        Spec::Heap => keys.is_empty(),
        Spec::Hash => some_keys_stand(attrs, keys),
        Spec::Isam => some_keys_stand(attrs, keys),
        Spec::View => false,
        Spec::Index => false,
    }
}

/// Whether it is kept as a view, which has no keys.
pub(crate) fn valid_view_info(info: &RelInfo) -> bool
    ensures { result ≡ valid_view_info info.now }
{
    match info.spec {
        Spec::Heap => false,
        Spec::Hash => false,
        Spec::Isam => false,
        Spec::View => info.keys.items().is_empty(),
        Spec::Index => false,
    }
}
