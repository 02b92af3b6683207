//! Keys and their order, and what lies in the order of its keys.

ghost use Rattle.std.specs.Prelude.{◌≡◌, ◌<◌, ◌≤◌, Some, None, find, length, slice_set, slice_index_or, IfOk, IfErr};
ghost use Rattle.std.specs.List.{insert};
ghost use Rattle.std.specs.List.Sorted.{IsStrictlySortedBy};
ghost use Rattle.calculus.specs.Keys.{same_key, key_cmp};
ghost use Rattle.calculus.specs.Lists.{insert_by};
ghost use Rattle.calculus.specs.declared.query.RelKey.{RelKey as Key};

use calculus::RelKey;
use std::cmp::Ordering;

/// What has a key.
pub(crate) trait Keyed {
    /// The key.
    ghost key: { Self → Key };

    /// The key.
    fn key(&self) -> &RelKey
        ensures { result.now ≡ key self.now };
}

impl Keyed for RelKey {
    ghost key = { λ k. k };

    fn key(&self) -> &RelKey {
        self
    }
}

/// The order of two keys: by owner, then by name.
pub(crate) fn key_order(left: &RelKey, right: &RelKey) -> Ordering
    ensures { result ≡ key_cmp left.now right.now }
{
    left.owner
        .bytes()
        .cmp(right.owner.bytes())
        .then(left.name.bytes().cmp(right.name.bytes()))
}

/// Whether the two keys have one owner and one name.
pub(crate) fn is_same(left: &RelKey, right: &RelKey) -> bool
    ensures { result ≡ same_key left.now right.now }
{
    left.owner.bytes() == right.owner.bytes() && left.name.bytes() == right.name.bytes()
}

/// Where what has the key is among items whose keys ascend, or else where it belongs. A binary search.
pub(crate) fn place_of<T: Keyed>(items: &[T], key: &RelKey) -> Result<usize, usize>
    requires { IsStrictlySortedBy (λ a b. key_cmp (T.key a) (T.key b)) items.now }
    ensures at { IfOk result (λ i. i < length items.now) }
    ensures up_to { IfErr result (λ i. i ≤ length items.now) }
    ensures there { IfOk result (λ i. (d : T) → find (λ t. same_key (T.key t) key.now) items.now ≡ Some (slice_index_or items.now i d)) }
    ensures absent { IfErr result (λ i. find (λ t. same_key (T.key t) key.now) items.now ≡ None) }
    ensures put_at { IfOk result (λ i. (x : T) → T.key x ≡ key.now → insert_by (λ a b. key_cmp (T.key a) (T.key b)) x items.now ≡ slice_set items.now i x) }
    ensures put_before { IfErr result (λ i. (x : T) → T.key x ≡ key.now → insert_by (λ a b. key_cmp (T.key a) (T.key b)) x items.now ≡ insert items.now i x) }
{
    match items.binary_search_by(|item| key_order(item.key(), key)) {
        Ok(at) => Ok(at),
        Err(at) => Err(at),
    }
}
