//! What leaves lists.

ghost use Rattle.std.specs.Prelude.{◌≡◌, ℕ, not, ◌&&◌, ◌||◌, filter};
ghost use Rattle.calculus.specs.Change.{without_keys, without_numbers};
ghost use Rattle.calculus.specs.Keys.{same_key, has_key};
ghost use Rattle.calculus.specs.Lists.{has_number};

use crate::look_up::{is_among, is_same};
use crate::under_keys::{Indexed, Known};
use calculus::{Permit, RelKey, Rule};

/// What has a number among those of its relation.
pub(crate) trait Numbered {
    /// The number.
    ghost number: { Self → ℕ };

    /// The number.
    fn number(&self) -> u32
        ensures { result ≡ number self.now };
}

impl Numbered for Rule {
    ghost number = { λ r. r.number };

    fn number(&self) -> u32 {
        self.number
    }
}

impl Numbered for Permit {
    ghost number = { λ p. p.number };

    fn number(&self) -> u32 {
        self.number
    }
}

/// What stands under these keys leaves.
pub(crate) fn leave<T: Known + Drop>(items: &mut Vec<T>, keys: &[RelKey])
    ensures { items.new.items ≡ filter (λ t. not (has_key keys.now (T.known t).key)) items.old.items }
{
    items.retain(|item| !is_among(keys, &item.info().key));
}

/// Whether the index, or the relation below it, has one of these keys.
fn is_of(index: &Indexed, keys: &[RelKey]) -> bool
    ensures { result ≡ (has_key keys.now index.now.info.key || has_key keys.now index.now.base) }
{
    is_among(keys, &index.info.key) || is_among(keys, &index.base)
}

/// Indexes under these keys, and those of relations under them, leave.
pub(crate) fn leave_with_base(indexes: &mut Vec<Indexed>, keys: &[RelKey])
    ensures { indexes.new.items ≡ filter (λ x. not (has_key keys.now x.info.key || has_key keys.now x.base)) indexes.old.items }
{
    indexes.retain(|index| !is_of(index, keys));
}

/// Whether the index is one of this relation.
fn is_on(index: &Indexed, rel: &RelKey) -> bool
    ensures { result ≡ same_key index.now.base rel.now }
{
    is_same(&index.base, rel)
}

/// The indexes of a relation leave.
pub(crate) fn leave_base(indexes: &mut Vec<Indexed>, rel: &RelKey)
    ensures { indexes.new.items ≡ filter (λ x. not (same_key x.base rel.now)) indexes.old.items }
{
    indexes.retain(|index| !is_on(index, rel));
}

/// The rules or permits of these relations leave.
pub(crate) fn leave_keys<T: Drop>(items: &mut Vec<(RelKey, T)>, keys: &[RelKey])
    ensures { items.new.items ≡ without_keys keys.now items.old.items }
{
    items.retain(|item| !is_among(keys, &item.0));
}

fn has_number(numbers: &[u32], number: u32) -> bool
    ensures { result ≡ has_number numbers.now number }
{
    numbers.iter().any(|other| *other == number)
}

/// Whether this is the rule or permit of the relation with one of these numbers.
fn is_numbered<T: Numbered>(item: &(RelKey, T), rel: &RelKey, numbers: &[u32]) -> bool
    ensures { result ≡ (same_key item.now.0 rel.now && has_number numbers.now (T.number item.now.1)) }
{
    is_same(&item.0, rel) && has_number(numbers, item.1.number())
}

/// The rules or permits of the relation with these numbers leave.
pub(crate) fn leave_numbers<T: Numbered + Drop>(
    items: &mut Vec<(RelKey, T)>,
    rel: &RelKey,
    numbers: &[u32],
)
    ensures { items.new.items ≡ without_numbers T.number rel.now numbers.now items.old.items }
{
    items.retain(|item| !is_numbered(item, rel, numbers));
}
