//! Lists in order, into which items are put at their places.

ghost use Rattle.std.specs.Prelude.{◌≡◌, ◌<◌, ◌≤◌, length, slice_set, IfOk, IfErr, OnOk, OnErr};
ghost use Rattle.std.specs.List.{insert};
ghost use Rattle.std.specs.declared.cmp.Ordering.{Ordering as Order};
ghost use Rattle.calculus.specs.Keys.{key_cmp, numbered_cmp};
ghost use Rattle.calculus.specs.Lists.{insert_by};

use crate::under_keys::{Indexed, Stored, Viewed};
use calculus::{OutOfMemory, Permit, RelKey, Rule};
use std::cmp::Ordering;

/// What has a place in a list in order.
pub(crate) trait Placed {
    /// The order.
    ghost order: { Self → Self → Order };

    /// The order of the two.
    fn order(&self, other: &Self) -> Ordering
        ensures { result ≡ order self.now other.now };
}

/// The order of two keys: by owner, then by name.
pub(crate) fn key_order(left: &RelKey, right: &RelKey) -> Ordering
    ensures { result ≡ key_cmp left.now right.now }
{
    left.owner
        .bytes()
        .cmp(right.owner.bytes())
        .then(left.name.bytes().cmp(right.name.bytes()))
}

impl Placed for Stored {
    ghost order = { λ a b. key_cmp a.info.key b.info.key };

    fn order(&self, other: &Stored) -> Ordering {
        key_order(&self.info.key, &other.info.key)
    }
}

impl Placed for Indexed {
    ghost order = { λ a b. key_cmp a.info.key b.info.key };

    fn order(&self, other: &Indexed) -> Ordering {
        key_order(&self.info.key, &other.info.key)
    }
}

impl Placed for Viewed {
    ghost order = { λ a b. key_cmp a.info.key b.info.key };

    fn order(&self, other: &Viewed) -> Ordering {
        key_order(&self.info.key, &other.info.key)
    }
}

impl Placed for (RelKey, Rule) {
    ghost order = { numbered_cmp (λ r. r.number) };

    fn order(&self, other: &(RelKey, Rule)) -> Ordering {
        key_order(&self.0, &other.0).then(self.1.number.cmp(&other.1.number))
    }
}

impl Placed for (RelKey, Permit) {
    ghost order = { numbered_cmp (λ p. p.number) };

    fn order(&self, other: &(RelKey, Permit)) -> Ordering {
        key_order(&self.0, &other.0).then(self.1.number.cmp(&other.1.number))
    }
}

/// Where an item is that is equal to this one and before which all are smaller, or else where this
/// one belongs.
fn place_among<T: Placed>(items: &[T], item: &T) -> Result<usize, usize>
    ensures within { IfOk result (λ i. i < length items.now) }
    ensures at { IfOk result (λ i. insert_by T.order item.now items.now ≡ slice_set items.now i item.now) }
    ensures up_to { IfErr result (λ i. i ≤ length items.now) }
    ensures before { IfErr result (λ i. insert_by T.order item.now items.now ≡ insert items.now i item.now) }
{
    for (i, other) in items.iter().enumerate() {
        match item.order(other) {
            Ordering::Less => return Err(i),
            Ordering::Equal => return Ok(i),
            Ordering::Greater => {}
        }
    }
    Err(items.len())
}

/// Puts an item at its place; one that is equal to it gives way. After an error all is as before.
pub(crate) fn put_in_order<T: Placed + Drop>(items: &mut Vec<T>, item: T) -> Result<(), OutOfMemory>
    ensures ok { OnOk result (items.new.items ≡ insert_by T.order item items.old.items) }
    ensures err { OnErr result (items.new.items ≡ items.old.items) }
{
    match place_among(items, &item) {
        Ok(place) => {
            items[place] = item;
            Ok(())
        }
        Err(place) => {
            items.insert(place, item)?;
            Ok(())
        }
    }
}
