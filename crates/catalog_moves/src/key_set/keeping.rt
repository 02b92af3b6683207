//! Keys are put into a set and found there.

ghost use Rattle.std.specs.Prelude.{◌≡◌, ◌&&◌, ◌||◌, false, filter, not, OnOk, OnErr};
ghost use Rattle.std.specs.List.Sorted.{IsStrictlySortedBy};
ghost use Rattle.calculus.specs.Keys.{same_key, key_cmp};
ghost use Rattle.calculus.specs.Lists.{insert_by};
ghost use Rattle.calculus.specs.declared.query.RelKey.{RelKey as Key};
ghost use Rattle.catalog_moves.specs.Files.{is_in};

use super::KeySet;
use crate::keys::{is_same, place_of};
use calculus::{OutOfMemory, RelKey, TryCopy};
use std::alloc::Global;

/// Puts a key among others, where it isn't among them. After want of memory nothing is changed.
fn put_key(keys: &mut Vec<RelKey>, key: RelKey) -> Result<(), OutOfMemory>
    requires { IsStrictlySortedBy key_cmp keys.old.items }
    ensures put { OnOk result (keys.new.items ≡ insert_by key_cmp key keys.old.items) }
    ensures same { OnErr result (keys.new.items ≡ keys.old.items) }
{
    match place_of(keys, &key) {
        Ok(at) => {
            keys[at] = key;
            Ok(())
        }
        Err(at) => {
            keys.insert(at, key)?;
            Ok(())
        }
    }
}

/// Takes a key out of others.
fn leave_key(keys: &mut Vec<RelKey>, key: &RelKey)
    ensures { keys.new.items ≡ filter (λ k. not (same_key k key.now)) keys.old.items }
{
    keys.retain(|other| !is_same(other, key));
}

impl KeySet {
    /// The set without a key.
    pub fn new(alloc: Global) -> KeySet
        ensures { (key : Key) → is_in result key ≡ false }
    {
        KeySet {
            keys: Vec::new(alloc),
        }
    }

    /// Whether the key is one of these. A binary search.
    pub fn has(&self, key: &RelKey) -> bool
        ensures { result ≡ is_in self.now key.now }
    {
        match place_of(&self.keys, key) {
            Ok(_) => true,
            Err(_) => false,
        }
    }

    /// Puts a key in. After want of memory nothing is changed.
    pub fn insert(&mut self, alloc: Global, key: &RelKey) -> Result<(), OutOfMemory>
        ensures put { (other : Key) → OnOk result (is_in self.new other ≡ (same_key key.now other || is_in self.old other)) }
        ensures same { (other : Key) → OnErr result (is_in self.new other ≡ is_in self.old other) }
    {
        let copy = key.copy(alloc)?;
        match put_key(&mut self.keys, copy) {
            Ok(()) => Ok(()),
            Err(error) => Err(error),
        }
    }

    /// Takes a key out.
    pub fn remove(&mut self, key: &RelKey)
        ensures { (other : Key) → is_in self.new other ≡ (not (same_key key.now other) && is_in self.old other) }
    {
        leave_key(&mut self.keys, key);
    }
}
