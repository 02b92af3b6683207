ghost use Rattle.std.specs.Prelude.{◌≡◌, IfOk};

use crate::{Boxed, List, OutOfMemory, both};
use std::alloc::Global;

/// A type whose values can be copied where there is memory for it.
pub trait TryCopy {
    /// A value equal to this one.
    fn copy(&self, alloc: Global) -> Result<Self, OutOfMemory>
        ensures { IfOk result (λ copy. copy ≡ self.now) };
}

impl TryCopy for u8 {
    fn copy(&self, _alloc: Global) -> Result<u8, OutOfMemory> {
        Ok(*self)
    }
}

impl TryCopy for u32 {
    fn copy(&self, _alloc: Global) -> Result<u32, OutOfMemory> {
        Ok(*self)
    }
}

impl TryCopy for bool {
    fn copy(&self, _alloc: Global) -> Result<bool, OutOfMemory> {
        Ok(*self)
    }
}

impl<A: TryCopy + Drop, B: TryCopy + Drop> TryCopy for (A, B) {
    fn copy(&self, alloc: Global) -> Result<(A, B), OutOfMemory> {
        both(self.0.copy(alloc), self.1.copy(alloc))
    }
}

impl<T: TryCopy + Drop> TryCopy for Option<T> {
    fn copy(&self, alloc: Global) -> Result<Option<T>, OutOfMemory> {
        match self {
            Some(value) => Ok(Some(value.copy(alloc)?)),
            None => Ok(None),
        }
    }
}

impl<T: TryCopy + Drop> TryCopy for Boxed<T> {
    fn copy(&self, alloc: Global) -> Result<Boxed<T>, OutOfMemory> {
        Boxed::new(alloc, self.get().copy(alloc)?)
    }
}

/// Copies of the items, in order.
pub fn copies<T: TryCopy + Drop>(alloc: Global, items: &[T]) -> Result<Vec<T>, OutOfMemory>
    ensures { IfOk result (λ copies. copies.items ≡ items.now) }
{
    let mut copies = Vec::new(alloc);
    for item in items {
        copies.push(item.copy(alloc)?)?;
    }
    Ok(copies)
}

impl<T: TryCopy + Drop> TryCopy for List<T> {
    fn copy(&self, alloc: Global) -> Result<List<T>, OutOfMemory> {
        Ok(List::of(copies(alloc, self.items())?))
    }
}
