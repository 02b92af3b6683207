//! Copies of two parts, and copies on the heap: whoever makes a tree of them holds nothing where one is missing.

ghost use Rattle.std.specs.Prelude.{◌≡◌, Ok, IfOk};

use crate::OutOfMemory;
use memory::{Boxed, TryCopy, both};
use std::alloc::Global;

/// Copies of both.
pub fn copy_both<A: TryCopy + Drop, B: TryCopy + Drop>(
    alloc: Global,
    first: &A,
    second: &B,
) -> Result<(A, B), OutOfMemory>
    ensures first { IfOk result (λ pair. pair.0 ≡ first.now) }
    ensures second { IfOk result (λ pair. pair.1 ≡ second.now) }
{
    both(first.copy(alloc), second.copy(alloc))
}

/// The value, put on the heap, where there is one.
pub fn boxed<T: Drop>(alloc: Global, value: Result<T, OutOfMemory>) -> Result<Boxed<T>, OutOfMemory>
    ensures { IfOk result (λ boxed. value ≡ Ok boxed) }
{
    match value {
        Ok(value) => Boxed::new(alloc, value),
        Err(error) => Err(error),
    }
}

/// The two values, each put on the heap, where neither is missing.
pub fn boxed_both<T: Drop>(
    alloc: Global,
    left: Result<T, OutOfMemory>,
    right: Result<T, OutOfMemory>,
) -> Result<(Boxed<T>, Boxed<T>), OutOfMemory>
    ensures left { IfOk result (λ pair. left ≡ Ok pair.0) }
    ensures right { IfOk result (λ pair. right ≡ Ok pair.1) }
{
    both(boxed(alloc, left), boxed(alloc, right))
}
