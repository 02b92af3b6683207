//! Parts of the trees that are made: whoever makes a tree of them holds nothing where one is missing.

ghost use Rattle.std.specs.Prelude.{◌≡◌, Ok, IfOk};
ghost use Rattle.view_text.specs.Replaced.{without_value};

use calculus::{ArithOp, Boxed, OutOfMemory, QTerm};
use memory::both;
use std::alloc::Global;

/// The value, put on the heap, where there is one.
pub(crate) fn boxed<T: Drop>(
    alloc: Global,
    value: Result<T, OutOfMemory>,
) -> Result<Boxed<T>, OutOfMemory>
    ensures { IfOk result (λ boxed. value ≡ Ok boxed) }
{
    match value {
        Ok(value) => Boxed::new(alloc, value),
        Err(error) => Err(error),
    }
}

/// The two values, each put on the heap, where neither is missing.
pub(crate) fn boxed_both<T: Drop>(
    alloc: Global,
    left: Result<T, OutOfMemory>,
    right: Result<T, OutOfMemory>,
) -> Result<(Boxed<T>, Boxed<T>), OutOfMemory>
    ensures left { IfOk result (λ pair. left ≡ Ok pair.0) }
    ensures right { IfOk result (λ pair. right ≡ Ok pair.1) }
{
    both(boxed(alloc, left), boxed(alloc, right))
}

/// A term that has no value.
#[tactic(auto, using(crate::proofs::ReplacedForms::quotient_of_nothing))]
pub(crate) fn without_value(alloc: Global) -> Result<QTerm, OutOfMemory>
    ensures { IfOk result (λ t. t ≡ without_value) }
{
    let one = Ok(QTerm::Int(1));
    match boxed_both(alloc, one, Ok(QTerm::Int(0))) {
        Ok((left, right)) => Ok(QTerm::Arith {
            op: ArithOp::Div,
            left,
            right,
        }),
        Err(error) => Err(error),
    }
}
