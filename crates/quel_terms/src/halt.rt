//! Why nothing more was read.

ghost use Rattle.std.specs.Prelude.{◌≡◌, Ok, IfOk};
ghost use Rattle.quel_terms.specs.declared.halt.Halt.TheVariants.{Memory};
ghost use Rattle.quel_terms.specs.View.{Gives};

use calculus::OutOfMemory;
use quel_grammar::Token;
use std::alloc::{AllocError, AllocFailed};

/// Why nothing more was read.
pub enum Halt<'a> {
    /// No memory was left.
    Memory,
    /// The first of these tokens can't stand there; or there are none, and one is wanted.
    Stop(&'a [Token]),
}

/// What was read and the tokens behind it, or why nothing was.
pub type Read<'a, T> = Result<(T, &'a [Token]), Halt<'a>>;

impl<'a> From<OutOfMemory> for Halt<'a> {
    ghost from_gives = { λ _ e. e ≡ Memory };

    fn from(_error: OutOfMemory) -> Halt<'a> {
        Halt::Memory
    }
}

impl<'a> From<AllocError> for Halt<'a> {
    ghost from_gives = { λ _ e. e ≡ Memory };

    fn from(_error: AllocError) -> Halt<'a> {
        Halt::Memory
    }
}

impl<'a, T: Drop> From<AllocFailed<T>> for Halt<'a> {
    ghost from_gives = { λ _ e. e ≡ Memory };

    fn from(_error: AllocFailed<T>) -> Halt<'a> {
        Halt::Memory
    }
}

/// What was made, with the tokens behind it.
pub fn made<'a, T: Drop>(value: Result<T, OutOfMemory>, rest: &'a [Token]) -> Read<'a, T>
    ensures { (v : T) → IfOk value (λ w. w ≡ v) → Gives (λ x. (x.0, x.1.now)) result (Ok (v, rest.now)) }
{
    match value {
        Ok(value) => Ok((value, rest)),
        Err(OutOfMemory) => Err(Halt::Memory),
    }
}
