//! Statements that were read.

ghost use Rattle.std.specs.Prelude.{Ok};
ghost use Rattle.quel_terms.specs.View.{Gives};

use calculus::{Boxed, OutOfMemory, Statement};
use quel_grammar::Token;
use quel_terms::{Halt, Read};
use std::alloc::Global;

/// A statement that was read, and the tokens behind it.
pub fn boxed<'a>(
    alloc: Global,
    statement: Statement,
    rest: &'a [Token],
) -> Read<'a, Boxed<Statement>>
    ensures { Gives (λ x. (x.0, x.1.now)) result (Ok (statement, rest.now)) }
{
    match Boxed::new(alloc, statement) {
        Ok(statement) => Ok((statement, rest)),
        Err(OutOfMemory) => Err(Halt::Memory),
    }
}
