//! The parts of a permit.

ghost use Rattle.std.specs.Prelude.{◌≡◌};
ghost use Rattle.quel_grammar.specs.PartReaders.{operation_of, over_of, user_of};
ghost use Rattle.quel_grammar.specs.Reading.{expect, on_fixed};
ghost use Rattle.quel_grammar.specs.Statements.{joined};
ghost use Rattle.quel_terms.specs.View.{Gives};

use crate::lists::Listed;
use calculus::{Name, OutOfMemory};
use quel_grammar::{Fixed, Token};
use quel_terms::{Halt, Read};
use std::alloc::Global;

/// The number of the right that the word of an operation gives; `all` gives all four.
fn operation_of(fixed: Fixed) -> Option<u8>
    ensures { result ≡ operation_of fixed }
{
    match fixed {
        Fixed::Retrieve => Some(1),
        Fixed::Append => Some(2),
        Fixed::Replace => Some(4),
        Fixed::Delete => Some(8),
        Fixed::All => Some(15),
        _ => None,
    }
}

/// An operation is read as the number of its right.
impl Listed for u8 {
    ghost use Rattle.quel_grammar.specs.PartReaders.{operation_of};
    ghost use Rattle.quel_grammar.specs.Reading.{expect, on_fixed};

    ghost reader = { λ _. expect (on_fixed operation_of) };

    fn read<'a>(_alloc: Global, _depth: u16, tokens: &'a [Token]) -> Read<'a, u8> {
        let [Token::Fixed(fixed), rest @ ..] = tokens else {
            return Err(Halt::Stop(tokens));
        };
        match operation_of(*fixed) {
            Some(right) => Ok((right, rest)),
            None => Err(Halt::Stop(tokens)),
        }
    }
}

/// The rights together, each counted once.
pub fn joined(rights: &[u8]) -> u8
    ensures { result ≡ joined rights.now }
{
    rights.iter().fold(0, |all, right| all | *right)
}

/// The tokens behind `on`, `of` or `to`, one of which must stand there.
pub fn over_at(tokens: &[Token]) -> Result<&[Token], Halt<'_>>
    ensures { Gives (λ rest. (tt, rest.now)) result (expect (on_fixed over_of) tokens.now) }
{
    match tokens {
        [Token::Fixed(Fixed::On | Fixed::Of | Fixed::To), rest @ ..] => Ok(rest),
        _ => Err(Halt::Stop(tokens)),
    }
}

/// A user or `all`, which must stand there.
pub fn user_at<'a>(alloc: Global, tokens: &'a [Token]) -> Read<'a, Option<Name>>
    ensures { Gives (λ x. (x.0, x.1.now)) result (expect user_of tokens.now) }
{
    match tokens {
        [Token::Name(name), rest @ ..] => match name.copy(alloc) {
            Ok(name) => Ok((Some(name), rest)),
            Err(OutOfMemory) => Err(Halt::Memory),
        },
        [Token::Fixed(Fixed::All), rest @ ..] => Ok((None, rest)),
        _ => Err(Halt::Stop(tokens)),
    }
}
