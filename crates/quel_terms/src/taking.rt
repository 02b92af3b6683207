//! Takes the first token.

ghost use Rattle.std.specs.Prelude.{◌≡◌, option_map};
ghost use Rattle.quel_grammar.specs.Reading.{first, is_fixed, after, name_at};
ghost use Rattle.quel_terms.specs.View.{Gives};

use crate::halt::{Halt, Read};
use calculus::{Name, OutOfMemory};
use quel_grammar::{Fixed, Token};
use std::alloc::Global;

/// The tokens behind this reserved word or symbol, where it stands there.
pub fn found(fixed: Fixed, tokens: &[Token]) -> Option<&[Token]>
    ensures { option_map (λ rest. (tt, rest.now)) result ≡ first (is_fixed fixed) tokens.now }
{
    match tokens {
        [Token::Fixed(first), rest @ ..] if *first == fixed => Some(rest),
        _ => None,
    }
}

/// The tokens behind this reserved word or symbol, which must stand there.
pub fn after<'a>(fixed: Fixed, tokens: &'a [Token]) -> Result<&'a [Token], Halt<'a>>
    ensures { Gives (λ rest. (tt, rest.now)) result (after fixed tokens.now) }
{
    match found(fixed, tokens) {
        Some(rest) => Ok(rest),
        None => Err(Halt::Stop(tokens)),
    }
}

/// The name that stands there, which must be one.
pub fn seen_name(tokens: &[Token]) -> Read<'_, &Name>
    ensures { Gives (λ x. (x.0.now, x.1.now)) result (name_at tokens.now) }
{
    match tokens {
        [Token::Name(name), rest @ ..] => Ok((name, rest)),
        _ => Err(Halt::Stop(tokens)),
    }
}

/// A name, which must stand there.
pub fn name_at<'a>(alloc: Global, tokens: &'a [Token]) -> Read<'a, Name>
    ensures { Gives (λ x. (x.0, x.1.now)) result (name_at tokens.now) }
{
    match tokens {
        [Token::Name(name), rest @ ..] => match name.copy(alloc) {
            Ok(name) => Ok((name, rest)),
            Err(OutOfMemory) => Err(Halt::Memory),
        },
        _ => Err(Halt::Stop(tokens)),
    }
}
