//! The numbers of permits and rules.

ghost use Rattle.std.specs.Prelude.{◌≡◌, nat_le, Some, None, if◌then◌else◌};
ghost use Rattle.quel_grammar.specs.PartReaders.{numbers_at};
ghost use Rattle.quel_terms.specs.View.{Gives};

use crate::lists::{Listed, list_at};
use quel_grammar::{Fixed, Number, Token};
use quel_terms::{Halt, Read, found};
use std::alloc::Global;

/// The greatest number of a permit or a rule.
const GREATEST: u64 = u32::MAX as u64;

/// The number, where it is at most 4,294,967,295.
fn small(number: Number) -> Option<u32>
    ensures { result ≡ (if nat_le number 4294967295 then Some number else None) }
{
    if number.value() > GREATEST {
        return None;
    }
    Some(number.value() as u32)
}

impl Listed for u32 {
    ghost use Rattle.quel_grammar.specs.PartReaders.{small_number};
    ghost use Rattle.quel_grammar.specs.Reading.{expect};

    ghost reader = { λ _. expect small_number };

    fn read<'a>(_alloc: Global, _depth: u16, tokens: &'a [Token]) -> Read<'a, u32> {
        let [Token::Int(number), rest @ ..] = tokens else {
            return Err(Halt::Stop(tokens));
        };
        match small(*number) {
            Some(small) => Ok((small, rest)),
            None => Err(Halt::Stop(tokens)),
        }
    }
}

/// `all`, or numbers.
#[tactic(auto, unfolding(quel_grammar::specs::PartReaders::numbers_at))]
pub fn numbers_at<'a>(alloc: Global, most: u16, tokens: &'a [Token]) -> Read<'a, Vec<u32>>
    ensures { Gives (λ x. (x.0.items, x.1.now)) result (numbers_at most tokens.now) }
{
    match found(Fixed::All, tokens) {
        Some(rest) => Ok((Vec::new(alloc), rest)),
        None => list_at(alloc, most, tokens),
    }
}
