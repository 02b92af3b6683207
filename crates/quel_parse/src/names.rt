//! Names with commas between them.

ghost use Rattle.quel_grammar.specs.PartReaders.{covered_by, on_by};
ghost use Rattle.quel_terms.specs.View.{Gives};

use crate::lists::{Listed, closed_at, list_at};
use calculus::Name;
use quel_grammar::{Fixed, Token};
use quel_terms::{Read, found, name_at};
use std::alloc::Global;

impl Listed for Name {
    ghost use Rattle.quel_grammar.specs.Reading.{name_at};

    ghost reader = { λ _. name_at };

    fn read<'a>(alloc: Global, _depth: u16, tokens: &'a [Token]) -> Read<'a, Name> {
        name_at(alloc, tokens)
    }
}

/// Names in parentheses, or nothing.
#[tactic(auto, unfolding(quel_grammar::specs::PartReaders::covered_by))]
pub fn covered_by<'a>(alloc: Global, most: u16, tokens: &'a [Token]) -> Read<'a, Vec<Name>>
    ensures { Gives (λ x. (x.0.items, x.1.now)) result (covered_by most tokens.now) }
{
    match found(Fixed::Open, tokens) {
        Some(rest) => closed_at(alloc, most, rest),
        None => Ok((Vec::new(alloc), tokens)),
    }
}

/// `on` and names, or nothing.
#[tactic(auto, unfolding(quel_grammar::specs::PartReaders::on_by))]
pub fn on_by<'a>(alloc: Global, most: u16, tokens: &'a [Token]) -> Read<'a, Vec<Name>>
    ensures { Gives (λ x. (x.0.items, x.1.now)) result (on_by most tokens.now) }
{
    match found(Fixed::On, tokens) {
        Some(rest) => list_at(alloc, most, rest),
        None => Ok((Vec::new(alloc), tokens)),
    }
}
