//! The keys by which a result is sorted.

ghost use Rattle.std.specs.Prelude.{◌≡◌};
ghost use Rattle.quel_grammar.specs.PartReaders.{directions, direction_at, keys_by, sort_by};
ghost use Rattle.quel_grammar.specs.Reading.{expect, on_name, look_up};
ghost use Rattle.quel_terms.specs.View.{Gives};

use crate::lists::{Listed, list_at};
use calculus::Name;
use quel_grammar::{Fixed, Token};
use quel_terms::{Halt, Read, found, look_up, name_at};
use std::alloc::Global;

/// The words of direction, and whether they say that it descends.
const DIRECTIONS: [(&[u8], bool); 4] = [
    (b"a", false),
    (b"ascending", false),
    (b"d", true),
    (b"descending", true),
];

/// Whether the word of direction says that it descends.
fn direction_of(word: &[u8]) -> Option<bool>
    ensures { result ≡ look_up directions word.now }
{
    let table = DIRECTIONS.as_slice();
    look_up(table, word)
}

/// A word of direction, which must stand there.
fn direction(tokens: &[Token]) -> Read<'_, bool>
    ensures { Gives (λ x. (x.0, x.1.now)) result (expect (on_name (look_up directions)) tokens.now) }
{
    let [Token::Name(word), rest @ ..] = tokens else {
        return Err(Halt::Stop(tokens));
    };
    match direction_of(word.bytes()) {
        Some(down) => Ok((down, rest)),
        None => Err(Halt::Stop(tokens)),
    }
}

/// A colon and a word of direction, or nothing.
#[tactic(auto, unfolding(quel_grammar::specs::PartReaders::direction_at))]
fn direction_at(tokens: &[Token]) -> Read<'_, bool>
    ensures { Gives (λ x. (x.0, x.1.now)) result (direction_at tokens.now) }
{
    match found(Fixed::Colon, tokens) {
        Some(rest) => direction(rest),
        None => Ok((false, tokens)),
    }
}

impl Listed for (Name, bool) {
    ghost use Rattle.quel_grammar.specs.PartReaders.{key_at};

    ghost reader = { λ _. key_at };

    #[tactic(auto, unfolding(quel_grammar::specs::PartReaders::key_at))]
    fn read<'a>(alloc: Global, _depth: u16, tokens: &'a [Token]) -> Read<'a, (Name, bool)> {
        match name_at(alloc, tokens) {
            Ok((name, rest)) => match direction_at(rest) {
                Ok((down, rest)) => Ok(((name, down), rest)),
                Err(halt) => Err(halt),
            },
            Err(halt) => Err(halt),
        }
    }
}

/// Sort keys, behind `sort`.
#[tactic(auto, unfolding(quel_grammar::specs::PartReaders::keys_by))]
fn keys_by<'a>(alloc: Global, most: u16, tokens: &'a [Token]) -> Read<'a, Vec<(Name, bool)>>
    ensures { Gives (λ x. (x.0.items, x.1.now)) result (keys_by most tokens.now) }
{
    match found(Fixed::By, tokens) {
        Some(rest) => list_at(alloc, most, rest),
        None => Err(Halt::Stop(tokens)),
    }
}

/// `sort by` and keys, or nothing.
#[tactic(auto, unfolding(quel_grammar::specs::PartReaders::sort_by))]
pub fn sort_by<'a>(alloc: Global, most: u16, tokens: &'a [Token]) -> Read<'a, Vec<(Name, bool)>>
    ensures { Gives (λ x. (x.0.items, x.1.now)) result (sort_by most tokens.now) }
{
    match found(Fixed::Sort, tokens) {
        Some(rest) => keys_by(alloc, most, rest),
        None => Ok((Vec::new(alloc), tokens)),
    }
}
