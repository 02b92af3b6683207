//! The structures of relations.

ghost use Rattle.std.specs.Prelude.{◌≡◌, option_map};
ghost use Rattle.quel_grammar.specs.PartReaders.{keyed_structures, heaps, keyed_by, structure_by};
ghost use Rattle.quel_grammar.specs.Reading.{first, expect, on_name, look_up};
ghost use Rattle.quel_terms.specs.View.{Gives};

use crate::names::on_by;
use calculus::{Name, Spec};
use quel_grammar::Token;
use quel_terms::{Halt, Read, look_up};
use std::alloc::Global;

/// The structures with keys.
const KEYED: [(&[u8], Spec); 2] = [(b"hash", Spec::Hash), (b"isam", Spec::Isam)];

/// The structure without keys.
const HEAPS: [(&[u8], ()); 1] = [(b"heap", ())];

/// The structure with keys that a word names.
fn keyed_of(word: &[u8]) -> Option<Spec>
    ensures { result ≡ look_up keyed_structures word.now }
{
    let table = KEYED.as_slice();
    look_up(table, word)
}

/// The name of a structure with keys, which must stand there.
fn keyed_at(tokens: &[Token]) -> Read<'_, Spec>
    ensures { Gives (λ x. (x.0, x.1.now)) result (expect (on_name (look_up keyed_structures)) tokens.now) }
{
    let [Token::Name(word), rest @ ..] = tokens else {
        return Err(Halt::Stop(tokens));
    };
    match keyed_of(word.bytes()) {
        Some(structure) => Ok((structure, rest)),
        None => Err(Halt::Stop(tokens)),
    }
}

/// A structure with its keys.
#[tactic(auto, unfolding(quel_grammar::specs::PartReaders::keyed_by))]
fn keyed_by<'a>(alloc: Global, most: u16, tokens: &'a [Token]) -> Read<'a, (Spec, Vec<Name>)>
    ensures { Gives (λ x. ((x.0.0, x.0.1.items), x.1.now)) result (keyed_by most tokens.now) }
{
    match keyed_at(tokens) {
        Ok((structure, rest)) => match on_by(alloc, most, rest) {
            Ok((keys, rest)) => Ok(((structure, keys), rest)),
            Err(halt) => Err(halt),
        },
        Err(halt) => Err(halt),
    }
}

/// Whether the word is `heap`.
fn heap_of(word: &[u8]) -> Option<()>
    ensures { result ≡ look_up heaps word.now }
{
    let table = HEAPS.as_slice();
    look_up(table, word)
}

/// The tokens behind `heap`, where it stands there.
fn behind_heap(tokens: &[Token]) -> Option<&[Token]>
    ensures { option_map (λ rest. (tt, rest.now)) result ≡ first (on_name (look_up heaps)) tokens.now }
{
    let [Token::Name(word), rest @ ..] = tokens else {
        return None;
    };
    match heap_of(word.bytes()) {
        Some(()) => Some(rest),
        None => None,
    }
}

/// A structure with its keys, if it has any.
#[tactic(auto, unfolding(quel_grammar::specs::PartReaders::structure_by))]
pub fn structure_by<'a>(
    alloc: Global,
    most: u16,
    tokens: &'a [Token],
) -> Read<'a, (Spec, Vec<Name>)>
    ensures { Gives (λ x. ((x.0.0, x.0.1.items), x.1.now)) result (structure_by most tokens.now) }
{
    match behind_heap(tokens) {
        Some(rest) => Ok(((Spec::Heap, Vec::new(alloc)), rest)),
        None => keyed_by(alloc, most, tokens),
    }
}
