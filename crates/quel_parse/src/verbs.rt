//! Statements by their first words.

ghost use Rattle.std.specs.Prelude.{◌≡◌, option_map};
ghost use Rattle.quel_grammar.specs.Reading.{first, on_fixed};
ghost use Rattle.quel_grammar.specs.StatementReaders.{verb_of, verb_by, statement_by};
ghost use Rattle.quel_grammar.specs.TermReaders.{level};
ghost use Rattle.quel_parse.specs.Parts.{verb_of as said_of};
ghost use Rattle.quel_terms.specs.View.{Gives};

use crate::defining::define_by;
use crate::relations::{
    copy_by, create_by, destroy_by, help_at, index_by, modify_by, print_by, range_at,
};
use crate::target_statements::{Change, append_by, changed_by, delete_by, retrieve_by};
use calculus::{Boxed, Statement};
use quel_grammar::{Fixed, Token};
use quel_terms::{Halt, Read};
use std::alloc::Global;

/// The first words.
#[derive(Clone, Copy)]
enum Verb {
    /// `range`
    Range,
    /// `retrieve`
    Retrieve,
    /// `append`
    Append,
    /// `replace`
    Replace,
    /// `delete`
    Delete,
    /// `create`
    Create,
    /// `destroy`
    Destroy,
    /// `modify`
    Modify,
    /// `index`
    Index,
    /// `print`
    Print,
    /// `help`
    Help,
    /// `copy`
    Copy,
    /// `define`
    Define,
}

/// The first word of a statement that a reserved word or a symbol is.
fn verb_of(fixed: Fixed) -> Option<Verb>
    ensures { option_map said_of result ≡ verb_of fixed }
{
    match fixed {
        Fixed::Range => Some(Verb::Range),
        Fixed::Retrieve => Some(Verb::Retrieve),
        Fixed::Append => Some(Verb::Append),
        Fixed::Replace => Some(Verb::Replace),
        Fixed::Delete => Some(Verb::Delete),
        Fixed::Create => Some(Verb::Create),
        Fixed::Destroy => Some(Verb::Destroy),
        Fixed::Modify => Some(Verb::Modify),
        Fixed::Index => Some(Verb::Index),
        Fixed::Print => Some(Verb::Print),
        Fixed::Help => Some(Verb::Help),
        Fixed::Copy => Some(Verb::Copy),
        Fixed::Define => Some(Verb::Define),
        _ => None,
    }
}

/// The first word of a statement, where one stands there.
fn verb_at(tokens: &[Token]) -> Option<(Verb, &[Token])>
    ensures { option_map (λ x. (said_of x.0, x.1.now)) result ≡ first (on_fixed verb_of) tokens.now }
{
    let [Token::Fixed(fixed), rest @ ..] = tokens else {
        return None;
    };
    match verb_of(*fixed) {
        Some(verb) => Some((verb, rest)),
        None => None,
    }
}

/// A statement, behind its first word.
fn verb_by<'a>(
    alloc: Global,
    depth: u16,
    verb: Verb,
    tokens: &'a [Token],
) -> Read<'a, Boxed<Statement>>
    ensures { Gives (λ x. (x.0, x.1.now)) result (verb_by depth (level depth) (said_of verb) tokens.now) }
{
    match verb {
        Verb::Range => range_at(alloc, tokens),
        Verb::Retrieve => retrieve_by(alloc, depth, tokens),
        Verb::Append => append_by(alloc, depth, tokens),
        Verb::Replace => changed_by(alloc, depth, Change::Replace, tokens),
        Verb::Delete => delete_by(alloc, depth, tokens),
        Verb::Create => create_by(alloc, depth, tokens),
        Verb::Destroy => destroy_by(alloc, depth, tokens),
        Verb::Modify => modify_by(alloc, depth, tokens),
        Verb::Index => index_by(alloc, depth, tokens),
        Verb::Print => print_by(alloc, depth, tokens),
        Verb::Help => help_at(alloc, tokens),
        Verb::Copy => copy_by(alloc, depth, tokens),
        Verb::Define => define_by(alloc, depth, tokens),
    }
}

/// A statement of at most `depth` tokens.
#[tactic(auto, unfolding(quel_grammar::specs::StatementReaders::statement_by))]
pub fn statement_by<'a>(
    alloc: Global,
    depth: u16,
    tokens: &'a [Token],
) -> Read<'a, Boxed<Statement>>
    ensures { Gives (λ x. (x.0, x.1.now)) result (statement_by depth tokens.now) }
{
    match verb_at(tokens) {
        Some((verb, rest)) => verb_by(alloc, depth, verb, rest),
        None => Err(Halt::Stop(tokens)),
    }
}
