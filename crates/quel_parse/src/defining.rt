//! Definitions of views, permits and rules of integrity.

ghost use Rattle.std.specs.Prelude.{◌≡◌, Ok, option_map};
ghost use Rattle.calculus.specs.declared.statement.Statement.TheVariants.{Permit as permit};
ghost use Rattle.quel_grammar.specs.Reading.{first, on_fixed};
ghost use Rattle.quel_grammar.specs.StatementReaders.{permit_by, rule_by, defined_of, defined_by, define_by};
ghost use Rattle.quel_grammar.specs.TermReaders.{level};
ghost use Rattle.quel_parse.specs.Parts.{defined_of as what_of, granted_by};
ghost use Rattle.quel_terms.specs.View.{Gives};

use crate::lists::list_at;
use crate::names::covered_by;
use crate::permits::{joined, over_at, user_at};
use crate::stated::boxed;
use crate::target_statements::{Change, changed_by};
use crate::targets::where_by;
use calculus::{Boxed, List, Name, OutOfMemory, Qual, Statement};
use quel_grammar::{Fixed, Token};
use quel_terms::{Halt, Read, after, name_at, qual_by, seen_name};
use std::alloc::Global;

/// What is defined.
#[derive(Clone, Copy)]
enum Defined {
    /// A view.
    View,
    /// A permit.
    Permit,
    /// A rule of integrity.
    Rule,
}

/// The permit of these parts, and the tokens behind it.
fn granted<'a>(
    alloc: Global,
    ops: u8,
    var: &Name,
    attrs: Vec<Name>,
    user: Option<Name>,
    qual: Boxed<Qual>,
    rest: &'a [Token],
) -> Read<'a, Boxed<Statement>>
    ensures { Gives (λ x. (x.0, x.1.now)) result (Ok (permit ops var.now attrs.items user qual, rest.now)) }
{
    match var.copy(alloc) {
        Ok(var) => {
            let statement = Statement::Permit {
                ops,
                var,
                attrs: List::of(attrs),
                user,
                qual: qual.into_inner(),
            };
            boxed(alloc, statement, rest)
        }
        Err(OutOfMemory) => Err(Halt::Memory),
    }
}

/// What follows the operations of a permit, which give these rights together.
fn granted_by<'a>(
    alloc: Global,
    depth: u16,
    ops: u8,
    tokens: &'a [Token],
) -> Read<'a, Boxed<Statement>>
    ensures { Gives (λ x. (x.0, x.1.now)) result (granted_by depth (level depth) ops tokens.now) }
{
    let rest = over_at(tokens)?;
    let (var, rest) = seen_name(rest)?;
    let (attrs, rest) = covered_by(alloc, depth, rest)?;
    match after(Fixed::To, rest) {
        Ok(rest) => match user_at(alloc, rest) {
            Ok((user, rest)) => match where_by(alloc, depth, rest) {
                Ok((qual, rest)) => granted(alloc, ops, var, attrs, user, qual, rest),
                Err(halt) => Err(halt),
            },
            Err(halt) => Err(halt),
        },
        Err(halt) => Err(halt),
    }
}

/// `define permit`, behind its words.
#[tactic(auto, unfolding(quel_grammar::specs::StatementReaders::permit_by))]
fn permit_by<'a>(alloc: Global, depth: u16, tokens: &'a [Token]) -> Read<'a, Boxed<Statement>>
    ensures { Gives (λ x. (x.0, x.1.now)) result (permit_by depth (level depth) tokens.now) }
{
    match list_at(alloc, depth, tokens) {
        Ok((rights, rest)) => granted_by(alloc, depth, joined(&rights), rest),
        Err(halt) => Err(halt),
    }
}

/// `define integrity`, behind its words.
#[tactic(auto, unfolding(quel_grammar::specs::StatementReaders::rule_by))]
fn rule_by<'a>(alloc: Global, depth: u16, tokens: &'a [Token]) -> Read<'a, Boxed<Statement>>
    ensures { Gives (λ x. (x.0, x.1.now)) result (rule_by (level depth) tokens.now) }
{
    let rest = after(Fixed::On, tokens)?;
    match name_at(alloc, rest) {
        Ok((var, rest)) => match after(Fixed::Is, rest) {
            Ok(rest) => match qual_by(alloc, depth, rest) {
                Ok((qual, rest)) => {
                    let qual = qual.into_inner();
                    boxed(alloc, Statement::Rule { var, qual }, rest)
                }
                Err(halt) => Err(halt),
            },
            Err(halt) => Err(halt),
        },
        Err(halt) => Err(halt),
    }
}

/// The word for what is defined, where one stands there.
fn defined_at(tokens: &[Token]) -> Option<(Defined, &[Token])>
    ensures { option_map (λ x. (what_of x.0, x.1.now)) result ≡ first (on_fixed defined_of) tokens.now }
{
    match tokens {
        [Token::Fixed(fixed), rest @ ..] => match *fixed {
            Fixed::View => Some((Defined::View, rest)),
            Fixed::Permit => Some((Defined::Permit, rest)),
            Fixed::Integrity => Some((Defined::Rule, rest)),
            _ => None,
        },
        _ => None,
    }
}

/// A view, a permit or a rule, behind that word.
fn defined_by<'a>(
    alloc: Global,
    depth: u16,
    defined: Defined,
    tokens: &'a [Token],
) -> Read<'a, Boxed<Statement>>
    ensures { Gives (λ x. (x.0, x.1.now)) result (defined_by depth (level depth) (what_of defined) tokens.now) }
{
    match defined {
        Defined::View => changed_by(alloc, depth, Change::View, tokens),
        Defined::Permit => permit_by(alloc, depth, tokens),
        Defined::Rule => rule_by(alloc, depth, tokens),
    }
}

/// `define`, behind its first word.
#[tactic(auto, unfolding(quel_grammar::specs::StatementReaders::define_by))]
pub fn define_by<'a>(alloc: Global, depth: u16, tokens: &'a [Token]) -> Read<'a, Boxed<Statement>>
    ensures { Gives (λ x. (x.0, x.1.now)) result (define_by depth (level depth) tokens.now) }
{
    match defined_at(tokens) {
        Some((defined, rest)) => defined_by(alloc, depth, defined, rest),
        None => Err(Halt::Stop(tokens)),
    }
}
