//! Primary terms: numbers, text constants, attributes, functions, aggregates, and terms in
//! parentheses. Each function reads what its name in the grammar's definitions reads, where at most
//! `depth` functions that take a token may call each other.

ghost use Rattle.std.specs.Prelude.{Ok};
ghost use Rattle.calculus.specs.declared.statement.Term.{Term as Tree};
ghost use Rattle.calculus.specs.declared.statement.Term.TheVariants.{Agg as tree_aggregate};
ghost use Rattle.quel_grammar.specs.TermReaders.{level, inside_by, two_by, by_by, inner_where_by, aggregate_by, call_by, attribute_of, named_by, prim_by};
ghost use Rattle.quel_terms.specs.Called.{call_of};
ghost use Rattle.quel_terms.specs.View.{Gives};

use crate::called::{Call, call_of};
use crate::depth::below;
use crate::halt::{Halt, Read, made};
use crate::qualifications::{demanded, mixed_by};
use crate::taking::{found, seen_name};
use crate::terms::{arith, term_by, terms_by};
use calculus::{AggOp, AggTerm, ArithOp, Boxed, List, Name, OutOfMemory, Qual, Term};
use memory::both;
use quel_grammar::{Fixed, Token};
use std::alloc::Global;

/// A term and the closing parenthesis.
#[cycle(terms)]
#[tactic(auto, unfolding(quel_grammar::specs::TermReaders::inside_by))]
fn inside_by<'a>(alloc: Global, depth: u16, tokens: &'a [Token]) -> Read<'a, Boxed<Term>>
    ensures { Gives (λ x. (x.0, x.1.now)) result (inside_by (level depth) tokens.now) }
{
    let Some(lower) = below(depth) else {
        return Err(Halt::Stop(tokens));
    };
    match term_by(alloc, lower, tokens) {
        Ok((term, rest)) => match found(Fixed::Close, rest) {
            Some(rest) => Ok((term, rest)),
            None => Err(Halt::Stop(rest)),
        },
        Err(halt) => Err(halt),
    }
}

/// Two terms and the closing parenthesis, whatever is made of them.
#[cycle(terms)]
#[tactic(auto, unfolding(quel_grammar::specs::TermReaders::two_by))]
fn two_by<'a>(
    alloc: Global,
    depth: u16,
    tokens: &'a [Token],
) -> Read<'a, (Boxed<Term>, Boxed<Term>)>
    ensures { (join : Tree → Tree → Tree) → Gives (λ x. (join x.0.0 x.0.1, x.1.now)) result (two_by (level depth) join tokens.now) }
{
    let Some(lower) = below(depth) else {
        return Err(Halt::Stop(tokens));
    };
    let (left, rest) = match term_by(alloc, lower, tokens) {
        Ok(read) => read,
        Err(halt) => return Err(halt),
    };
    match found(Fixed::Comma, rest) {
        Some(rest) => match inside_by(alloc, depth, rest) {
            Ok((right, rest)) => Ok(((left, right), rest)),
            Err(halt) => Err(halt),
        },
        None => Err(Halt::Stop(rest)),
    }
}

/// The terms of `by`.
#[cycle(terms)]
#[tactic(auto, unfolding(quel_grammar::specs::TermReaders::by_by))]
fn by_by<'a>(alloc: Global, depth: u16, tokens: &'a [Token]) -> Read<'a, Vec<Term>>
    ensures { Gives (λ x. (x.0.items, x.1.now)) result (by_by (level depth) tokens.now) }
{
    match found(Fixed::By, tokens) {
        Some(rest) => {
            let Some(lower) = below(depth) else {
                return Err(Halt::Stop(rest));
            };
            let mut terms = Vec::new(alloc);
            match terms_by(alloc, lower, &mut terms, rest) {
                Ok(rest) => Ok((terms, rest)),
                Err(halt) => Err(halt),
            }
        }
        None => Ok((Vec::new(alloc), tokens)),
    }
}

/// The qualification of an aggregate.
#[cycle(terms)]
#[tactic(auto, unfolding(quel_grammar::specs::TermReaders::inner_where_by, quel_grammar::specs::TermReaders::inner_qual_by))]
fn inner_where_by<'a>(alloc: Global, depth: u16, tokens: &'a [Token]) -> Read<'a, Boxed<Qual>>
    ensures { Gives (λ x. (x.0, x.1.now)) result (inner_where_by (level depth) tokens.now) }
{
    match found(Fixed::Where, tokens) {
        Some(rest) => {
            let Some(lower) = below(depth) else {
                return Err(Halt::Stop(rest));
            };
            match mixed_by(alloc, lower, rest) {
                Ok((mixed, rest)) => demanded(mixed, rest),
                Err(halt) => Err(halt),
            }
        }
        None => made(Boxed::new(alloc, Qual::True), tokens),
    }
}

/// The aggregate of these parts, and the tokens behind it.
fn aggregate<'a>(
    alloc: Global,
    op: AggOp,
    arg: Boxed<Term>,
    by: Vec<Term>,
    qual: Boxed<Qual>,
    rest: &'a [Token],
) -> Read<'a, Boxed<Term>>
    ensures { Gives (λ x. (x.0, x.1.now)) result (Ok (tree_aggregate (record { op = op; arg = arg; by = by.items; qual = qual }), rest.now)) }
{
    let aggregate = AggTerm {
        op,
        arg: arg.into_inner(),
        by: List::of(by),
        qual: qual.into_inner(),
    };
    match Boxed::new(alloc, aggregate) {
        Ok(aggregate) => made(Boxed::new(alloc, Term::Agg(aggregate)), rest),
        Err(OutOfMemory) => Err(Halt::Memory),
    }
}

/// An aggregate, behind the open parenthesis.
#[cycle(terms)]
#[tactic(auto, unfolding(quel_grammar::specs::TermReaders::aggregate_by))]
fn aggregate_by<'a>(
    alloc: Global,
    depth: u16,
    op: AggOp,
    tokens: &'a [Token],
) -> Read<'a, Boxed<Term>>
    ensures { Gives (λ x. (x.0, x.1.now)) result (aggregate_by (level depth) op tokens.now) }
{
    let Some(lower) = below(depth) else {
        return Err(Halt::Stop(tokens));
    };
    let (arg, rest) = match term_by(alloc, lower, tokens) {
        Ok(read) => read,
        Err(halt) => return Err(halt),
    };
    match by_by(alloc, depth, rest) {
        Ok((by, rest)) => match inner_where_by(alloc, depth, rest) {
            Ok((qual, rest)) => match found(Fixed::Close, rest) {
                Some(rest) => aggregate(alloc, op, arg, by, qual, rest),
                None => Err(Halt::Stop(rest)),
            },
            Err(halt) => Err(halt),
        },
        Err(halt) => Err(halt),
    }
}

/// What is called, behind the open parenthesis.
#[cycle(terms)]
#[tactic(auto, unfolding(quel_grammar::specs::TermReaders::abs_by))]
fn call_by<'a>(alloc: Global, depth: u16, call: Call, tokens: &'a [Token]) -> Read<'a, Boxed<Term>>
    ensures { Gives (λ x. (x.0, x.1.now)) result (call_by (level depth) (call_of call) tokens.now) }
{
    match call {
        Call::Abs => match inside_by(alloc, depth, tokens) {
            Ok((term, rest)) => made(Boxed::new(alloc, Term::Abs(term)), rest),
            Err(halt) => Err(halt),
        },
        Call::Mod => match two_by(alloc, depth, tokens) {
            Ok(((left, right), rest)) => arith(alloc, ArithOp::Mod, left, right, rest),
            Err(halt) => Err(halt),
        },
        Call::Concat => match two_by(alloc, depth, tokens) {
            Ok(((left, right), rest)) => {
                made(Boxed::new(alloc, Term::Concat { left, right }), rest)
            }
            Err(halt) => Err(halt),
        },
        Call::Aggregate(op) => aggregate_by(alloc, depth, op, tokens),
    }
}

/// The attribute of a variable, behind the dot.
#[tactic(auto, unfolding(quel_grammar::specs::TermReaders::attribute_of))]
fn attribute_of<'a>(alloc: Global, var: &Name, tokens: &'a [Token]) -> Read<'a, Boxed<Term>>
    ensures { Gives (λ x. (x.0, x.1.now)) result (attribute_of var.now tokens.now) }
{
    let (attr, rest) = match seen_name(tokens) {
        Ok(read) => read,
        Err(halt) => return Err(halt),
    };
    match both(var.copy(alloc), attr.copy(alloc)) {
        Ok((var, attr)) => made(Boxed::new(alloc, Term::Attr { var, attr }), rest),
        Err(OutOfMemory) => Err(Halt::Memory),
    }
}

/// An attribute, a function or an aggregate, behind its name.
#[cycle(terms)]
#[tactic(auto, unfolding(quel_grammar::specs::TermReaders::named_by, quel_grammar::specs::TermReaders::opened_by))]
fn named_by<'a>(
    alloc: Global,
    depth: u16,
    name: &Name,
    tokens: &'a [Token],
) -> Read<'a, Boxed<Term>>
    ensures { Gives (λ x. (x.0, x.1.now)) result (named_by (level depth) name.now tokens.now) }
{
    if let Some(rest) = found(Fixed::Dot, tokens) {
        return attribute_of(alloc, name, rest);
    }
    match call_of(name.bytes()) {
        Some(call) => match found(Fixed::Open, tokens) {
            Some(rest) => call_by(alloc, depth, call, rest),
            None => Err(Halt::Stop(tokens)),
        },
        None => Err(Halt::Stop(tokens)),
    }
}

/// A primary term.
#[cycle(terms)]
#[tactic(auto, unfolding(quel_grammar::specs::TermReaders::prim_by))]
pub fn prim_by<'a>(alloc: Global, depth: u16, tokens: &'a [Token]) -> Read<'a, Boxed<Term>>
    ensures { Gives (λ x. (x.0, x.1.now)) result (prim_by (level depth) tokens.now) }
{
    match tokens {
        [Token::Int(number), rest @ ..] => {
            made(Boxed::new(alloc, Term::Int(number.signed())), rest)
        }
        [Token::Text(text), rest @ ..] => {
            match text.copy(alloc) {
                Ok(text) => made(Boxed::new(alloc, Term::Chars(text)), rest),
                Err(OutOfMemory) => Err(Halt::Memory),
            }
        }
        [Token::Name(name), rest @ ..] => named_by(alloc, depth, name, rest),
        [Token::Fixed(Fixed::Open), rest @ ..] => inside_by(alloc, depth, rest),
        _ => Err(Halt::Stop(tokens)),
    }
}
