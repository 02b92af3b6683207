//! Qualifications: comparisons, negations, conjunctions and disjunctions. Each function reads what
//! its name in the grammar's definitions reads, where at most `depth` functions that take a token may
//! call each other.

ghost use Rattle.std.specs.Prelude.{Ok};
ghost use Rattle.quel_grammar.specs.TermReaders.{level, demanded, compare_by, grouped_by, mixed_group_by, operand_by, neg_by, ands_by, conj_by, ors_by, mixed_from, mixed_by, qual_by};
ghost use Rattle.quel_grammar.specs.TermReaders.Mixed.{Whole};
ghost use Rattle.quel_terms.specs.Mixed.{mixed_of};
ghost use Rattle.quel_terms.specs.View.{Gives};

use crate::depth::below;
use crate::halt::{Halt, Read};
use crate::signs::comparison_at;
use crate::taking::found;
use crate::terms::{term_by, term_from};
use calculus::{Boxed, OutOfMemory, Qual, Term};
use quel_grammar::{Fixed, Token};
use std::alloc::Global;

/// A qualification, or a term where no comparison follows it.
#[derive(Drop)]
pub enum Mixed {
    /// A term.
    Bare(Boxed<Term>),
    /// A qualification.
    Whole(Boxed<Qual>),
}

/// The qualification that was read, where it is one.
pub fn demanded(mixed: Mixed, tokens: &[Token]) -> Read<'_, Boxed<Qual>>
    ensures { Gives (λ x. (x.0, x.1.now)) result (demanded (mixed_of mixed) tokens.now) }
{
    match mixed {
        Mixed::Whole(qual) => Ok((qual, tokens)),
        Mixed::Bare(_) => Err(Halt::Stop(tokens)),
    }
}

/// A qualification that was read, and the tokens behind it.
fn whole<'a>(alloc: Global, qual: Qual, rest: &'a [Token]) -> Read<'a, Mixed>
    ensures { Gives (λ x. (mixed_of x.0, x.1.now)) result (Ok (Whole qual, rest.now)) }
{
    match Boxed::new(alloc, qual) {
        Ok(qual) => Ok((Mixed::Whole(qual), rest)),
        Err(OutOfMemory) => Err(Halt::Memory),
    }
}

/// A comparison whose left side is this term, or the bare term.
#[cycle(terms)]
#[tactic(auto, unfolding(quel_grammar::specs::TermReaders::compare_by, quel_grammar::specs::TermReaders::right_side_by))]
fn compare_by<'a>(
    alloc: Global,
    depth: u16,
    left: Boxed<Term>,
    tokens: &'a [Token],
) -> Read<'a, Mixed>
    ensures { Gives (λ x. (mixed_of x.0, x.1.now)) result (compare_by (level depth) left tokens.now) }
{
    match comparison_at(tokens) {
        Some((op, rest)) => match term_by(alloc, depth, rest) {
            Ok((right, rest)) => {
                let (left, right) = (left.into_inner(), right.into_inner());
                whole(alloc, Qual::Cmp { op, left, right }, rest)
            }
            Err(halt) => Err(halt),
        },
        None => Ok((Mixed::Bare(left), tokens)),
    }
}

/// The rest of a qualification or a term that begins with this in parentheses.
#[cycle(terms)]
#[tactic(auto, unfolding(quel_grammar::specs::TermReaders::grouped_by))]
fn grouped_by<'a>(alloc: Global, depth: u16, group: Mixed, tokens: &'a [Token]) -> Read<'a, Mixed>
    ensures { Gives (λ x. (mixed_of x.0, x.1.now)) result (grouped_by (level depth) (mixed_of group) tokens.now) }
{
    match group {
        Mixed::Whole(qual) => Ok((Mixed::Whole(qual), tokens)),
        Mixed::Bare(first) => match term_from(alloc, depth, first, tokens) {
            Ok((left, rest)) => compare_by(alloc, depth, left, rest),
            Err(halt) => Err(halt),
        },
    }
}

/// A qualification or a term, behind its first parenthesis.
#[cycle(terms)]
#[tactic(auto, unfolding(quel_grammar::specs::TermReaders::mixed_group_by))]
fn mixed_group_by<'a>(alloc: Global, depth: u16, tokens: &'a [Token]) -> Read<'a, Mixed>
    ensures { Gives (λ x. (mixed_of x.0, x.1.now)) result (mixed_group_by (level depth) tokens.now) }
{
    let Some(lower) = below(depth) else {
        return Err(Halt::Stop(tokens));
    };
    match mixed_by(alloc, lower, tokens) {
        Ok((group, rest)) => match found(Fixed::Close, rest) {
            Some(rest) => grouped_by(alloc, depth, group, rest),
            None => Err(Halt::Stop(rest)),
        },
        Err(halt) => Err(halt),
    }
}

/// A side of `and`, or a bare term.
#[cycle(terms)]
#[tactic(auto, unfolding(quel_grammar::specs::TermReaders::operand_by, quel_grammar::specs::TermReaders::negated_by, quel_grammar::specs::TermReaders::plain_by, quel_grammar::specs::TermReaders::compared_by))]
fn operand_by<'a>(alloc: Global, depth: u16, tokens: &'a [Token]) -> Read<'a, Mixed>
    ensures { Gives (λ x. (mixed_of x.0, x.1.now)) result (operand_by (level depth) tokens.now) }
{
    if let Some(rest) = found(Fixed::Not, tokens) {
        let Some(lower) = below(depth) else {
            return Err(Halt::Stop(rest));
        };
        return match neg_by(alloc, lower, rest) {
            Ok((qual, rest)) => whole(alloc, Qual::Not(qual), rest),
            Err(halt) => Err(halt),
        };
    }
    if let Some(rest) = found(Fixed::Open, tokens) {
        return mixed_group_by(alloc, depth, rest);
    }
    match term_by(alloc, depth, tokens) {
        Ok((left, rest)) => compare_by(alloc, depth, left, rest),
        Err(halt) => Err(halt),
    }
}

/// A side of `and`.
#[cycle(terms)]
#[tactic(auto, unfolding(quel_grammar::specs::TermReaders::neg_by))]
fn neg_by<'a>(alloc: Global, depth: u16, tokens: &'a [Token]) -> Read<'a, Boxed<Qual>>
    ensures { Gives (λ x. (x.0, x.1.now)) result (neg_by (level depth) tokens.now) }
{
    match operand_by(alloc, depth, tokens) {
        Ok((mixed, rest)) => demanded(mixed, rest),
        Err(halt) => Err(halt),
    }
}

/// The rest of a conjunction, whose left part is this.
#[cycle(terms)]
#[tactic(auto, unfolding(quel_grammar::specs::TermReaders::ands_by, quel_grammar::specs::TermReaders::next_and_by))]
fn ands_by<'a>(
    alloc: Global,
    depth: u16,
    left: Boxed<Qual>,
    tokens: &'a [Token],
) -> Read<'a, Boxed<Qual>>
    ensures { Gives (λ x. (x.0, x.1.now)) result (ands_by (level depth) left tokens.now) }
{
    let Some(rest) = found(Fixed::And, tokens) else {
        return Ok((left, tokens));
    };
    match neg_by(alloc, depth, rest) {
        Ok((right, rest)) => match Boxed::new(alloc, Qual::And(left, right)) {
            Ok(left) => match below(depth) {
                Some(lower) => ands_by(alloc, lower, left, rest),
                None => Err(Halt::Stop(rest)),
            },
            Err(OutOfMemory) => Err(Halt::Memory),
        },
        Err(halt) => Err(halt),
    }
}

/// A side of `or`.
#[cycle(terms)]
#[tactic(auto, unfolding(quel_grammar::specs::TermReaders::conj_by))]
fn conj_by<'a>(alloc: Global, depth: u16, tokens: &'a [Token]) -> Read<'a, Boxed<Qual>>
    ensures { Gives (λ x. (x.0, x.1.now)) result (conj_by (level depth) tokens.now) }
{
    match neg_by(alloc, depth, tokens) {
        Ok((left, rest)) => ands_by(alloc, depth, left, rest),
        Err(halt) => Err(halt),
    }
}

/// The rest of a disjunction, whose left part is this.
#[cycle(terms)]
#[tactic(auto, unfolding(quel_grammar::specs::TermReaders::ors_by, quel_grammar::specs::TermReaders::next_or_by))]
fn ors_by<'a>(
    alloc: Global,
    depth: u16,
    left: Boxed<Qual>,
    tokens: &'a [Token],
) -> Read<'a, Boxed<Qual>>
    ensures { Gives (λ x. (x.0, x.1.now)) result (ors_by (level depth) left tokens.now) }
{
    let Some(rest) = found(Fixed::Or, tokens) else {
        return Ok((left, tokens));
    };
    match conj_by(alloc, depth, rest) {
        Ok((right, rest)) => match Boxed::new(alloc, Qual::Or(left, right)) {
            Ok(left) => match below(depth) {
                Some(lower) => ors_by(alloc, lower, left, rest),
                None => Err(Halt::Stop(rest)),
            },
            Err(OutOfMemory) => Err(Halt::Memory),
        },
        Err(halt) => Err(halt),
    }
}

/// The rest of a qualification that begins with this; a bare term has none.
#[cycle(terms)]
#[tactic(auto, unfolding(quel_grammar::specs::TermReaders::mixed_from))]
fn mixed_from<'a>(alloc: Global, depth: u16, first: Mixed, tokens: &'a [Token]) -> Read<'a, Mixed>
    ensures { Gives (λ x. (mixed_of x.0, x.1.now)) result (mixed_from (level depth) (mixed_of first) tokens.now) }
{
    match first {
        Mixed::Bare(term) => Ok((Mixed::Bare(term), tokens)),
        Mixed::Whole(left) => match ands_by(alloc, depth, left, tokens) {
            Ok((left, rest)) => match ors_by(alloc, depth, left, rest) {
                Ok((qual, rest)) => Ok((Mixed::Whole(qual), rest)),
                Err(halt) => Err(halt),
            },
            Err(halt) => Err(halt),
        },
    }
}

/// A qualification, or a bare term.
#[cycle(terms)]
#[tactic(auto, unfolding(quel_grammar::specs::TermReaders::mixed_by))]
pub fn mixed_by<'a>(alloc: Global, depth: u16, tokens: &'a [Token]) -> Read<'a, Mixed>
    ensures { Gives (λ x. (mixed_of x.0, x.1.now)) result (mixed_by (level depth) tokens.now) }
{
    match operand_by(alloc, depth, tokens) {
        Ok((first, rest)) => mixed_from(alloc, depth, first, rest),
        Err(halt) => Err(halt),
    }
}

/// A qualification.
#[tactic(auto, unfolding(quel_grammar::specs::TermReaders::qual_by))]
pub fn qual_by<'a>(alloc: Global, depth: u16, tokens: &'a [Token]) -> Read<'a, Boxed<Qual>>
    ensures { Gives (λ x. (x.0, x.1.now)) result (qual_by (level depth) tokens.now) }
{
    match mixed_by(alloc, depth, tokens) {
        Ok((mixed, rest)) => demanded(mixed, rest),
        Err(halt) => Err(halt),
    }
}
