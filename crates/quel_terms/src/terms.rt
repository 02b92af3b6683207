//! Terms: signs, powers, products and sums. Each function reads what its name in the grammar's
//! definitions reads, where at most `depth` functions that take a token may call each other.

ghost use Rattle.std.specs.Prelude.{Ok};
ghost use Rattle.calculus.specs.declared.statement.Term.TheVariants.{Arith as tree_arith};
ghost use Rattle.quel_grammar.specs.TermReaders.{level, signed, unary_by, power_by, pow_by, products_by, prod_by, sums_by, term_by, terms_by, term_from};
ghost use Rattle.quel_terms.specs.View.{Gives};

use crate::depth::below;
use crate::halt::{Halt, Read, made};
use crate::primaries::prim_by;
use crate::signs::{product_sign_at, sign_at, sum_sign_at};
use crate::taking::found;
use calculus::{ArithOp, Boxed, Term};
use quel_grammar::{Fixed, Token};
use std::alloc::Global;

/// Two terms with an operation between them, and the tokens behind them.
pub fn arith<'a>(
    alloc: Global,
    op: ArithOp,
    left: Boxed<Term>,
    right: Boxed<Term>,
    rest: &'a [Token],
) -> Read<'a, Boxed<Term>>
    ensures { Gives (λ x. (x.0, x.1.now)) result (Ok (tree_arith op left right, rest.now)) }
{
    made(Boxed::new(alloc, Term::Arith { op, left, right }), rest)
}

/// The term behind a sign, and the tokens behind it.
fn signed<'a>(
    alloc: Global,
    negative: bool,
    term: Boxed<Term>,
    rest: &'a [Token],
) -> Read<'a, Boxed<Term>>
    ensures { Gives (λ x. (x.0, x.1.now)) result (Ok (signed negative term, rest.now)) }
{
    if negative {
        made(Boxed::new(alloc, Term::Neg(term)), rest)
    } else {
        Ok((term, rest))
    }
}

/// A unary term.
#[cycle(terms)]
#[tactic(auto, unfolding(quel_grammar::specs::TermReaders::unary_by, quel_grammar::specs::TermReaders::signed_by))]
fn unary_by<'a>(alloc: Global, depth: u16, tokens: &'a [Token]) -> Read<'a, Boxed<Term>>
    ensures { Gives (λ x. (x.0, x.1.now)) result (unary_by (level depth) tokens.now) }
{
    match sign_at(tokens) {
        Some((negative, rest)) => {
            let Some(lower) = below(depth) else {
                return Err(Halt::Stop(rest));
            };
            match unary_by(alloc, lower, rest) {
                Ok((term, rest)) => signed(alloc, negative, term, rest),
                Err(halt) => Err(halt),
            }
        }
        None => prim_by(alloc, depth, tokens),
    }
}

/// The rest of a power, whose base is this term.
#[cycle(terms)]
#[tactic(auto, unfolding(quel_grammar::specs::TermReaders::power_by, quel_grammar::specs::TermReaders::raised_by))]
fn power_by<'a>(
    alloc: Global,
    depth: u16,
    base: Boxed<Term>,
    tokens: &'a [Token],
) -> Read<'a, Boxed<Term>>
    ensures { Gives (λ x. (x.0, x.1.now)) result (power_by (level depth) base tokens.now) }
{
    match found(Fixed::Power, tokens) {
        Some(rest) => {
            let Some(lower) = below(depth) else {
                return Err(Halt::Stop(rest));
            };
            match pow_by(alloc, lower, rest) {
                Ok((power, rest)) => arith(alloc, ArithOp::Pow, base, power, rest),
                Err(halt) => Err(halt),
            }
        }
        None => Ok((base, tokens)),
    }
}

/// A power.
#[cycle(terms)]
#[tactic(auto, unfolding(quel_grammar::specs::TermReaders::pow_by))]
fn pow_by<'a>(alloc: Global, depth: u16, tokens: &'a [Token]) -> Read<'a, Boxed<Term>>
    ensures { Gives (λ x. (x.0, x.1.now)) result (pow_by (level depth) tokens.now) }
{
    match unary_by(alloc, depth, tokens) {
        Ok((base, rest)) => power_by(alloc, depth, base, rest),
        Err(halt) => Err(halt),
    }
}

/// The rest of a product, whose left part is this term.
#[cycle(terms)]
#[tactic(auto, unfolding(quel_grammar::specs::TermReaders::products_by, quel_grammar::specs::TermReaders::next_product_by))]
fn products_by<'a>(
    alloc: Global,
    depth: u16,
    left: Boxed<Term>,
    tokens: &'a [Token],
) -> Read<'a, Boxed<Term>>
    ensures { Gives (λ x. (x.0, x.1.now)) result (products_by (level depth) left tokens.now) }
{
    let Some((op, rest)) = product_sign_at(tokens) else {
        return Ok((left, tokens));
    };
    match pow_by(alloc, depth, rest) {
        Ok((right, rest)) => match arith(alloc, op, left, right, rest) {
            Ok((left, rest)) => match below(depth) {
                Some(lower) => products_by(alloc, lower, left, rest),
                None => Err(Halt::Stop(rest)),
            },
            Err(halt) => Err(halt),
        },
        Err(halt) => Err(halt),
    }
}

/// A product.
#[cycle(terms)]
#[tactic(auto, unfolding(quel_grammar::specs::TermReaders::prod_by))]
fn prod_by<'a>(alloc: Global, depth: u16, tokens: &'a [Token]) -> Read<'a, Boxed<Term>>
    ensures { Gives (λ x. (x.0, x.1.now)) result (prod_by (level depth) tokens.now) }
{
    match pow_by(alloc, depth, tokens) {
        Ok((left, rest)) => products_by(alloc, depth, left, rest),
        Err(halt) => Err(halt),
    }
}

/// The rest of a sum, whose left part is this term.
#[cycle(terms)]
#[tactic(auto, unfolding(quel_grammar::specs::TermReaders::sums_by, quel_grammar::specs::TermReaders::next_sum_by))]
fn sums_by<'a>(
    alloc: Global,
    depth: u16,
    left: Boxed<Term>,
    tokens: &'a [Token],
) -> Read<'a, Boxed<Term>>
    ensures { Gives (λ x. (x.0, x.1.now)) result (sums_by (level depth) left tokens.now) }
{
    let Some((op, rest)) = sum_sign_at(tokens) else {
        return Ok((left, tokens));
    };
    match prod_by(alloc, depth, rest) {
        Ok((right, rest)) => match arith(alloc, op, left, right, rest) {
            Ok((left, rest)) => match below(depth) {
                Some(lower) => sums_by(alloc, lower, left, rest),
                None => Err(Halt::Stop(rest)),
            },
            Err(halt) => Err(halt),
        },
        Err(halt) => Err(halt),
    }
}

/// A term.
#[cycle(terms)]
#[tactic(auto, unfolding(quel_grammar::specs::TermReaders::term_by))]
pub fn term_by<'a>(alloc: Global, depth: u16, tokens: &'a [Token]) -> Read<'a, Boxed<Term>>
    ensures { Gives (λ x. (x.0, x.1.now)) result (term_by (level depth) tokens.now) }
{
    match prod_by(alloc, depth, tokens) {
        Ok((left, rest)) => sums_by(alloc, depth, left, rest),
        Err(halt) => Err(halt),
    }
}

/// Terms with commas between them, put behind others; gives the tokens behind them.
#[cycle(terms)]
#[tactic(auto, unfolding(quel_grammar::specs::TermReaders::terms_by))]
pub fn terms_by<'a>(
    alloc: Global,
    depth: u16,
    terms: &mut Vec<Term>,
    tokens: &'a [Token],
) -> Result<&'a [Token], Halt<'a>>
    ensures { Gives (λ rest. (terms.new.items, rest.now)) result (terms_by (level depth) terms.old.items tokens.now) }
{
    let (term, rest) = match term_by(alloc, depth, tokens) {
        Ok(read) => read,
        Err(halt) => return Err(halt),
    };
    terms.push(term.into_inner())?;
    match found(Fixed::Comma, rest) {
        Some(rest) => {
            let Some(lower) = below(depth) else {
                return Err(Halt::Stop(rest));
            };
            terms_by(alloc, lower, terms, rest)
        }
        None => Ok(rest),
    }
}

/// The rest of a term that begins with this one in parentheses.
#[cycle(terms)]
#[tactic(auto, unfolding(quel_grammar::specs::TermReaders::term_from))]
pub fn term_from<'a>(
    alloc: Global,
    depth: u16,
    first: Boxed<Term>,
    tokens: &'a [Token],
) -> Read<'a, Boxed<Term>>
    ensures { Gives (λ x. (x.0, x.1.now)) result (term_from (level depth) first tokens.now) }
{
    match power_by(alloc, depth, first, tokens) {
        Ok((base, rest)) => match products_by(alloc, depth, base, rest) {
            Ok((left, rest)) => sums_by(alloc, depth, left, rest),
            Err(halt) => Err(halt),
        },
        Err(halt) => Err(halt),
    }
}
