//! Target lists, qualifications behind `where`, and where a result is kept.

ghost use Rattle.std.specs.Prelude.{◌≡◌, Ok};
ghost use Rattle.quel_grammar.specs.PartReaders.{maybe, all_target, dot_target, set_target, where_by, name_into, plain_into, into_at};
ghost use Rattle.calculus.specs.declared.statement.Item.TheVariants as items;
ghost use Rattle.quel_grammar.specs.Reading.{first, choose, done, name_of};
ghost use Rattle.quel_grammar.specs.TermReaders.{level};
ghost use Rattle.quel_terms.specs.View.{Gives};

use crate::lists::Listed;
use calculus::{Boxed, Item, Name, OutOfMemory, Qual};
use memory::both;
use quel_grammar::{Fixed, Token};
use quel_terms::{Halt, Read, found, name_at, qual_by, seen_name, term_by};
use std::alloc::Global;

/// The tokens behind a reserved word that may stand there.
#[tactic(auto, unfolding(quel_grammar::specs::PartReaders::maybe))]
pub fn maybe(fixed: Fixed, tokens: &[Token]) -> &[Token]
    ensures { maybe fixed tokens.now ≡ Ok (tt, result.now) }
{
    match found(fixed, tokens) {
        Some(rest) => rest,
        None => tokens,
    }
}

/// All attributes of a variable, behind the dot.
#[tactic(auto, unfolding(quel_grammar::specs::PartReaders::all_target))]
fn all_target<'a>(alloc: Global, var: &Name, tokens: &'a [Token]) -> Read<'a, Item>
    ensures { Gives (λ x. (x.0, x.1.now)) result (all_target var.now tokens.now) }
{
    match found(Fixed::All, tokens) {
        Some(rest) => match var.copy(alloc) {
            Ok(var) => Ok((Item::All { var }, rest)),
            Err(OutOfMemory) => Err(Halt::Memory),
        },
        None => Err(Halt::Stop(tokens)),
    }
}

/// An attribute of a variable or all of them, behind the dot.
fn named_target<'a>(alloc: Global, var: &Name, tokens: &'a [Token]) -> Read<'a, Item>
    ensures { Gives (λ x. (x.0, x.1.now)) result (choose (all_target var.now) (λ a. done (items.Attr var.now a)) tokens.now (first name_of tokens.now)) }
{
    match tokens {
        [Token::Name(attr), rest @ ..] => match both(var.copy(alloc), attr.copy(alloc)) {
            Ok((var, attr)) => Ok((Item::Attr { var, attr }, rest)),
            Err(OutOfMemory) => Err(Halt::Memory),
        },
        _ => all_target(alloc, var, tokens),
    }
}

/// An attribute of a variable or all of them, behind the variable.
#[tactic(auto, unfolding(quel_grammar::specs::PartReaders::dot_target))]
fn dot_target<'a>(alloc: Global, var: &Name, tokens: &'a [Token]) -> Read<'a, Item>
    ensures { Gives (λ x. (x.0, x.1.now)) result (dot_target var.now tokens.now) }
{
    match found(Fixed::Dot, tokens) {
        Some(rest) => named_target(alloc, var, rest),
        None => Err(Halt::Stop(tokens)),
    }
}

/// The term of a title, behind the `=`.
#[tactic(auto, unfolding(quel_grammar::specs::PartReaders::set_target))]
fn set_target<'a>(alloc: Global, depth: u16, name: &Name, tokens: &'a [Token]) -> Read<'a, Item>
    ensures { Gives (λ x. (x.0, x.1.now)) result (set_target (level depth) name.now tokens.now) }
{
    match term_by(alloc, depth, tokens) {
        Ok((term, rest)) => match name.copy(alloc) {
            Ok(name) => {
                let term = term.into_inner();
                Ok((Item::Set { name, term }, rest))
            }
            Err(OutOfMemory) => Err(Halt::Memory),
        },
        Err(halt) => Err(halt),
    }
}

impl Listed for Item {
    ghost use Rattle.quel_grammar.specs.PartReaders.{target_by};
    ghost use Rattle.quel_grammar.specs.TermReaders.{level};

    ghost reader = { λ depth. target_by (level depth) };

    #[tactic(auto, unfolding(quel_grammar::specs::PartReaders::target_by))]
    fn read<'a>(alloc: Global, depth: u16, tokens: &'a [Token]) -> Read<'a, Item> {
        match seen_name(tokens) {
            Ok((name, rest)) => match found(Fixed::Equal, rest) {
                Some(rest) => set_target(alloc, depth, name, rest),
                None => dot_target(alloc, name, rest),
            },
            Err(halt) => Err(halt),
        }
    }
}

/// `where` and a qualification, or nothing.
#[tactic(auto, unfolding(quel_grammar::specs::PartReaders::where_by))]
pub fn where_by<'a>(alloc: Global, depth: u16, tokens: &'a [Token]) -> Read<'a, Boxed<Qual>>
    ensures { Gives (λ x. (x.0, x.1.now)) result (where_by (level depth) tokens.now) }
{
    match found(Fixed::Where, tokens) {
        Some(rest) => qual_by(alloc, depth, rest),
        None => match Boxed::new(alloc, Qual::True) {
            Ok(qual) => Ok((qual, tokens)),
            Err(OutOfMemory) => Err(Halt::Memory),
        },
    }
}

/// The relation that keeps a result, behind `into`.
#[tactic(auto, unfolding(quel_grammar::specs::PartReaders::name_into))]
fn name_into<'a>(alloc: Global, tokens: &'a [Token]) -> Read<'a, Option<Name>>
    ensures { Gives (λ x. (x.0, x.1.now)) result (name_into tokens.now) }
{
    match name_at(alloc, tokens) {
        Ok((name, rest)) => Ok((Some(name), rest)),
        Err(halt) => Err(halt),
    }
}

/// The relation that keeps a result, without `into`; or nothing.
#[tactic(auto, unfolding(quel_grammar::specs::PartReaders::plain_into))]
fn plain_into<'a>(alloc: Global, tokens: &'a [Token]) -> Read<'a, Option<Name>>
    ensures { Gives (λ x. (x.0, x.1.now)) result (plain_into tokens.now) }
{
    match tokens {
        [Token::Name(name), rest @ ..] => match name.copy(alloc) {
            Ok(name) => Ok((Some(name), rest)),
            Err(OutOfMemory) => Err(Halt::Memory),
        },
        _ => Ok((None, tokens)),
    }
}

/// The relation that keeps a result, or nothing.
#[tactic(auto, unfolding(quel_grammar::specs::PartReaders::into_at))]
pub fn into_at<'a>(alloc: Global, tokens: &'a [Token]) -> Read<'a, Option<Name>>
    ensures { Gives (λ x. (x.0, x.1.now)) result (into_at tokens.now) }
{
    match found(Fixed::Into, tokens) {
        Some(rest) => name_into(alloc, rest),
        None => plain_into(alloc, tokens),
    }
}
