//! Lists of parts with commas between them.

ghost use Rattle.std.specs.Prelude.{◌≡◌, ℕ, suc, [], IfSome, None};
ghost use Rattle.quel_grammar.specs.PartReaders.{list_by, closed, in_parens};
ghost use Rattle.quel_grammar.specs.Reading.{Reader};
ghost use Rattle.quel_terms.specs.View.{Gives};

use quel_grammar::{Fixed, Token};
use quel_terms::{Halt, Read, found};
use std::alloc::Global;

/// What stands in lists.
pub(crate) trait Listed {
    /// How one is read in a statement of at most so many tokens.
    ghost reader: { ℕ → Reader Self };

    /// One that is read.
    fn read<'a>(alloc: Global, depth: u16, tokens: &'a [Token]) -> Read<'a, Self>
        ensures { Gives (λ x. (x.0, x.1.now)) result (reader depth tokens.now) };
}

/// One less, where there is one.
#[tactic(auto, using(crate::proofs::Levels::one_more))]
fn one_less(most: u16) -> Option<u16>
    ensures less { IfSome result (λ less. most ≡ suc less) }
    ensures none { result ≡ None → most ≡ 0 }
{
    if most == 0 {
        return None;
    }
    Some(most - 1)
}

/// Parts with commas between them, put behind others; at most so many. Gives the tokens behind
/// them.
#[tactic(auto, unfolding(quel_grammar::specs::PartReaders::list_by))]
fn list_from<'a, T: Listed + Drop>(
    alloc: Global,
    depth: u16,
    most: u16,
    items: &mut Vec<T>,
    tokens: &'a [Token],
) -> Result<&'a [Token], Halt<'a>>
    ensures { Gives (λ rest. (items.new.items, rest.now)) result (list_by (T.reader depth) most items.old.items tokens.now) }
{
    let Some(less) = one_less(most) else {
        return Err(Halt::Stop(tokens));
    };
    match T::read(alloc, depth, tokens) {
        Ok((item, rest)) => match items.push(item) {
            Ok(()) => match found(Fixed::Comma, rest) {
                Some(rest) => list_from(alloc, depth, less, items, rest),
                None => Ok(rest),
            },
            Err(_) => Err(Halt::Memory),
        },
        Err(halt) => Err(halt),
    }
}

/// Parts with commas between them.
pub(crate) fn list_at<'a, T: Listed + Drop>(
    alloc: Global,
    depth: u16,
    tokens: &'a [Token],
) -> Read<'a, Vec<T>>
    ensures { Gives (λ x. (x.0.items, x.1.now)) result (list_by (T.reader depth) depth [] tokens.now) }
{
    let mut items = Vec::new(alloc);
    match list_from(alloc, depth, depth, &mut items, tokens) {
        Ok(rest) => Ok((items, rest)),
        Err(halt) => Err(halt),
    }
}

/// Parts and the closing parenthesis, behind the open one.
#[tactic(auto, unfolding(quel_grammar::specs::PartReaders::closed))]
pub(crate) fn closed_at<'a, T: Listed + Drop>(
    alloc: Global,
    depth: u16,
    tokens: &'a [Token],
) -> Read<'a, Vec<T>>
    ensures { Gives (λ x. (x.0.items, x.1.now)) result (closed (list_by (T.reader depth) depth []) tokens.now) }
{
    match list_at(alloc, depth, tokens) {
        Ok((items, rest)) => match found(Fixed::Close, rest) {
            Some(rest) => Ok((items, rest)),
            None => Err(Halt::Stop(rest)),
        },
        Err(halt) => Err(halt),
    }
}

/// Parts in parentheses.
#[tactic(auto, unfolding(quel_grammar::specs::PartReaders::in_parens))]
pub(crate) fn covered_at<'a, T: Listed + Drop>(
    alloc: Global,
    depth: u16,
    tokens: &'a [Token],
) -> Read<'a, Vec<T>>
    ensures { Gives (λ x. (x.0.items, x.1.now)) result (in_parens (list_by (T.reader depth) depth []) tokens.now) }
{
    match found(Fixed::Open, tokens) {
        Some(rest) => closed_at(alloc, depth, rest),
        None => Err(Halt::Stop(tokens)),
    }
}
