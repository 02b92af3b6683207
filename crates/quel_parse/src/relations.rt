//! Statements on whole relations.

ghost use Rattle.std.specs.Prelude.{◌≡◌, option_map};
ghost use Rattle.quel_grammar.specs.PartReaders.{drop_by, way_of, text_of};
ghost use Rattle.quel_grammar.specs.Reading.{first, expect, on_fixed};
ghost use Rattle.quel_grammar.specs.StatementReaders.{range_at, create_by, destroy_names, drop_of, destroy_by, modify_by, index_by, print_by, help_at, copy_by};
ghost use Rattle.quel_parse.specs.Parts.{dropped_of};
ghost use Rattle.quel_terms.specs.View.{Gives};

use crate::lists::{covered_at, list_at};
use crate::numbers::numbers_at;
use crate::stated::boxed;
use crate::structures::structure_by;
use calculus::{Boxed, Chars, List, Name, OutOfMemory, Statement};
use memory::both;
use quel_grammar::{Fixed, Token};
use quel_terms::{Halt, Read, after, name_at, seen_name};
use std::alloc::Global;

/// What is dropped by its numbers.
#[derive(Clone, Copy)]
enum Dropped {
    /// Permits.
    Permits,
    /// Rules of integrity.
    Rules,
}

/// `range`, behind its first word.
#[tactic(auto, unfolding(quel_grammar::specs::StatementReaders::range_at))]
pub fn range_at<'a>(alloc: Global, tokens: &'a [Token]) -> Read<'a, Boxed<Statement>>
    ensures { Gives (λ x. (x.0, x.1.now)) result (range_at tokens.now) }
{
    let rest = after(Fixed::Of, tokens)?;
    let (var, rest) = seen_name(rest)?;
    let rest = after(Fixed::Is, rest)?;
    match seen_name(rest) {
        Ok((rel, rest)) => match both(var.copy(alloc), rel.copy(alloc)) {
            Ok((var, rel)) => boxed(alloc, Statement::Range { var, rel }, rest),
            Err(OutOfMemory) => Err(Halt::Memory),
        },
        Err(halt) => Err(halt),
    }
}

/// `create`, behind its first word.
#[tactic(auto, unfolding(quel_grammar::specs::StatementReaders::create_by))]
pub fn create_by<'a>(alloc: Global, most: u16, tokens: &'a [Token]) -> Read<'a, Boxed<Statement>>
    ensures { Gives (λ x. (x.0, x.1.now)) result (create_by most tokens.now) }
{
    match name_at(alloc, tokens) {
        Ok((rel, rest)) => match covered_at(alloc, most, rest) {
            Ok((attrs, rest)) => {
                let attrs = List::of(attrs);
                boxed(alloc, Statement::Create { rel, attrs }, rest)
            }
            Err(halt) => Err(halt),
        },
        Err(halt) => Err(halt),
    }
}

/// `destroy`, of relations.
#[tactic(auto, unfolding(quel_grammar::specs::StatementReaders::destroy_names))]
fn destroy_names<'a>(alloc: Global, most: u16, tokens: &'a [Token]) -> Read<'a, Boxed<Statement>>
    ensures { Gives (λ x. (x.0, x.1.now)) result (destroy_names most tokens.now) }
{
    match list_at(alloc, most, tokens) {
        Ok((names, rest)) => {
            let rels = List::of(names);
            boxed(alloc, Statement::Destroy { rels }, rest)
        }
        Err(halt) => Err(halt),
    }
}

/// `permit` or `integrity` behind `destroy`, where one stands there.
fn dropped_at(tokens: &[Token]) -> Option<(Dropped, &[Token])>
    ensures { option_map (λ x. (dropped_of x.0, x.1.now)) result ≡ first (on_fixed drop_of) tokens.now }
{
    match tokens {
        [Token::Fixed(fixed), rest @ ..] => match *fixed {
            Fixed::Permit => Some((Dropped::Permits, rest)),
            Fixed::Integrity => Some((Dropped::Rules, rest)),
            _ => None,
        },
        _ => None,
    }
}

/// The statement that drops these.
fn dropped_of(dropped: Dropped, rel: Name, numbers: List<u32>) -> Statement
    ensures { result ≡ dropped_of dropped rel numbers }
{
    match dropped {
        Dropped::Permits => Statement::DropPermits { rel, numbers },
        Dropped::Rules => Statement::DropRules { rel, numbers },
    }
}

/// A relation and numbers.
#[tactic(auto, unfolding(quel_grammar::specs::PartReaders::drop_by))]
fn drop_by<'a>(
    alloc: Global,
    most: u16,
    dropped: Dropped,
    tokens: &'a [Token],
) -> Read<'a, Boxed<Statement>>
    ensures { Gives (λ x. (x.0, x.1.now)) result (drop_by most (dropped_of dropped) tokens.now) }
{
    match name_at(alloc, tokens) {
        Ok((rel, rest)) => match numbers_at(alloc, most, rest) {
            Ok((numbers, rest)) => {
                let statement = dropped_of(dropped, rel, List::of(numbers));
                boxed(alloc, statement, rest)
            }
            Err(halt) => Err(halt),
        },
        Err(halt) => Err(halt),
    }
}

/// `destroy`, behind its first word.
#[tactic(auto, unfolding(quel_grammar::specs::StatementReaders::destroy_by))]
pub fn destroy_by<'a>(alloc: Global, most: u16, tokens: &'a [Token]) -> Read<'a, Boxed<Statement>>
    ensures { Gives (λ x. (x.0, x.1.now)) result (destroy_by most tokens.now) }
{
    match dropped_at(tokens) {
        Some((dropped, rest)) => drop_by(alloc, most, dropped, rest),
        None => destroy_names(alloc, most, tokens),
    }
}

/// `modify`, behind its first word.
#[tactic(auto, unfolding(quel_grammar::specs::StatementReaders::modify_by))]
pub fn modify_by<'a>(alloc: Global, most: u16, tokens: &'a [Token]) -> Read<'a, Boxed<Statement>>
    ensures { Gives (λ x. (x.0, x.1.now)) result (modify_by most tokens.now) }
{
    match name_at(alloc, tokens) {
        Ok((rel, rest)) => match after(Fixed::To, rest) {
            Ok(rest) => match structure_by(alloc, most, rest) {
                Ok(((to, keys), rest)) => {
                    let keys = List::of(keys);
                    boxed(alloc, Statement::Modify { rel, to, keys }, rest)
                }
                Err(halt) => Err(halt),
            },
            Err(halt) => Err(halt),
        },
        Err(halt) => Err(halt),
    }
}

/// `index`, behind its first word.
#[tactic(auto, unfolding(quel_grammar::specs::StatementReaders::index_by, quel_grammar::specs::PartReaders::in_parens))]
pub fn index_by<'a>(alloc: Global, most: u16, tokens: &'a [Token]) -> Read<'a, Boxed<Statement>>
    ensures { Gives (λ x. (x.0, x.1.now)) result (index_by most tokens.now) }
{
    let rest = after(Fixed::On, tokens)?;
    let (base, rest) = seen_name(rest)?;
    let rest = after(Fixed::Is, rest)?;
    let (name, rest) = seen_name(rest)?;
    match covered_at(alloc, most, rest) {
        Ok((keys, rest)) => match both(base.copy(alloc), name.copy(alloc)) {
            Ok((base, name)) => {
                let keys = List::of(keys);
                boxed(alloc, Statement::Index { base, name, keys }, rest)
            }
            Err(OutOfMemory) => Err(Halt::Memory),
        },
        Err(halt) => Err(halt),
    }
}

/// `print`, behind its first word.
#[tactic(auto, unfolding(quel_grammar::specs::StatementReaders::print_by))]
pub fn print_by<'a>(alloc: Global, most: u16, tokens: &'a [Token]) -> Read<'a, Boxed<Statement>>
    ensures { Gives (λ x. (x.0, x.1.now)) result (print_by most tokens.now) }
{
    match list_at(alloc, most, tokens) {
        Ok((names, rest)) => {
            let rels = List::of(names);
            boxed(alloc, Statement::Print { rels }, rest)
        }
        Err(halt) => Err(halt),
    }
}

/// `help`, behind its first word.
#[tactic(auto, unfolding(quel_grammar::specs::StatementReaders::help_at))]
pub fn help_at<'a>(alloc: Global, tokens: &'a [Token]) -> Read<'a, Boxed<Statement>>
    ensures { Gives (λ x. (x.0, x.1.now)) result (help_at tokens.now) }
{
    match tokens {
        [Token::Name(name), rest @ ..] => match name.copy(alloc) {
            Ok(name) => boxed(alloc, Statement::Help { rel: Some(name) }, rest),
            Err(OutOfMemory) => Err(Halt::Memory),
        },
        _ => boxed(alloc, Statement::Help { rel: None }, tokens),
    }
}

/// `from` or `into`, which must stand there, and whether it is `from`.
fn way_at(tokens: &[Token]) -> Read<'_, bool>
    ensures { Gives (λ x. (x.0, x.1.now)) result (expect (on_fixed way_of) tokens.now) }
{
    match tokens {
        [Token::Fixed(Fixed::From), rest @ ..] => Ok((true, rest)),
        [Token::Fixed(Fixed::Into), rest @ ..] => Ok((false, rest)),
        _ => Err(Halt::Stop(tokens)),
    }
}

/// A text constant, which must stand there.
fn seen_file(tokens: &[Token]) -> Read<'_, &Chars>
    ensures { Gives (λ x. (x.0.now, x.1.now)) result (expect text_of tokens.now) }
{
    match tokens {
        [Token::Text(text), rest @ ..] => Ok((text, rest)),
        _ => Err(Halt::Stop(tokens)),
    }
}

/// `copy`, behind its first word.
#[tactic(auto, unfolding(quel_grammar::specs::StatementReaders::copy_by))]
pub fn copy_by<'a>(alloc: Global, most: u16, tokens: &'a [Token]) -> Read<'a, Boxed<Statement>>
    ensures { Gives (λ x. (x.0, x.1.now)) result (copy_by most tokens.now) }
{
    let (rel, rest) = seen_name(tokens)?;
    let (columns, rest) = covered_at(alloc, most, rest)?;
    match way_at(rest) {
        Ok((from, rest)) => match seen_file(rest) {
            Ok((file, rest)) => match both(rel.copy(alloc), file.copy(alloc)) {
                Ok((rel, file)) => {
                    let columns = List::of(columns);
                    let statement = Statement::Copy {
                        rel,
                        columns,
                        from,
                        file,
                    };
                    boxed(alloc, statement, rest)
                }
                Err(OutOfMemory) => Err(Halt::Memory),
            },
            Err(halt) => Err(halt),
        },
        Err(halt) => Err(halt),
    }
}
