//! Statements with a name, a target list and a qualification.

ghost use Rattle.std.specs.Prelude.{◌≡◌};
ghost use Rattle.quel_grammar.specs.StatementReaders.{changed_by, append_by, delete_by, retrieve_by};
ghost use Rattle.quel_grammar.specs.TermReaders.{level};
ghost use Rattle.quel_parse.specs.Parts.{change_of};
ghost use Rattle.quel_terms.specs.View.{Gives};

use crate::lists::covered_at;
use crate::sort_keys::sort_by;
use crate::stated::boxed;
use crate::targets::{into_at, maybe, where_by};
use calculus::{Boxed, Item, List, Name, Qual, Statement};
use quel_grammar::{Fixed, Token};
use quel_terms::{Read, name_at};
use std::alloc::Global;

/// What is done with a name, a target list and a qualification.
#[derive(Clone, Copy)]
pub enum Change {
    /// `append`
    Append,
    /// `replace`
    Replace,
    /// `define view`
    View,
}

/// The statement.
fn change_of(change: Change, name: Name, items: List<Item>, qual: Qual) -> Statement
    ensures { result ≡ change_of change name items qual }
{
    match change {
        Change::Append => Statement::Append {
            rel: name,
            items,
            qual,
        },
        Change::Replace => Statement::Replace {
            var: name,
            items,
            qual,
        },
        Change::View => Statement::View { name, items, qual },
    }
}

/// `append`, `replace` and `define view`, behind the word before the name.
#[tactic(auto, unfolding(quel_grammar::specs::StatementReaders::changed_by))]
pub fn changed_by<'a>(
    alloc: Global,
    depth: u16,
    change: Change,
    tokens: &'a [Token],
) -> Read<'a, Boxed<Statement>>
    ensures { Gives (λ x. (x.0, x.1.now)) result (changed_by depth (level depth) (change_of change) tokens.now) }
{
    match name_at(alloc, tokens) {
        Ok((name, rest)) => match covered_at(alloc, depth, rest) {
            Ok((items, rest)) => match where_by(alloc, depth, rest) {
                Ok((qual, rest)) => {
                    let statement = change_of(change, name, List::of(items), qual.into_inner());
                    boxed(alloc, statement, rest)
                }
                Err(halt) => Err(halt),
            },
            Err(halt) => Err(halt),
        },
        Err(halt) => Err(halt),
    }
}

/// `append`, behind its first word.
#[tactic(auto, unfolding(quel_grammar::specs::StatementReaders::append_by))]
pub fn append_by<'a>(alloc: Global, depth: u16, tokens: &'a [Token]) -> Read<'a, Boxed<Statement>>
    ensures { Gives (λ x. (x.0, x.1.now)) result (append_by depth (level depth) tokens.now) }
{
    let rest = maybe(Fixed::To, tokens);
    changed_by(alloc, depth, Change::Append, rest)
}

/// `delete`, behind its first word.
#[tactic(auto, unfolding(quel_grammar::specs::StatementReaders::delete_by))]
pub fn delete_by<'a>(alloc: Global, depth: u16, tokens: &'a [Token]) -> Read<'a, Boxed<Statement>>
    ensures { Gives (λ x. (x.0, x.1.now)) result (delete_by (level depth) tokens.now) }
{
    match name_at(alloc, tokens) {
        Ok((var, rest)) => match where_by(alloc, depth, rest) {
            Ok((qual, rest)) => {
                let qual = qual.into_inner();
                boxed(alloc, Statement::Delete { var, qual }, rest)
            }
            Err(halt) => Err(halt),
        },
        Err(halt) => Err(halt),
    }
}

/// `retrieve`, behind its first word.
#[tactic(auto, unfolding(quel_grammar::specs::StatementReaders::retrieve_by))]
pub fn retrieve_by<'a>(alloc: Global, depth: u16, tokens: &'a [Token]) -> Read<'a, Boxed<Statement>>
    ensures { Gives (λ x. (x.0, x.1.now)) result (retrieve_by depth (level depth) tokens.now) }
{
    let rest = maybe(Fixed::Unique, tokens);
    let (into, rest) = into_at(alloc, rest)?;
    match covered_at(alloc, depth, rest) {
        Ok((items, rest)) => match where_by(alloc, depth, rest) {
            Ok((qual, rest)) => match sort_by(alloc, depth, rest) {
                Ok((sort, rest)) => {
                    let statement = Statement::Retrieve {
                        into,
                        items: List::of(items),
                        qual: qual.into_inner(),
                        sort: List::of(sort),
                    };
                    boxed(alloc, statement, rest)
                }
                Err(halt) => Err(halt),
            },
            Err(halt) => Err(halt),
        },
        Err(halt) => Err(halt),
    }
}
