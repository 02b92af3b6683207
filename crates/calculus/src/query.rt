//! Queries whose names were found: variables and attributes are places, counted from 0.

ghost use Rattle.std.specs.Prelude.{◌≡◌};
ghost use Rattle.calculus.specs.QueryParts.{chars_or_term};

use crate::operator::{AggOp, ArithOp, CmpOp};
use crate::value::Kind;
use crate::{Boxed, Chars, List, Name};

/// What names a relation, a view, an index or a catalogue.
#[derive(PartialEq, Eq, PartialOrd, Ord, Hash)]
pub struct RelKey {
    /// Its owner.
    pub owner: Name,
    /// Its name, which its owner has given to nothing else.
    pub name: Name,
}

impl Drop for RelKey {
    fn drop(self) {
        let Self { owner: _, name: _ } = self;
    }
}

/// A term: what has a value in each assignment of rows to the query's variables.
#[cycle(query)]
pub enum QTerm {
    /// A whole number.
    Int(i64),
    /// A text constant, as it is written.
    Chars(Chars),
    /// An attribute of a variable's row.
    Attr {
        /// The place of the variable.
        var: u8,
        /// The place of the attribute.
        attr: u8,
    },
    /// A number with the other sign.
    Neg(Boxed<QTerm>),
    /// A number without its sign.
    Abs(Boxed<QTerm>),
    /// An operation on two numbers.
    Arith {
        /// Which operation.
        op: ArithOp,
        /// The term on the left.
        left: Boxed<QTerm>,
        /// The term on the right.
        right: Boxed<QTerm>,
    },
    /// Two texts, one behind the other.
    Concat {
        /// The text in front.
        left: Boxed<QTerm>,
        /// The text behind.
        right: Boxed<QTerm>,
    },
    /// An aggregate.
    Agg(Boxed<QAgg>),
}

impl Drop for QTerm {
    #[cycle(query_drop)]
    fn drop(self) {
        match self {
            QTerm::Int(_)
            | QTerm::Chars(_)
            | QTerm::Attr { var: _, attr: _ }
            | QTerm::Neg(_)
            | QTerm::Abs(_)
            | QTerm::Arith {
                op: _,
                left: _,
                right: _,
            }
            | QTerm::Concat { left: _, right: _ }
            | QTerm::Agg(_) => {}
        }
    }
}

impl QTerm {
    /// The text of a text constant; of any other term, the term. Takes no memory.
    pub fn into_chars(self) -> Result<Chars, QTerm>
        ensures { result ≡ chars_or_term self }
    {
        match self {
            QTerm::Chars(chars) => Ok(chars),
            other => Err(other),
        }
    }
}

/// A qualification: what holds, or doesn't, in each assignment of rows to the query's variables.
#[cycle(query)]
pub enum QQual {
    /// Holds in every assignment.
    True,
    /// Two terms compared.
    Cmp {
        /// How they are compared.
        op: CmpOp,
        /// The term on the left.
        left: QTerm,
        /// The term on the right.
        right: QTerm,
    },
    /// A text matched against a pattern.
    Like {
        /// The text.
        term: QTerm,
        /// The pattern, as it is written.
        pattern: Chars,
        /// Whether it has to match; else it must not.
        same: bool,
    },
    /// Both hold.
    And(Boxed<QQual>, Boxed<QQual>),
    /// At least one holds.
    Or(Boxed<QQual>, Boxed<QQual>),
    /// It doesn't hold.
    Not(Boxed<QQual>),
}

impl Drop for QQual {
    #[cycle(query_drop)]
    fn drop(self) {
        match self {
            QQual::True
            | QQual::Cmp {
                op: _,
                left: _,
                right: _,
            }
            | QQual::Like {
                term: _,
                pattern: _,
                same: _,
            }
            | QQual::And(_, _)
            | QQual::Or(_, _)
            | QQual::Not(_) => {}
        }
    }
}

/// An aggregate over the rows of one source.
#[cycle(query)]
pub struct QAgg {
    /// Its place among the aggregates of the query, counted from 0 in the order of the text.
    pub slot: u16,
    /// What is made of the values.
    pub op: AggOp,
    /// Where the rows come from.
    pub source: AggSource,
    /// The term whose values are taken; its only variable is 0, a row of the source.
    pub arg: QTerm,
    /// The terms that group the rows of the source; their only variable is 0, a row of the source.
    pub by: List<QTerm>,
    /// The terms of the query around that choose the group, item by item beside `by`; their variables
    /// are those of the query around.
    pub link: List<QTerm>,
    /// Which rows of the source are taken; its only variable is 0, a row of the source.
    pub qual: QQual,
}

impl Drop for QAgg {
    #[cycle(query_drop)]
    fn drop(self) {
        let Self {
            slot: _,
            op: _,
            source: _,
            arg: _,
            by: _,
            link: _,
            qual: _,
        } = self;
    }
}

/// Where the rows of an aggregate come from.
#[cycle(query)]
pub enum AggSource {
    /// A relation, a view or a catalogue.
    Named(RelKey),
    /// The rows of a query.
    Rows(Boxed<Query>),
}

impl Drop for AggSource {
    #[cycle(query_drop)]
    fn drop(self) {
        match self {
            AggSource::Named(_) | AggSource::Rows(_) => {}
        }
    }
}

/// A target: a named term.
#[cycle(query)]
pub struct Target {
    /// The title of the column, or the name of the attribute.
    pub name: Name,
    /// What its values are.
    pub kind: Kind,
    /// The term that gives them.
    pub term: QTerm,
}

impl Drop for Target {
    #[cycle(query_drop)]
    fn drop(self) {
        let Self {
            name: _,
            kind: _,
            term: _,
        } = self;
    }
}

/// A query: the rows that its targets have in the assignments in which its qualification holds.
#[cycle(query)]
pub struct Query {
    /// What each variable ranges over.
    pub vars: List<RelKey>,
    /// The targets, in order.
    pub targets: List<Target>,
    /// The qualification.
    pub qual: QQual,
}

impl Drop for Query {
    #[cycle(query_drop)]
    fn drop(self) {
        let Self {
            vars: _,
            targets: _,
            qual: _,
        } = self;
    }
}
