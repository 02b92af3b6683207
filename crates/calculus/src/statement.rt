//! Statements as they are written, with names that nothing was found for yet.

use crate::operator::{AggOp, ArithOp, CmpOp};
use crate::request::CopyForm;
use crate::schema::Spec;
use crate::value::Domain;
use crate::{Boxed, Chars, List, Name};

/// A term: what has a value in each assignment of rows to variables.
#[cycle(statement)]
pub enum Term {
    /// A whole number.
    Int(i64),
    /// A text constant.
    Chars(Chars),
    /// The attribute of a range variable.
    Attr {
        /// The range variable.
        var: Name,
        /// The attribute.
        attr: Name,
    },
    /// `- TERM`
    Neg(Boxed<Term>),
    /// `abs(TERM)`
    Abs(Boxed<Term>),
    /// Two terms with an operator between them, or `mod(TERM, TERM)`
    Arith {
        /// The operation.
        op: ArithOp,
        /// The term on the left.
        left: Boxed<Term>,
        /// The term on the right.
        right: Boxed<Term>,
    },
    /// `concat(TERM, TERM)`
    Concat {
        /// The text in front.
        left: Boxed<Term>,
        /// The text behind.
        right: Boxed<Term>,
    },
    /// An aggregate.
    Agg(Boxed<AggTerm>),
}

impl Drop for Term {
    #[cycle(statement_drop)]
    fn drop(self) {
        match self {
            Term::Int(_)
            | Term::Chars(_)
            | Term::Attr { var: _, attr: _ }
            | Term::Neg(_)
            | Term::Abs(_)
            | Term::Arith {
                op: _,
                left: _,
                right: _,
            }
            | Term::Concat { left: _, right: _ }
            | Term::Agg(_) => {}
        }
    }
}

/// An aggregate: `NAME(TERM [by TERM, ..] [where QUALIFICATION])`
#[cycle(statement)]
pub struct AggTerm {
    /// What is made of the values.
    pub op: AggOp,
    /// The term whose values are taken.
    pub arg: Term,
    /// The terms that group the rows.
    pub by: List<Term>,
    /// Which rows are taken.
    pub qual: Qual,
}

impl Drop for AggTerm {
    #[cycle(statement_drop)]
    fn drop(self) {
        let Self {
            op: _,
            arg: _,
            by: _,
            qual: _,
        } = self;
    }
}

/// A qualification: what holds, or doesn't, in each assignment of rows to variables.
#[cycle(statement)]
pub enum Qual {
    /// Holds in every assignment; it stands where no `where` is written.
    True,
    /// Two terms compared.
    Cmp {
        /// How they are compared.
        op: CmpOp,
        /// The term on the left.
        left: Term,
        /// The term on the right.
        right: Term,
    },
    /// `QUALIFICATION and QUALIFICATION`
    And(Boxed<Qual>, Boxed<Qual>),
    /// `QUALIFICATION or QUALIFICATION`
    Or(Boxed<Qual>, Boxed<Qual>),
    /// `not QUALIFICATION`
    Not(Boxed<Qual>),
}

impl Drop for Qual {
    #[cycle(statement_drop)]
    fn drop(self) {
        match self {
            Qual::True
            | Qual::Cmp {
                op: _,
                left: _,
                right: _,
            }
            | Qual::And(_, _)
            | Qual::Or(_, _)
            | Qual::Not(_) => {}
        }
    }
}

/// An item of a target list.
pub enum Item {
    /// `NAME = TERM`
    Set {
        /// The title of a result's column, or the attribute that is set.
        name: Name,
        /// Its value.
        term: Term,
    },
    /// `VARIABLE.ATTRIBUTE`, whose title is the attribute's name
    Attr {
        /// The range variable.
        var: Name,
        /// The attribute.
        attr: Name,
    },
    /// `VARIABLE.all`: each attribute of the variable under its own name
    All {
        /// The range variable.
        var: Name,
    },
}

impl Drop for Item {
    fn drop(self) {
        match self {
            Item::Set { name: _, term: _ }
            | Item::Attr { var: _, attr: _ }
            | Item::All { var: _ } => {}
        }
    }
}

/// A statement.
pub enum Statement {
    /// `range of VARIABLE is RELATION`
    Range {
        /// The range variable.
        var: Name,
        /// The relation.
        rel: Name,
    },
    /// `retrieve [into RELATION] (TARGETS) [where QUALIFICATION] [sort by KEYS]`
    Retrieve {
        /// The relation that keeps the result; none where it is printed.
        into: Option<Name>,
        /// The target list.
        items: List<Item>,
        /// The qualification.
        qual: Qual,
        /// The titles to sort by, each with whether it descends.
        sort: List<(Name, bool)>,
    },
    /// `append to RELATION (TARGETS) [where QUALIFICATION]`
    Append {
        /// The relation that gains rows.
        rel: Name,
        /// The target list.
        items: List<Item>,
        /// The qualification.
        qual: Qual,
    },
    /// `replace VARIABLE (TARGETS) [where QUALIFICATION]`
    Replace {
        /// The range variable whose rows are replaced.
        var: Name,
        /// The target list.
        items: List<Item>,
        /// The qualification.
        qual: Qual,
    },
    /// `delete VARIABLE [where QUALIFICATION]`
    Delete {
        /// The range variable whose rows are deleted.
        var: Name,
        /// The qualification.
        qual: Qual,
    },
    /// `create RELATION (ATTRIBUTE = DOMAIN, ..)`
    Create {
        /// The new relation.
        rel: Name,
        /// Its attributes with their domains.
        attrs: List<(Name, Domain)>,
    },
    /// `destroy NAME, ..`
    Destroy {
        /// The relations, views and indexes that go.
        rels: List<Name>,
    },
    /// `destroy permit RELATION all` or `destroy permit RELATION NUMBER, ..`
    DropPermits {
        /// The relation.
        rel: Name,
        /// The numbers of the permits that go; none means all.
        numbers: List<u32>,
    },
    /// `destroy integrity RELATION all` or `destroy integrity RELATION NUMBER, ..`
    DropRules {
        /// The relation.
        rel: Name,
        /// The numbers of the rules that go; none means all.
        numbers: List<u32>,
    },
    /// `modify RELATION to STRUCTURE [on ATTRIBUTE, ..]`
    Modify {
        /// The relation.
        rel: Name,
        /// The structure: a heap, a hash or an ISAM structure.
        to: Spec,
        /// Its key attributes; none where none is written.
        keys: List<Name>,
    },
    /// `index on RELATION is NAME (ATTRIBUTE, ..)`
    Index {
        /// The relation.
        base: Name,
        /// The index.
        name: Name,
        /// Its key attributes.
        keys: List<Name>,
    },
    /// `print RELATION, ..`
    Print {
        /// The relations, views and catalogues that are printed, in order.
        rels: List<Name>,
    },
    /// `help` or `help RELATION`
    Help {
        /// What is asked about; none where all relations are listed.
        rel: Option<Name>,
    },
    /// `copy RELATION (ATTRIBUTE = FORM, ..) from "FILE"`, or `into "FILE"`
    Copy {
        /// The relation.
        rel: Name,
        /// The attributes with the forms of their columns, in the order of the file.
        columns: List<(Name, CopyForm)>,
        /// Whether the rows come from the file; else they go into it.
        from: bool,
        /// The file's name, as it is written.
        file: Chars,
    },
    /// `define view NAME (TARGETS) [where QUALIFICATION]`
    View {
        /// The view.
        name: Name,
        /// The target list.
        items: List<Item>,
        /// The qualification.
        qual: Qual,
    },
    /// `define permit OPERATION, .. on VARIABLE [(ATTRIBUTE, ..)] to USER [where QUALIFICATION]`
    Permit {
        /// The operations, as a sum: 1 retrieve, 2 append, 4 replace, 8 delete.
        ops: u8,
        /// The range variable over the relation.
        var: Name,
        /// The attributes that it covers; none means all.
        attrs: List<Name>,
        /// The user that it is for; none means all.
        user: Option<Name>,
        /// The rows that it is for.
        qual: Qual,
    },
    /// `define integrity on VARIABLE is QUALIFICATION`
    Rule {
        /// The range variable over the relation.
        var: Name,
        /// What must hold of each new row.
        qual: Qual,
    },
}

impl Drop for Statement {
    fn drop(self) {
        match self {
            Statement::Range { var: _, rel: _ }
            | Statement::Retrieve {
                into: _,
                items: _,
                qual: _,
                sort: _,
            }
            | Statement::Append {
                rel: _,
                items: _,
                qual: _,
            }
            | Statement::Replace {
                var: _,
                items: _,
                qual: _,
            }
            | Statement::Delete { var: _, qual: _ }
            | Statement::Create { rel: _, attrs: _ }
            | Statement::Destroy { rels: _ }
            | Statement::DropPermits { rel: _, numbers: _ }
            | Statement::DropRules { rel: _, numbers: _ }
            | Statement::Modify {
                rel: _,
                to: _,
                keys: _,
            }
            | Statement::Index {
                base: _,
                name: _,
                keys: _,
            }
            | Statement::Print { rels: _ }
            | Statement::Help { rel: _ }
            | Statement::Copy {
                rel: _,
                columns: _,
                from: _,
                file: _,
            }
            | Statement::View {
                name: _,
                items: _,
                qual: _,
            }
            | Statement::Permit {
                ops: _,
                var: _,
                attrs: _,
                user: _,
                qual: _,
            }
            | Statement::Rule { var: _, qual: _ } => {}
        }
    }
}
