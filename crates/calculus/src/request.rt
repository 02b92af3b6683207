//! What the query processor and the utilities are asked for: statements whose names were found and
//! whose checks were made.

use crate::query::{QQual, Query, RelKey};
use crate::schema::{Attr, Permit, Rule, Spec};
use crate::{Chars, List, Name};

/// A column to sort by.
#[derive(Clone, Copy)]
pub struct SortKey {
    /// The place of the column, counted from 0.
    pub column: u16,
    /// Whether greater values come first.
    pub down: bool,
}

/// A query whose rows are printed, with the order of the rows.
pub struct Asked {
    /// The query.
    pub query: Query,
    /// The columns to sort by, the weightiest first; rows that agree in all of them ascend.
    pub sort: List<SortKey>,
}

impl Drop for Asked {
    fn drop(self) {
        let Self { query: _, sort: _ } = self;
    }
}

/// What an update does.
#[derive(Clone, Copy)]
pub enum UpdateOp {
    /// Puts new rows beside the old ones.
    Append,
    /// Puts a new row in place of an old one.
    Replace,
    /// Takes rows out.
    Delete,
    /// Makes a relation of an answer.
    Into,
}

/// An update of one relation.
pub struct Update {
    /// What it does.
    pub op: UpdateOp,
    /// The relation that is changed or made.
    pub rel: RelKey,
    /// The variable of the query whose rows are replaced or deleted; 255 where there is none.
    pub old: u8,
    /// The places of the attributes that get new values, counted from 0, item by item beside the
    /// targets of the query.
    pub places: List<u8>,
    /// The query whose targets are the new values.
    pub query: Query,
    /// What must hold of a new row for it to be put; their only variable is 0, the new row.
    pub checks: List<QQual>,
    /// What must hold of a new row for the user to put it; its only variable is 0, the new row.
    pub new_cut: QQual,
}

impl Drop for Update {
    fn drop(self) {
        let Self {
            op: _,
            rel: _,
            old: _,
            places: _,
            query: _,
            checks: _,
            new_cut: _,
        } = self;
    }
}

/// The form of a column in a file that is copied.
#[derive(Clone, Copy)]
pub enum CopyForm {
    /// A number of 1, 2 or 4 bytes, the low byte first: `i1`, `i2`, `i4`.
    Bin(u8),
    /// Exactly so many bytes, 1 to 255: `c1` to `c255`.
    Fixed(u8),
    /// The bytes up to this one, which is a tab, a newline, a blank, a comma or a colon: `c0tab`,
    /// `c0nl`, `c0sp`, `c0comma`, `c0colon`.
    Until(u8),
}

/// A column of a file that is copied.
#[derive(Clone, Copy)]
pub struct CopyCol {
    /// The place of its attribute, counted from 0.
    pub attr: u8,
    /// Its form in the file.
    pub form: CopyForm,
}

/// What the utilities are asked for.
pub enum Utility {
    /// To make a relation without rows.
    Create {
        /// What is to name it.
        rel: RelKey,
        /// Its attributes.
        attrs: List<Attr>,
    },
    /// To take relations, views and indexes away.
    Destroy {
        /// What names them.
        rels: List<RelKey>,
    },
    /// To store a relation in another structure.
    Modify {
        /// The relation.
        rel: RelKey,
        /// The structure: a heap, a hash or an ISAM structure.
        to: Spec,
        /// The places of its key attributes, counted from 0.
        keys: List<u8>,
    },
    /// To make a secondary index.
    Index {
        /// The relation that it is for.
        base: RelKey,
        /// The name of the index.
        name: Name,
        /// The places of its key attributes, counted from 0.
        keys: List<u8>,
    },
    /// To copy rows from a file, or into one.
    Copy {
        /// The relation.
        rel: RelKey,
        /// The columns of the file.
        columns: List<CopyCol>,
        /// Whether the rows come from the file; else they go into it.
        from: bool,
        /// The file's name, as it is written.
        file: Chars,
    },
    /// To define a view.
    View {
        /// What is to name it.
        rel: RelKey,
        /// The query whose rows it has.
        query: Query,
    },
    /// To define a permit.
    Permit {
        /// The relation.
        rel: RelKey,
        /// The permit, with the number 0.
        permit: Permit,
    },
    /// To define an integrity rule.
    Rule {
        /// The relation.
        rel: RelKey,
        /// The rule, with the number 0.
        rule: Rule,
    },
    /// To take permits away.
    DropPermits {
        /// The relation.
        rel: RelKey,
        /// Their numbers; none means all.
        numbers: List<u32>,
    },
    /// To take integrity rules away.
    DropRules {
        /// The relation.
        rel: RelKey,
        /// Their numbers; none means all.
        numbers: List<u32>,
    },
}

impl Drop for Utility {
    fn drop(self) {
        match self {
            Utility::Create { rel: _, attrs: _ }
            | Utility::Destroy { rels: _ }
            | Utility::Modify {
                rel: _,
                to: _,
                keys: _,
            }
            | Utility::Index {
                base: _,
                name: _,
                keys: _,
            }
            | Utility::Copy {
                rel: _,
                columns: _,
                from: _,
                file: _,
            }
            | Utility::View { rel: _, query: _ }
            | Utility::Permit { rel: _, permit: _ }
            | Utility::Rule { rel: _, rule: _ }
            | Utility::DropPermits { rel: _, numbers: _ }
            | Utility::DropRules { rel: _, numbers: _ } => {}
        }
    }
}

/// A statement whose names were found and whose checks were made.
pub enum Checked {
    /// Queries whose rows are printed, one table each.
    Answer(List<Asked>),
    /// An update of a relation.
    Update(Update),
    /// Work for the utilities.
    Utility(Utility),
}

impl Drop for Checked {
    fn drop(self) {
        match self {
            Checked::Answer(_) | Checked::Update(_) | Checked::Utility(_) => {}
        }
    }
}
