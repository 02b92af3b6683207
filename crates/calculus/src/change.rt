//! What changes in a database.

ghost use Rattle.std.specs.Prelude.{◌≡◌};

use crate::query::{Query, RelKey};
use crate::schema::{Permit, RelInfo, Rule, Spec};
use crate::{List, Name, Row, RowSet};

/// What an update does with one row.
#[derive(PartialEq, Eq)]
pub struct Pair {
    /// The row that is replaced or deleted; none where a row is appended.
    pub old: Option<Row>,
    /// The row that is put; none where a row is deleted.
    pub new: Option<Row>,
}

impl Drop for Pair {
    fn drop(self) {
        let Self { old: _, new: _ } = self;
    }
}

/// What changes in the rows of one relation.
#[derive(PartialEq, Eq)]
pub struct Change {
    /// The rows that go.
    pub remove: RowSet,
    /// The rows that come.
    pub add: RowSet,
}

impl Drop for Change {
    fn drop(self) {
        let Self { remove: _, add: _ } = self;
    }
}

impl Change {
    /// The rows that go, and those that come. Takes no memory.
    pub fn into_parts(self) -> (RowSet, RowSet)
        ensures { result ≡ (self.remove, self.add) }
    {
        let Self { remove, add } = self;
        (remove, add)
    }
}

/// A change of a database.
pub enum DbChange {
    /// Rows of a relation go and come.
    Rows {
        /// The relation.
        rel: RelKey,
        /// The rows that go.
        remove: List<Row>,
        /// The rows that come.
        add: List<Row>,
    },
    /// A relation is made.
    Create {
        /// What it is.
        info: RelInfo,
        /// Its rows.
        rows: List<Row>,
    },
    /// Relations, views and indexes go.
    Destroy {
        /// What names them.
        rels: List<RelKey>,
    },
    /// A relation is stored in another structure.
    Modify {
        /// The relation.
        rel: RelKey,
        /// The structure: a heap, a hash or an ISAM structure.
        to: Spec,
        /// The places of its key attributes, counted from 0.
        keys: List<u8>,
    },
    /// A secondary index is made.
    Index {
        /// The relation that it is for.
        base: RelKey,
        /// The name of the index.
        name: Name,
        /// The places of its key attributes, counted from 0.
        keys: List<u8>,
    },
    /// A view is made.
    View {
        /// What it is.
        info: RelInfo,
        /// The query whose rows it has.
        query: Query,
    },
    /// A permit is made.
    Permit {
        /// The relation.
        rel: RelKey,
        /// The permit, with its number.
        permit: Permit,
    },
    /// An integrity rule is made.
    Rule {
        /// The relation.
        rel: RelKey,
        /// The rule, with its number.
        rule: Rule,
    },
    /// Permits go.
    DropPermits {
        /// The relation.
        rel: RelKey,
        /// Their numbers, ascending.
        numbers: List<u32>,
    },
    /// Integrity rules go.
    DropRules {
        /// The relation.
        rel: RelKey,
        /// Their numbers, ascending.
        numbers: List<u32>,
    },
}

impl Drop for DbChange {
    fn drop(self) {
        match self {
            DbChange::Rows {
                rel: _,
                remove: _,
                add: _,
            }
            | DbChange::Create { info: _, rows: _ }
            | DbChange::Destroy { rels: _ }
            | DbChange::Modify {
                rel: _,
                to: _,
                keys: _,
            }
            | DbChange::Index {
                base: _,
                name: _,
                keys: _,
            }
            | DbChange::View { info: _, query: _ }
            | DbChange::Permit { rel: _, permit: _ }
            | DbChange::Rule { rel: _, rule: _ }
            | DbChange::DropPermits { rel: _, numbers: _ }
            | DbChange::DropRules { rel: _, numbers: _ } => {}
        }
    }
}
