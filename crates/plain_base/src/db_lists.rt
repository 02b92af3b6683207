//! A database as lists in order.

ghost use Rattle.std.specs.Prelude.{◌≡◌, []};

mod applies;
mod asks;
mod changes;
mod known;
mod rows_asked;

use crate::under_keys::{Indexed, Stored, Viewed};
use calculus::{Name, Permit, RelKey, Rule};
use std::alloc::Global;
use std::marker::Model;

/// A database as lists in order. Contracts see the database itself.
pub(crate) struct DbLists {
    dba: Name,
    relations: Vec<Stored>,
    indexes: Vec<Indexed>,
    views: Vec<Viewed>,
    rules: Vec<(RelKey, Rule)>,
    permits: Vec<(RelKey, Permit)>,
}

impl Drop for DbLists {
    fn drop(self) {
        let Self {
            dba: _,
            relations: _,
            indexes: _,
            views: _,
            rules: _,
            permits: _,
        } = self;
    }
}

impl Model for DbLists {
    ghost use Rattle.calculus.specs.Database.{Db};
    ghost use Rattle.calculus.specs.IsDatabase.{IsDatabase};
    ghost use Rattle.calculus.specs.contracts.query.QQual as quals;
    ghost use Rattle.calculus.specs.contracts.query.Query as queries;
    ghost use Rattle.std.specs.Coded.{codes};

    ghost Value = { Db };

    ghost coded = { Prim.hlevel (codes, quals.the_row.coded, queries.the_row.coded) };

    ghost view = { λ d. record { dba = d.dba; relations = d.relations.items; indexes = d.indexes.items; views = d.views.items; rules = d.rules.items; permits = d.permits.items } };

    ghost invariant = { λ d. IsDatabase (record { dba = d.dba; relations = d.relations.items; indexes = d.indexes.items; views = d.views.items; rules = d.rules.items; permits = d.permits.items }) };
}

impl DbLists {
    /// The database of this administrator, without anything in it.
    pub fn new(alloc: Global, dba: Name) -> DbLists
        ensures { result ≡ record { dba = dba; relations = []; indexes = []; views = []; rules = []; permits = [] } }
    {
        let _name = dba.bytes();
        DbLists {
            dba,
            relations: Vec::new(alloc),
            indexes: Vec::new(alloc),
            views: Vec::new(alloc),
            rules: Vec::new(alloc),
            permits: Vec::new(alloc),
        }
    }
}
