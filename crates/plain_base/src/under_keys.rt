//! What stands in a database under a key: relations with their rows, indexes and views.

ghost use Rattle.std.specs.Prelude.{◌≡◌};
ghost use Rattle.calculus.specs.declared.schema.RelInfo.{RelInfo as About};

use calculus::{Query, RelInfo, RelKey, Row};
use std::marker::Model;

/// What is known of something without its rows.
pub(crate) trait Known {
    /// What is known of it.
    ghost known: { Self → About };

    /// What is known of it.
    fn info(&self) -> &RelInfo
        ensures { result.now ≡ known self.now };
}

/// A base relation with the set of its rows, ascending.
pub(crate) struct Stored {
    pub(crate) info: RelInfo,
    pub(crate) rows: Vec<Row>,
}

impl Drop for Stored {
    fn drop(self) {
        let Self { info: _, rows: _ } = self;
    }
}

impl Model for Stored {
    ghost use Rattle.calculus.specs.Database.{Relation};
    ghost use Rattle.calculus.specs.Rows.{Ascends};

    ghost Value = { Relation };

    ghost view = { λ s. record { info = s.info; rows = s.rows.items } };

    ghost invariant = { λ s. Ascends s.rows.items };
}

/// A secondary index, and the relation below it.
pub(crate) struct Indexed {
    pub(crate) info: RelInfo,
    pub(crate) base: RelKey,
}

impl Drop for Indexed {
    fn drop(self) {
        let Self { info: _, base: _ } = self;
    }
}

impl Model for Indexed {
    ghost use Rattle.calculus.specs.Database.{Index};

    ghost Value = { Index };

    ghost view = { λ x. record { info = x.info; base = x.base } };
}

/// A view, and the query whose rows it has.
pub(crate) struct Viewed {
    pub(crate) info: RelInfo,
    pub(crate) query: Query,
}

impl Drop for Viewed {
    fn drop(self) {
        let Self { info: _, query: _ } = self;
    }
}

impl Model for Viewed {
    ghost use Rattle.calculus.specs.Database.{View};
    ghost use Rattle.calculus.specs.contracts.query.Query as queries;
    ghost use Rattle.std.specs.Coded.{codes};

    ghost Value = { View };

    ghost coded = { Prim.hlevel (codes, queries.the_row.coded) };

    ghost view = { λ v. record { info = v.info; query = v.query } };
}

impl Known for Stored {
    ghost known = { λ s. s.info };

    fn info(&self) -> &RelInfo {
        &self.info
    }
}

impl Known for Indexed {
    ghost known = { λ x. x.info };

    fn info(&self) -> &RelInfo {
        &self.info
    }
}

impl Known for Viewed {
    ghost known = { λ v. v.info };

    fn info(&self) -> &RelInfo {
        &self.info
    }
}
