//! A database in memory, as a base.

ghost use Rattle.std.specs.Prelude.{◌≡◌, map, flat_map};
ghost use Rattle.std.specs.Option.{ForSome};
ghost use Rattle.calculus.specs.Catalogue.{all_entries, relation_row, attribute_rows};
ghost use Rattle.calculus.specs.IsDatabase.{IsDatabase};
ghost use Rattle.calculus.specs.Rows.{set_of};
ghost use Rattle.std.proofs.Props.{props};

mod base;
mod changed;
mod entries;
mod rows_asked;

use crate::DbLists;
use calculus::RowSet;

/// A database in memory, as a base. It shows the database that it is.
///
/// The rows of a catalogue are made when they are first asked for, and kept until a change. Where the
/// last row was found that was asked for is kept, too: rows are often asked for in ascending order.
pub struct DbPlain {
    lists: DbLists,
    kept_relation: Option<RowSet>,
    kept_attribute: Option<RowSet>,
    near: usize,
    ghost is: { IsDatabase lists } by { Prim.hlevel props },
    ghost relation_is: { ForSome kept_relation (λ rows. rows ≡ set_of (map relation_row (all_entries lists))) },
    ghost attribute_is: { ForSome kept_attribute (λ rows. rows ≡ set_of (flat_map attribute_rows (all_entries lists))) },
}

impl Drop for DbPlain {
    fn drop(self) {
        let Self {
            lists: _,
            kept_relation: _,
            kept_attribute: _,
            near: _,
        } = self;
    }
}
