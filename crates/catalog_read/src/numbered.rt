//! Rules and permits are made of the first parts of their trees.

ghost use Rattle.std.specs.Prelude.{◌≡◌, ◌==◌, ◌&&◌, ℕ, map, IfOk};
ghost use Rattle.calculus.specs.declared.query.RelKey as keys;
ghost use Rattle.calculus.specs.declared.schema.Permit as permits;
ghost use Rattle.calculus.specs.declared.schema.Rule as rules;
ghost use Rattle.stored_database.specs.Catalogue.{IsCatalogue};
ghost use Rattle.stored_database.specs.Parts.{of_permit, of_rule};
ghost use Rattle.stored_database.specs.Spelled.{numbered_of};
ghost use Rattle.stored_database.specs.Trees.{permit_of, rule_of, tree_of};
ghost use Rattle.catalog_rows.specs.Shown.{part_in};
ghost use Rattle.catalog_read.specs.Read.{catalogue_shown};
ghost use Rattle.catalog_read.specs.Rows.{numbered_in};

use crate::items_of_rows::Made;
use crate::pairs::both_found;
use crate::relations::key_at;
use crate::rows::CatalogueRows;
use crate::standing::tree_of_part;
use crate::trees::tree;
use calculus::{OutOfMemory, Permit, RelKey, Rule};
use catalog_rows::PartRow;
use quel_tree::{PermitTree, RuleTree, Tree};
use std::alloc::Global;

/// The sort of the tree of a rule.
const OF_RULE: u8 = 1;

/// The sort of the tree of a permit.
const OF_PERMIT: u8 = 2;

/// Trees that have a number of their own.
pub(crate) trait HasNumber: Tree {
    /// The number.
    ghost number: { Self.Value → ℕ };

    /// The number.
    fn number(value: &Self::Value) -> u32
        ensures { result ≡ number value.now };
}

impl HasNumber for RuleTree {
    ghost number = { λ r. r.number };

    fn number(rule: &Rule) -> u32 {
        rule.number
    }
}

impl HasNumber for PermitTree {
    ghost number = { λ p. p.number };

    fn number(permit: &Permit) -> u32 {
        permit.number
    }
}

/// The tree of a part; `None` exactly where it isn't there, or has another number than the part.
fn numbered_tree<T: HasNumber>(
    alloc: Global,
    rows: &CatalogueRows,
    part: &PartRow,
) -> Result<Option<T::Value>, OutOfMemory>
    requires { IsCatalogue (catalogue_shown rows.now) }
    ensures { IfOk result (λ found. found ≡ numbered_in T.codec T.number (map part_in rows.now.parts) (part_in part.now)) }
{
    match tree::<T>(alloc, rows, &tree_of_part(part)) {
        Ok(Some(value)) => {
            if T::number(&value) == part.number {
                Ok(Some(value))
            } else {
                Ok(None)
            }
        }
        Ok(None) => Ok(None),
        Err(error) => Err(error),
    }
}

/// The rule or permit of a part, beside the key of its relation; `None` exactly where the relation or the
/// tree isn't there, or the tree has another number than the part.
fn numbered<T: HasNumber>(
    alloc: Global,
    rows: &CatalogueRows,
    part: &PartRow,
) -> Result<Option<(RelKey, T::Value)>, OutOfMemory>
    requires { IsCatalogue (catalogue_shown rows.now) }
    ensures { IfOk result (λ found. found ≡ numbered_of (tree_of T.codec) T.number (catalogue_shown rows.now) (part_in part.now)) }
{
    let key = key_at(alloc, rows, part.file);
    both_found(key, numbered_tree::<T>(alloc, rows, part))
}

/// Whether it is the first part of a tree of this sort.
fn is_first(sort: u8, part: &PartRow) -> bool
    ensures { result ≡ (part.now.sort == sort) && (part.now.place == 0) }
{
    part.sort == sort && part.place == 0
}

impl Made for (RelKey, Rule) {
    type Row = PartRow;

    ghost Shown = { keys.RelKey × rules.Rule };

    ghost shown = { λ r. r };

    ghost picks = { λ p. (p.sort == of_rule) && (p.place == 0) };

    ghost make = { λ cat p. numbered_of rule_of (λ r. r.number) cat (part_in p) };

    fn picks(row: &PartRow) -> bool {
        is_first(OF_RULE, row)
    }

    fn make(
        alloc: Global,
        rows: &CatalogueRows,
        row: &PartRow,
    ) -> Result<Option<(RelKey, Rule)>, OutOfMemory> {
        numbered::<RuleTree>(alloc, rows, row)
    }
}

impl Made for (RelKey, Permit) {
    type Row = PartRow;

    ghost Shown = { keys.RelKey × permits.Permit };

    ghost shown = { λ p. p };

    ghost picks = { λ p. (p.sort == of_permit) && (p.place == 0) };

    ghost make = { λ cat p. numbered_of permit_of (λ p. p.number) cat (part_in p) };

    fn picks(row: &PartRow) -> bool {
        is_first(OF_PERMIT, row)
    }

    fn make(
        alloc: Global,
        rows: &CatalogueRows,
        row: &PartRow,
    ) -> Result<Option<(RelKey, Permit)>, OutOfMemory> {
        numbered::<PermitTree>(alloc, rows, row)
    }
}
