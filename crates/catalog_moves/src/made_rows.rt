//! The rows of what is made.

ghost use Rattle.std.specs.Prelude.{◌≡◌, ◌∷◌, [], IfOk, OnOk};
ghost use Rattle.calculus.specs.Change.{index_info};
ghost use Rattle.quel_tree.specs.Message.{most_tree_levels};
ghost use Rattle.quel_tree.specs.Permits.{rule as rule_codec, permit as permit_codec};
ghost use Rattle.quel_tree.specs.Queries.{query as query_codec};
ghost use Rattle.stored_database.specs.Parts.{of_view, of_rule, of_permit};
ghost use Rattle.stored_database.specs.Printed.{columns_from};
ghost use Rattle.stored_database.specs.Trees.{cut, parts_from, tree_bytes};
ghost use Rattle.catalog_moves.specs.Moves.{AreRows, entry_with};

use crate::rows::SomeRows;
use crate::trees::put_tree;
use crate::writing::{put_entry, put_known};
use calculus::{List, Name, OutOfMemory, Permit, Query, RelInfo, RelKey, Rule, Spec, TryCopy};
use memory::both;
use quel_tree::{PermitTree, QueryTree, RuleTree};
use std::alloc::Global;

/// Writes the row of one entry, which has these files and numbers of pages, where there are no rows.
pub(crate) fn put_only(
    alloc: Global,
    rows: &mut SomeRows,
    info: &RelInfo,
    file: u32,
    base: u32,
    primary: u32,
    used: u32,
) -> Result<(), OutOfMemory>
    ensures { AreRows (record { entries = []; columns = []; parts = [] }) rows.old → OnOk result (AreRows (record { entries = entry_with file base primary used info.now ∷ []; columns = []; parts = [] }) rows.new) }
{
    put_entry(alloc, &mut rows.entries, info, file, base, primary, used)
}

/// Writes the rows of a relation, where there are no rows.
pub(crate) fn put_created(
    alloc: Global,
    rows: &mut SomeRows,
    info: &RelInfo,
    file: u32,
    used: u32,
) -> Result<(), OutOfMemory>
    ensures { AreRows (record { entries = []; columns = []; parts = [] }) rows.old → OnOk result (AreRows (record { entries = entry_with file 0 1 used info.now ∷ []; columns = columns_from file 0 info.now.attrs; parts = [] }) rows.new) }
{
    put_known(alloc, rows, info, file, 1, used)
}

/// Writes the rows of a view, where there are no rows.
pub(crate) fn put_viewed(
    alloc: Global,
    rows: &mut SomeRows,
    info: &RelInfo,
    query: &Query,
    file: u32,
) -> Result<(), OutOfMemory>
    ensures { AreRows (record { entries = []; columns = []; parts = [] }) rows.old → (query_codec most_tree_levels).Fits query.now → OnOk result (AreRows (record {
      entries = entry_with file 0 0 0 info.now ∷ [];
      columns = columns_from file 0 info.now.attrs;
      parts = parts_from file of_view 0 0 (cut (tree_bytes query_codec query.now));
    }) rows.new) }
{
    put_known(alloc, rows, info, file, 0, 0)?;
    put_tree::<QueryTree>(alloc, &mut rows.parts, file, 0, 0, query)
}

/// What is known of an index, which has the owner of the relation below it.
fn index_info(
    alloc: Global,
    base: &RelKey,
    name: &Name,
    keys: &List<u8>,
) -> Result<RelInfo, OutOfMemory>
    ensures { IfOk result (λ info. info ≡ index_info base.now name.now keys.now) }
{
    let keys = keys.copy(alloc)?;
    let (owner, name) = both(base.owner.copy(alloc), name.copy(alloc))?;
    Ok(RelInfo {
        key: RelKey { owner, name },
        spec: Spec::Index,
        attrs: List::of(Vec::new(alloc)),
        keys,
    })
}

/// Writes the row of an index, where the relation below it has that file and there are no rows.
pub(crate) fn put_indexed(
    alloc: Global,
    rows: &mut SomeRows,
    base: &RelKey,
    name: &Name,
    keys: &List<u8>,
    file: u32,
    below: u32,
) -> Result<(), OutOfMemory>
    ensures { AreRows (record { entries = []; columns = []; parts = [] }) rows.old → OnOk result (AreRows (record { entries = entry_with file below 0 0 (index_info base.now name.now keys.now) ∷ []; columns = []; parts = [] }) rows.new) }
{
    let info = index_info(alloc, base, name, keys)?;
    put_only(alloc, rows, &info, file, below, 0, 0)
}

/// Writes the rows of a permit on the relation with this file, where there are no rows.
pub(crate) fn put_permitted(
    alloc: Global,
    rows: &mut SomeRows,
    permit: &Permit,
    file: u32,
) -> Result<(), OutOfMemory>
    ensures { AreRows (record { entries = []; columns = []; parts = [] }) rows.old → (permit_codec most_tree_levels).Fits permit.now → OnOk result (AreRows (record {
      entries = [];
      columns = [];
      parts = parts_from file of_permit permit.now.number 0 (cut (tree_bytes permit_codec permit.now));
    }) rows.new) }
{
    put_tree::<PermitTree>(alloc, &mut rows.parts, file, 2, permit.number, permit)
}

/// Writes the rows of a rule on the relation with this file, where there are no rows.
pub(crate) fn put_ruled(
    alloc: Global,
    rows: &mut SomeRows,
    rule: &Rule,
    file: u32,
) -> Result<(), OutOfMemory>
    ensures { AreRows (record { entries = []; columns = []; parts = [] }) rows.old → (rule_codec most_tree_levels).Fits rule.now → OnOk result (AreRows (record {
      entries = [];
      columns = [];
      parts = parts_from file of_rule rule.now.number 0 (cut (tree_bytes rule_codec rule.now));
    }) rows.new) }
{
    put_tree::<RuleTree>(alloc, &mut rows.parts, file, 1, rule.number, rule)
}
