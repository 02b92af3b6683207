//! Attributes and trees are written as rows behind others.

ghost use Rattle.std.specs.Prelude.{◌≡◌, ◌≤◌, ◌∷◌, [], All, length, map, IfOk, OnOk};
ghost use Rattle.std.specs.List.{AllByRecursion, flat_map};
ghost use Rattle.page_chain.specs.Lying.{IsShort};
ghost use Rattle.quel_tree.specs.Message.{most_tree_levels};
ghost use Rattle.quel_tree.specs.Permits.{rule as rule_codec, permit as permit_codec};
ghost use Rattle.stored_database.specs.Columns.{column_bytes};
ghost use Rattle.stored_database.specs.Parts.{of_rule, of_permit};
ghost use Rattle.stored_database.specs.Printed.{columns_from};
ghost use Rattle.stored_database.specs.Trees.{cut, parts_from, tree_bytes};
ghost use Rattle.catalog_moves.specs.Moves.{Came, CameParts};

use calculus::{Attr, List, OutOfMemory, Permit, Rule};
use catalog_rows::{column_row, tree_parts};
use quel_tree::{PermitTree, RuleTree, Tree, tree_bytes};
use std::alloc::Global;

/// Writes the attribute at a place.
fn put_column(
    alloc: Global,
    rows: &mut Vec<List<u8>>,
    file: u32,
    place: u8,
    attr: &Attr,
) -> Result<(), OutOfMemory>
    ensures { OnOk result (Came rows.old.items rows.new.items (column_bytes (record { file = file; place = place; attr = attr.now }) ∷ [])) }
{
    let row = column_row(alloc, file, place, attr)?;
    rows.push(row)?;
    Ok(())
}

/// Writes attributes, few enough for their places.
fn put_few_columns(
    alloc: Global,
    rows: &mut Vec<List<u8>>,
    file: u32,
    attrs: &[Attr],
) -> Result<(), OutOfMemory>
    requires { length attrs.now ≤ 256 }
    ensures { OnOk result (Came rows.old.items rows.new.items (map column_bytes (columns_from file 0 attrs.now))) }
{
    for (i, attr) in attrs.iter().enumerate() {
        put_column(alloc, rows, file, i as u8, attr)?;
    }
    Ok(())
}

/// Writes attributes. More than there are places for answer want of memory; nothing lawful has them.
pub(crate) fn put_columns(
    alloc: Global,
    rows: &mut Vec<List<u8>>,
    file: u32,
    attrs: &[Attr],
) -> Result<(), OutOfMemory>
    ensures { OnOk result (Came rows.old.items rows.new.items (map column_bytes (columns_from file 0 attrs.now))) }
{
    if attrs.len() > 256 {
        return Err(OutOfMemory);
    }
    put_few_columns(alloc, rows, file, attrs)
}

/// Puts parts behind others. More than there are places for answer want of memory.
fn put_parts(rows: &mut Vec<List<u8>>, parts: List<List<u8>>) -> Result<(), OutOfMemory>
    requires { All (λ row. IsShort row) parts }
    ensures came { OnOk result (Came rows.old.items rows.new.items parts) }
    ensures few { OnOk result (length parts ≤ 65536) }
{
    let mut parts = parts.into_items();
    if parts.len() > 65536 {
        return Err(OutOfMemory);
    }
    rows.append(&mut parts)?;
    Ok(())
}

/// Writes the parts of a tree with these bytes.
fn put_bytes(
    alloc: Global,
    rows: &mut Vec<List<u8>>,
    file: u32,
    sort: u8,
    number: u32,
    bytes: &[u8],
) -> Result<(), OutOfMemory>
    ensures { OnOk result (CameParts rows.old.items rows.new.items (parts_from file sort number 0 (cut bytes.now))) }
{
    match tree_parts(alloc, file, sort, number, bytes)? {
        Some(parts) => {
            put_parts(rows, parts)?;
            Ok(())
        }
        None => Err(OutOfMemory),
    }
}

/// Writes the parts of a tree.
pub(crate) fn put_tree<T: Tree>(
    alloc: Global,
    rows: &mut Vec<List<u8>>,
    file: u32,
    sort: u8,
    number: u32,
    tree: &T::Value,
) -> Result<(), OutOfMemory>
    ensures { (T.codec most_tree_levels).Fits tree.now → OnOk result (CameParts rows.old.items rows.new.items (parts_from file sort number 0 (cut (tree_bytes T.codec tree.now)))) }
{
    let bytes = tree_bytes::<T>(alloc, tree)?;
    put_bytes(alloc, rows, file, sort, number, &bytes)?;
    Ok(())
}

/// Writes the parts of the rules of a relation.
pub(crate) fn put_rules(
    alloc: Global,
    rows: &mut Vec<List<u8>>,
    file: u32,
    rules: &[Rule],
) -> Result<(), OutOfMemory>
    ensures { AllByRecursion (λ r. (rule_codec most_tree_levels).Fits r) rules.now → OnOk result (CameParts rows.old.items rows.new.items (flat_map (λ r. parts_from file of_rule r.number 0 (cut (tree_bytes rule_codec r))) rules.now)) }
{
    for rule in rules {
        put_tree::<RuleTree>(alloc, rows, file, 1, rule.number, rule)?;
    }
    Ok(())
}

/// Writes the parts of the permits of a relation.
pub(crate) fn put_permits(
    alloc: Global,
    rows: &mut Vec<List<u8>>,
    file: u32,
    permits: &[Permit],
) -> Result<(), OutOfMemory>
    ensures { AllByRecursion (λ p. (permit_codec most_tree_levels).Fits p) permits.now → OnOk result (CameParts rows.old.items rows.new.items (flat_map (λ p. parts_from file of_permit p.number 0 (cut (tree_bytes permit_codec p))) permits.now)) }
{
    for permit in permits {
        put_tree::<PermitTree>(alloc, rows, file, 2, permit.number, permit)?;
    }
    Ok(())
}
