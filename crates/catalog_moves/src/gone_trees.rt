//! The trees of what is destroyed.

ghost use Rattle.std.specs.Prelude.{◌≡◌, OnOk};
ghost use Rattle.std.specs.List.{flat_map};
ghost use Rattle.calculus.specs.IsDatabase.{IsDatabase};
ghost use Rattle.calculus.specs.Keys.{has_key};
ghost use Rattle.calculus.specs.declared.query.RelKey.{RelKey as Key};
ghost use Rattle.plain_base.specs.Shown.{database_of};
ghost use Rattle.catalog_moves.specs.Files.{is_in, places_of};
ghost use Rattle.catalog_moves.specs.Gone.{query_parts, rule_parts, permit_parts, tree_parts, gone_parts};
ghost use Rattle.catalog_moves.specs.Moves.{CameParts};

use crate::asked::{permits, query, rules};
use crate::files::{FilePlace, FileTable};
use crate::key_set::KeySet;
use crate::trees::{put_permits, put_rules, put_tree};
use calculus::{List, OutOfMemory, RelKey};
use plain_base::DbPlain;
use quel_tree::QueryTree;
use std::alloc::Global;

/// What has trees.
#[derive(Clone, Copy)]
pub(crate) enum TreeSort {
    /// A view.
    View,
    /// A rule.
    Rule,
    /// A permit.
    Permit,
}

/// Writes the parts of the tree of the view at a place.
fn put_query(
    alloc: Global,
    plain: &mut DbPlain,
    rows: &mut Vec<List<u8>>,
    place: &FilePlace,
) -> Result<(), OutOfMemory>
    requires { IsDatabase (database_of plain.old) }
    ensures same { database_of plain.new ≡ database_of plain.old }
    ensures came { OnOk result (CameParts rows.old.items rows.new.items (query_parts (database_of plain.old) place.now)) }
{
    match query(alloc, plain, &place.key)? {
        Some(query) => put_tree::<QueryTree>(alloc, rows, place.file, 0, 0, &query),
        None => Ok(()),
    }
}

/// Writes the parts of the rules of the relation at a place.
fn put_its_rules(
    alloc: Global,
    plain: &mut DbPlain,
    rows: &mut Vec<List<u8>>,
    place: &FilePlace,
) -> Result<(), OutOfMemory>
    requires { IsDatabase (database_of plain.old) }
    ensures same { database_of plain.new ≡ database_of plain.old }
    ensures came { OnOk result (CameParts rows.old.items rows.new.items (rule_parts (database_of plain.old) place.now)) }
{
    let all = rules(alloc, plain, &place.key)?;
    put_rules(alloc, rows, place.file, all.as_slice())
}

/// Writes the parts of the permits of the relation at a place.
fn put_its_permits(
    alloc: Global,
    plain: &mut DbPlain,
    rows: &mut Vec<List<u8>>,
    place: &FilePlace,
) -> Result<(), OutOfMemory>
    requires { IsDatabase (database_of plain.old) }
    ensures same { database_of plain.new ≡ database_of plain.old }
    ensures came { OnOk result (CameParts rows.old.items rows.new.items (permit_parts (database_of plain.old) place.now)) }
{
    let all = permits(alloc, plain, &place.key)?;
    put_permits(alloc, rows, place.file, all.as_slice())
}

/// Writes the parts of the trees of the sort at a place.
fn put_trees(
    alloc: Global,
    plain: &mut DbPlain,
    rows: &mut Vec<List<u8>>,
    place: &FilePlace,
    sort: TreeSort,
) -> Result<(), OutOfMemory>
    requires { IsDatabase (database_of plain.old) }
    ensures same { database_of plain.new ≡ database_of plain.old }
    ensures came { OnOk result (CameParts rows.old.items rows.new.items (tree_parts sort (database_of plain.old) place.now)) }
{
    match sort {
        TreeSort::View => put_query(alloc, plain, rows, place),
        TreeSort::Rule => put_its_rules(alloc, plain, rows, place),
        TreeSort::Permit => put_its_permits(alloc, plain, rows, place),
    }
}

/// Writes the parts of the trees of the sort at a place, where what lies there is one of these.
fn put_listed(
    alloc: Global,
    plain: &mut DbPlain,
    rows: &mut Vec<List<u8>>,
    listed: &KeySet,
    rels: &[RelKey],
    place: &FilePlace,
    sort: TreeSort,
) -> Result<(), OutOfMemory>
    requires base { IsDatabase (database_of plain.old) }
    requires listed { (key : Key) → is_in listed.now key ≡ has_key rels.now key }
    ensures same { database_of plain.new ≡ database_of plain.old }
    ensures came { OnOk result (CameParts rows.old.items rows.new.items (gone_parts sort rels.now (database_of plain.old) place.now)) }
{
    if !listed.has(&place.key) {
        return Ok(());
    }
    put_trees(alloc, plain, rows, place, sort)
}

/// Writes the parts of the trees of the sort of these, by their keys.
pub(crate) fn put_all_trees(
    alloc: Global,
    plain: &mut DbPlain,
    rows: &mut Vec<List<u8>>,
    files: &FileTable,
    listed: &KeySet,
    rels: &[RelKey],
    sort: TreeSort,
) -> Result<(), OutOfMemory>
    requires base { IsDatabase (database_of plain.old) }
    requires listed { (key : Key) → is_in listed.now key ≡ has_key rels.now key }
    ensures same { database_of plain.new ≡ database_of plain.old }
    ensures came { OnOk result (CameParts rows.old.items rows.new.items (flat_map (gone_parts sort rels.now (database_of plain.old)) (places_of files.now))) }
{
    for place in &files.places {
        put_listed(alloc, plain, rows, listed, rels, place, sort)?;
    }
    Ok(())
}
