//! What `copy` asks for.

ghost use Rattle.std.specs.Prelude.{◌≡◌, ◌≤◌, ◌&&◌, ℕ, Option, Some, None, Ok, Err, true, false, length, map, slice_get, IfOk};
ghost use Rattle.std.specs.List.{list_any};
ghost use Rattle.calculus.specs.declared.request.Checked.TheVariants.{Utility as ForUtilities};
ghost use Rattle.calculus.specs.declared.request.Utility.TheVariants as utility;
ghost use Rattle.calculus.specs.declared.statement.Statement.TheVariants as statement;
ghost use Rattle.calculus.specs.Database.{Db};
ghost use Rattle.calculus.specs.Kinds.{is_text_kind};
ghost use Rattle.quel_meaning.specs.Causes.{is_binary};
ghost use Rattle.quel_meaning.specs.Naming.{name_refusal};
ghost use Rattle.quel_meaning.specs.Ranges.{Ranges};
ghost use Rattle.quel_meaning.specs.Resolved.{copy_col};
ghost use Rattle.quel_names.specs.Asking.{scope_of};
ghost use Rattle.utility_trees.specs.Answers.{Says};
ghost use Rattle.utility_trees.specs.Causes.{HasCheckCause, IsCaused};
ghost use Rattle.utility_trees.specs.Serving.{Serves, is_binary_text_of};

use crate::CheckFault;
use crate::finding::found;
use crate::places::{place_in, place_of};
use crate::repeated::columns_repeat;
use base_trait::Base;
use calculus::refusals::{KINDS_DIFFER, NAMED_TWICE};
use calculus::{
    Attr, Chars, Checked, CopyCol, CopyForm, Kind, List, Name, OutOfMemory, RelInfo, TryCopy,
    Utility, is_text_kind,
};
use memory::both;
use std::alloc::Global;

/// Whether a column has a number's bytes.
fn is_binary(form: CopyForm) -> bool
    ensures { result ≡ is_binary form }
{
    match form {
        CopyForm::Bin(_) => true,
        CopyForm::Fixed(_) => false,
        CopyForm::Until(_) => false,
    }
}

/// The kind of the attribute at this place; `None` where there is none.
fn kind_at(attrs: &[Attr], place: usize) -> Option<Kind>
    ensures { result ≡ slice_get (map (λ a. a.kind) attrs.now) place }
{
    match attrs.get(place) {
        Some(attr) => Some(attr.kind),
        None => None,
    }
}

/// Whether a column has a number's bytes, and the attribute that it names is a text.
fn is_binary_text(info: &RelInfo, name: &Name, form: CopyForm) -> bool
    ensures { result ≡ is_binary_text_of info.now (name.now, form) }
{
    let attrs = info.attrs.items();
    is_binary(form) && is_text_kind(kind_at(attrs, place_in(attrs, name)))
}

/// Whether one of these columns has a number's bytes, and the attribute that it names is a text.
fn any_is_binary_text(info: &RelInfo, columns: &[(Name, CopyForm)]) -> bool
    ensures { result ≡ list_any (is_binary_text_of info.now) columns.now }
{
    for (name, form) in columns {
        if is_binary_text(info, name, *form) {
            return true;
        }
    }
    false
}

/// These columns with the places of their attributes.
fn copy_cols(
    alloc: Global,
    info: &RelInfo,
    columns: &[(Name, CopyForm)],
) -> Result<Vec<CopyCol>, OutOfMemory>
    ensures { IfOk result (λ cols. length info.now.attrs ≤ 256 → cols.items ≡ map (copy_col (Some info.now)) columns.now) }
{
    let mut cols = Vec::new(alloc);
    for (name, form) in columns {
        let attr = place_of(info, name);
        cols.push(CopyCol { attr, form: *form })?;
    }
    Ok(cols)
}

/// The tree of a copy of what is known.
fn copy_of(
    alloc: Global,
    info: &RelInfo,
    columns: &[(Name, CopyForm)],
    from: bool,
    file: &Chars,
) -> Result<Checked, OutOfMemory>
    ensures { IfOk result (λ tree. length info.now.attrs ≤ 256 → tree ≡ ForUtilities (utility.Copy info.now.key (map (copy_col (Some info.now)) columns.now) from file.now)) }
{
    let names = both(info.key.copy(alloc), file.copy(alloc));
    let ((rel, file), cols) = both(names, copy_cols(alloc, info, columns))?;
    let columns = List::of(cols);
    Ok(Checked::Utility(Utility::Copy {
        rel,
        columns,
        from,
        file,
    }))
}

/// The tree of a copy of what is known, where no binary column is for a text.
fn copy_fitting(
    alloc: Global,
    info: &RelInfo,
    columns: &[(Name, CopyForm)],
    from: bool,
    file: &Chars,
) -> Result<Checked, CheckFault>
    ensures said { Says (λ tree. (list_any (is_binary_text_of info.now) columns.now ≡ false) × (length info.now.attrs ≤ 256 → tree ≡ ForUtilities (utility.Copy info.now.key (map (copy_col (Some info.now)) columns.now) from file.now))) (λ number. (list_any (is_binary_text_of info.now) columns.now ≡ true) × (number ≡ 13)) result }
    ensures no_fault { (known : Option Db) (before now : ℕ) → now ≡ before → IsCaused known before now result }
{
    if any_is_binary_text(info, columns) {
        return Err(CheckFault::No(KINDS_DIFFER));
    }
    Ok(copy_of(alloc, info, columns, from, file)?)
}

/// The tree of a copy of this relation from this file, or into it, with these columns.
pub(crate) fn copied<B: Base>(
    alloc: Global,
    base: &mut B,
    user: &Name,
    rel: &Name,
    columns: &[(Name, CopyForm)],
    from: bool,
    file: &Chars,
) -> Result<Checked, CheckFault>
    ensures known { (db : Db) (ranges : Ranges) → B.schema base.old ≡ Some db → name_refusal (scope_of db user.now ranges) (statement.Copy rel.now columns.now from file.now) ≡ None
        → Serves (scope_of db user.now ranges) (statement.Copy rel.now columns.now from file.now) result }
    ensures kept { B.database base.new ≡ B.database base.old }
    ensures stays { (s : Db) → B.schema base.old ≡ Some s → B.schema base.new ≡ Some s }
    ensures asked { (b : B) → B.asked b base.old → B.asked b base.new }
    ensures cause { HasCheckCause (B.database base.old) (B.faults base.old) (B.faults base.new) result }
{
    if columns_repeat(alloc, columns)? {
        return Err(CheckFault::No(NAMED_TWICE));
    }
    match found(alloc, base, user, rel) {
        Ok(info) => {
            let tree = copy_fitting(alloc, &info, columns, from, file);
            drop(info);
            tree
        }
        Err(fault) => Err(fault),
    }
}
