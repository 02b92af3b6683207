//! The columns of a file that is copied.

ghost use Rattle.std.specs.Prelude.{◌≡◌, ◌&&◌, length, map, nat_eq, nat_lt, not, slice_get};
ghost use Rattle.std.specs.List.{list_all, list_any};
ghost use Rattle.calculus.specs.Kinds.{is_text_kind};
ghost use Rattle.calculus.specs.Lists.{differ_by};
ghost use Rattle.quel_meaning.specs.Causes.{is_binary};
ghost use Rattle.quel_meaning.specs.Columns.{is_copy_form};
ghost use Rattle.tree_check.specs.Columned.{columns_are_fit};

use calculus::{Attr, CopyCol, CopyForm, Kind, is_text_kind};

/// Whether a form of a column is one: 1, 2 or 4 bytes; 1 to 255 bytes; or up to a tab, a newline, a blank,
/// a comma or a colon.
fn is_copy_form(form: CopyForm) -> bool
    ensures { result ≡ is_copy_form form }
{
    match form {
        CopyForm::Bin(bytes) => bytes == 1 || bytes == 2 || bytes == 4,
        CopyForm::Fixed(bytes) => bytes >= 1,
        CopyForm::Until(stop) => {
            stop == 9 || stop == 10 || stop == 32 || stop == 44 || stop == 58
        }
    }
}

fn is_binary(form: CopyForm) -> bool
    ensures { result ≡ is_binary form }
{
    match form {
        CopyForm::Bin(_) => true,
        CopyForm::Fixed(_) => false,
        CopyForm::Until(_) => false,
    }
}

fn have_forms(columns: &[CopyCol]) -> bool
    ensures { result ≡ list_all (λ c. is_copy_form c.form) columns.now }
{
    columns.iter().all(|column| is_copy_form(column.form))
}

fn are_for_attrs(columns: &[CopyCol], attrs: &[Attr]) -> bool
    ensures { result ≡ list_all (λ c. nat_lt c.attr (length attrs.now)) columns.now }
{
    let most = attrs.len();
    columns.iter().all(|column| (column.attr as usize) < most)
}

fn is_among(place: u8, columns: &[CopyCol]) -> bool
    ensures { result ≡ list_any (nat_eq place) (map (λ c. c.attr) columns.now) }
{
    let Some((column, others)) = columns.split_first() else {
        return false;
    };
    place == column.attr || is_among(place, others)
}

/// Whether no two columns are for the same attribute. Ends at the 257th at the latest.
fn columns_differ(columns: &[CopyCol]) -> bool
    ensures { result ≡ differ_by nat_eq (map (λ c. c.attr) columns.now) }
{
    let Some((column, others)) = columns.split_first() else {
        return true;
    };
    !is_among(column.attr, others) && columns_differ(others)
}

/// The kind of the attribute at a place.
fn kind_at(attrs: &[Attr], place: u8) -> Option<Kind>
    ensures { result ≡ slice_get (map (λ a. a.kind) attrs.now) place }
{
    match attrs.get(place as usize) {
        None => None,
        Some(attr) => Some(attr.kind),
    }
}

/// Whether a column has a number's bytes for a text.
fn is_binary_text(column: CopyCol, attrs: &[Attr]) -> bool
    ensures { result ≡ (is_binary column.form && is_text_kind (slice_get (map (λ a. a.kind) attrs.now) column.attr)) }
{
    is_binary(column.form) && is_text_kind(kind_at(attrs, column.attr))
}

fn none_is_binary_text(columns: &[CopyCol], attrs: &[Attr]) -> bool
    ensures { result ≡ list_all (λ c. not (is_binary c.form && is_text_kind (slice_get (map (λ a. a.kind) attrs.now) c.attr))) columns.now }
{
    columns.iter().all(|column| !is_binary_text(*column, attrs))
}

/// Whether there is at least one column, of a form that is one, each for one of these attributes, all
/// different, none of a number's bytes for a text. Takes no memory.
pub(crate) fn columns_fit(attrs: &[Attr], columns: &[CopyCol]) -> bool
    ensures { result ≡ columns_are_fit attrs.now columns.now }
{
    if columns.is_empty() || !have_forms(columns) {
        return false;
    }
    if !are_for_attrs(columns, attrs) {
        return false;
    }
    columns_differ(columns) && none_is_binary_text(columns, attrs)
}
