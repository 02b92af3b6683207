//! Whether the columns of a file are ones that a request that fits has.

ghost use Rattle.std.specs.Prelude.{◌≡◌};
ghost use Rattle.calculus.specs.declared.request.CopyForm.TheVariants.{Bin, Until};
ghost use Rattle.quel_meaning.specs.Columns.{is_copy_form};
ghost use Rattle.copy_util.specs.Reading.{are_readable, have_forms, is_readable, is_wide};

use calculus::{CopyCol, CopyForm, Kind};

/// Whether the number is 1, 2 or 4.
fn is_count(count: u8) -> bool
    ensures { result ≡ is_copy_form (Bin count) }
{
    1 == count || 2 == count || 4 == count
}

/// Whether the byte is a tab, a newline, a blank, a comma or a colon.
fn is_stop(stop: u8) -> bool
    ensures { result ≡ is_copy_form (Until stop) }
{
    b'\t' == stop || b'\n' == stop || b' ' == stop || b',' == stop || b':' == stop
}

/// Whether the form is one.
fn is_copy_form(form: CopyForm) -> bool
    ensures { result ≡ is_copy_form form }
{
    match form {
        CopyForm::Bin(count) => is_count(count),
        CopyForm::Fixed(count) => 1 <= count,
        CopyForm::Until(stop) => is_stop(stop),
    }
}

/// Whether they are whole numbers of 64 bits.
fn is_wide(kind: Option<Kind>) -> bool
    ensures { result ≡ is_wide kind }
{
    match kind {
        None => false,
        Some(Kind::Wide) => true,
        Some(Kind::Of(_)) => false,
    }
}

/// Whether the column has a form that is one, and its attribute isn't of 64 bits.
fn is_readable(kinds: &[Kind], column: CopyCol) -> bool
    ensures { result ≡ is_readable kinds.now column }
{
    let kind = kinds.get(column.attr as usize).copied();
    is_copy_form(column.form) && !is_wide(kind)
}

/// Whether every column has a form that is one, and an attribute that isn't of 64 bits.
pub(crate) fn are_readable(kinds: &[Kind], columns: &[CopyCol]) -> bool
    ensures { result ≡ are_readable kinds.now columns.now }
{
    columns.iter().all(|column| is_readable(kinds, *column))
}

/// Whether every column has a form that is one.
pub(crate) fn have_forms(columns: &[CopyCol]) -> bool
    ensures { result ≡ have_forms columns.now }
{
    columns.iter().all(|column| is_copy_form(column.form))
}
