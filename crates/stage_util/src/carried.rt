//! What came of what was to be carried out.

ghost use Rattle.std.specs.Prelude.{◌≡◌};
ghost use Rattle.quel_meaning.specs.Copying.{bad_row, refusal};

use calculus::Refusal;
use calculus::refusals::BAD_ROW;

/// What came of what was to be carried out.
#[derive(Clone, Copy)]
pub(crate) enum Carried {
    /// It was carried out.
    Done,
    /// It was refused, and nothing was changed.
    Refused(Refusal),
}

/// A refusal with this number, of no line and no row.
pub(crate) fn refusal(code: u8) -> Refusal
    ensures { result ≡ refusal code }
{
    Refusal {
        code,
        line: 0,
        row: 0,
    }
}

/// The refusal of a bad row, by its number.
pub(crate) fn bad_row(row: u32) -> Refusal
    ensures { result ≡ bad_row row }
{
    Refusal {
        code: BAD_ROW,
        line: 0,
        row,
    }
}
