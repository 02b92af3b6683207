//! Numbers as they are printed.

ghost use Rattle.std.specs.Prelude.{◌≡◌, ◌+◌, ◌*◌, IsTrue, length, min, option_map, pos};
ghost use Rattle.std.specs.List.{list_all};
ghost use Rattle.std.specs.Str.Parse.{digits_value};
ghost use Rattle.calculus.specs.Name.{is_digit};
ghost use Rattle.quel_meaning.specs.Columns.{spelled, spelled_signed};
ghost use Rattle.copy_util.specs.Reading.{held, most_apart};

/// The greatest size of a number that is told apart from greater ones. No domain has it.
const MOST_APART: u64 = 10_000_000_000;

/// A digit.
fn is_digit(byte: u8) -> bool
    ensures { result ≡ is_digit byte }
{
    b'0' <= byte && byte <= b'9'
}

/// Whether all bytes are digits.
fn are_digits(bytes: &[u8]) -> bool
    ensures { result ≡ list_all is_digit bytes.now }
{
    bytes.iter().all(|byte| is_digit(*byte))
}

/// The number that digits spell, or the greatest that is known where it is greater.
fn digits_value(digits: &[u8]) -> u64
    requires { IsTrue (list_all is_digit digits.now) }
    ensures { result ≡ min most_apart (digits_value 10 digits.now) }
{
    let mut number = 0;
    'digits: for digit in digits {
        number = (number * 10 + digit.saturating_sub(b'0') as u64).min(MOST_APART);
    }
    number
}

/// The number that digits spell, or the greatest that is known where it is greater; `None` exactly
/// where there is none, or another byte stands among them.
fn spelled(digits: &[u8]) -> Option<u64>
    ensures { result ≡ option_map (min most_apart) (spelled digits.now) }
{
    if !digits.is_empty() && are_digits(digits) {
        Some(digits_value(digits))
    } else {
        None
    }
}

/// The number that digits spell, with a minus sign in front or without one; the greatest that is known
/// of its sign where its size is greater. `None` exactly where they spell none.
pub(crate) fn spelled_signed(bytes: &[u8]) -> Option<i64>
    ensures { result ≡ option_map held (spelled_signed bytes.now) }
{
    let (first, digits) = bytes.split_first()?;
    if *first == b'-' {
        let size = spelled(digits)?;
        Some(-(size as i64))
    } else {
        let size = spelled(bytes)?;
        Some(size as i64)
    }
}
