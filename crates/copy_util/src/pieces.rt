//! The bytes of a column at the front of others.

ghost use Rattle.std.specs.Prelude.{◌≡◌, ◌+◌, ◌<◌, IfSome, length, take, drop, option_map};
ghost use Rattle.calculus.specs.Text.{trimmed};
ghost use Rattle.calculus.specs.declared.request.CopyForm.TheVariants.{Until};
ghost use Rattle.quel_meaning.specs.Columns.{cut_at, cut_behind, piece_of, without_front_blanks};

use calculus::CopyForm;

/// The bytes without the blanks in front.
fn without_front_blanks(bytes: &[u8]) -> &[u8]
    ensures { result.now ≡ without_front_blanks bytes.now }
{
    let mut rest = bytes;
    'blanks: while let Some((first, behind)) = rest.split_first() {
        if *first != b' ' {
            break;
        }
        rest = behind;
    }
    rest
}

/// The bytes without the blanks at their end.
fn trimmed(bytes: &[u8]) -> &[u8]
    ensures { result.now ≡ trimmed bytes.now }
{
    let mut rest = bytes;
    'blanks: while let Some((last, front)) = rest.split_last() {
        if *last != b' ' {
            break;
        }
        rest = front;
    }
    rest
}

/// The bytes without the blanks around them.
pub(crate) fn between_blanks(bytes: &[u8]) -> &[u8]
    ensures { result.now ≡ trimmed (without_front_blanks bytes.now) }
{
    trimmed(without_front_blanks(bytes))
}

/// The place of the first such byte; `None` exactly where there is none.
fn place_of(stop: u8, bytes: &[u8]) -> Option<usize>
    ensures cut { option_map (λ i. (take i bytes.now, drop (i + 1) bytes.now)) result ≡ cut_at stop bytes.now }
    ensures inside { IfSome result (λ i. i < length bytes.now) }
{
    for i in 0..bytes.len() {
        if bytes[i] == stop {
            return Some(i);
        }
    }
    None
}

/// The bytes before the first such byte, and those behind it; `None` exactly where there is none.
fn cut_at(stop: u8, bytes: &[u8]) -> Option<(&[u8], &[u8])>
    ensures { option_map (λ cut. (cut.0.now, cut.1.now)) result ≡ cut_at stop bytes.now }
{
    let place = place_of(stop, bytes)?;
    Some((bytes.split_at(place).0, bytes.split_at(place + 1).1))
}

/// So many bytes, and those behind them; `None` exactly where there are fewer.
fn cut_behind(count: u8, bytes: &[u8]) -> Option<(&[u8], &[u8])>
    ensures { option_map (λ cut. (cut.0.now, cut.1.now)) result ≡ cut_behind count bytes.now }
{
    let count = count as usize;
    if bytes.len() < count {
        return None;
    }
    Some(bytes.split_at(count))
}

/// The bytes before the first such byte and those behind it; where there is none, all of them and
/// nothing behind in the last column, else `None`.
fn cut_up_to(last: bool, stop: u8, bytes: &[u8]) -> Option<(&[u8], &[u8])>
    ensures { option_map (λ cut. (cut.0.now, cut.1.now)) result ≡ piece_of last (Until stop) bytes.now }
{
    match cut_at(stop, bytes) {
        Some(cut) => Some(cut),
        None => {
            if last {
                Some(bytes.split_at(bytes.len()))
            } else {
                None
            }
        }
    }
}

/// The bytes of a column at the front of others, and those behind it; `None` exactly where the bytes
/// end inside it. The end of the bytes ends the last column of a record where that goes up to a byte.
pub(crate) fn piece_of(last: bool, form: CopyForm, bytes: &[u8]) -> Option<(&[u8], &[u8])>
    ensures { option_map (λ cut. (cut.0.now, cut.1.now)) result ≡ piece_of last form bytes.now }
{
    match form {
        CopyForm::Bin(count) => cut_behind(count, bytes),
        CopyForm::Fixed(count) => cut_behind(count, bytes),
        CopyForm::Until(stop) => cut_up_to(last, stop, bytes),
    }
}
