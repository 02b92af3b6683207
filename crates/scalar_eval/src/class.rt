//! The classes of a pattern.

ghost use Rattle.std.specs.Prelude.{◌≡◌, ◌<◌, ◌≤◌, ◌∷◌, [], length, Some, None, false, not, ◌&&◌, ◌==◌, MatchOption, IfSome};
ghost use Rattle.calculus.specs.Constant.{unescaped};
ghost use Rattle.calculus.specs.Pattern.{is_bare, ranges, in_class, class_length};
ghost use Rattle.scalar_eval.specs.Walk.{IsClass, NoneCloses, after_dash, close_from};

use calculus::{Unescaped, next_unescaped};

/// Whether the unescaped byte is this byte with no backslash in front.
pub(crate) fn is_bare(unescaped_byte: Unescaped, byte: u8) -> bool
    ensures { result ≡ is_bare byte unescaped_byte }
{
    unescaped_byte.byte == byte && !unescaped_byte.plain
}

/// Whether the byte makes the next one plain, where `escaped` says that a backslash makes it plain.
pub(crate) fn escapes(escaped: bool, byte: u8) -> bool
    ensures { result ≡ (not escaped && (byte == 92)) }
{
    !escaped && byte == b'\\'
}

/// Whether the byte ends a class, where `escaped` says that a backslash makes it plain.
fn ends_class(escaped: bool, byte: u8) -> bool
    ensures { result ≡ (not escaped && (byte == 93)) }
{
    !escaped && byte == b']'
}

/// Where the first `]` stands that no backslash makes plain.
fn close_of(behind: &[u8]) -> Option<usize>
    ensures { result ≡ close_from 0 false behind.now }
{
    let mut escaped = false;
    for (at, byte) in behind.iter().enumerate() {
        if ends_class(escaped, *byte) {
            return Some(at);
        }
        escaped = escapes(escaped, *byte);
    }
    None
}

/// The bytes of the class that a `[` in front begins, and what is written behind its `]`; `None`
/// where no `]` ends it.
#[tactic(auto, using(crate::proofs::Marks::close_within, crate::proofs::Marks::class_parts, crate::proofs::Marks::no_class_written))]
pub(crate) fn class_end(behind: &[u8]) -> Option<(&[u8], &[u8])>
    ensures parts { MatchOption result (class_length (unescaped behind.now) ≡ None) (λ p. IsClass behind.now p.0.now p.1.now) }
    ensures shorter { IfSome result (λ p. length p.1.now < length behind.now) }
{
    match close_of(behind) {
        None => None,
        Some(at) => {
            let (class, closed) = behind.split_at(at);
            let (_, rest) = closed.split_at(1);
            Some((class, rest))
        }
    }
}

/// How many bytes are written behind the last `]` that no backslash makes plain: all where there is
/// none. Each byte is read once.
#[tactic(auto, using(crate::proofs::Unclosed::none_closes))]
pub(crate) fn unclosed_length(pattern: &[u8]) -> usize
    ensures { NoneCloses result (unescaped pattern.now) }
{
    let mut rest = pattern;
    'classes: while let Some((_, after)) = class_end(rest) {
        rest = after;
    }
    rest.len()
}

/// The same as [`class_end`], but nothing is read where no `]` can follow: where at most the last
/// `unclosed` bytes are left.
#[tactic(auto, using(crate::proofs::Unclosed::no_class_left))]
pub(crate) fn class_before(unclosed: usize, behind: &[u8]) -> Option<(&[u8], &[u8])>
    requires { NoneCloses unclosed (unescaped behind.now) }
    ensures parts { MatchOption result (class_length (unescaped behind.now) ≡ None) (λ p. IsClass behind.now p.0.now p.1.now) }
    ensures shorter { IfSome result (λ p. length p.1.now < length behind.now) }
{
    if behind.len() <= unclosed {
        None
    } else {
        class_end(behind)
    }
}

/// The byte behind a `-` that comes first and is not plain, and what is written behind it.
#[tactic(auto, using(crate::proofs::Marks::dash_none, crate::proofs::Marks::dash_last, crate::proofs::Marks::no_dash, crate::proofs::Marks::dash))]
fn after_dash(behind: &[u8]) -> Option<(Unescaped, &[u8])>
    ensures parts { MatchOption result (after_dash (unescaped behind.now) ≡ None) (λ p. after_dash (unescaped behind.now) ≡ Some (p.0, unescaped p.1.now)) }
    ensures shorter { IfSome result (λ p. length p.1.now < length behind.now) }
{
    match next_unescaped(behind) {
        None => None,
        Some((dash, rest)) => match next_unescaped(rest) {
            None => None,
            Some((high, more)) => {
                if is_bare(dash, b'-') {
                    Some((high, more))
                } else {
                    None
                }
            }
        },
    }
}

/// The last byte of the range that a member of a class begins, which is the member itself where no
/// range follows, and what is written behind it.
#[tactic(auto, using(crate::proofs::Marks::single, crate::proofs::Marks::range_of))]
fn range_end(low: Unescaped, behind: &[u8]) -> (u8, &[u8])
    ensures range { ranges (low ∷ unescaped behind.now) ≡ (low.byte, result.0) ∷ ranges (unescaped result.1.now) }
    ensures shorter { length result.1.now ≤ length behind.now }
{
    match after_dash(behind) {
        None => (low.byte, behind),
        Some((high, rest)) => (high.byte, rest),
    }
}

/// Whether the byte is in the class that is written so.
#[tactic(auto, using(crate::proofs::Marks::nothing_in_class))]
pub(crate) fn in_class(class: &[u8], byte: u8) -> bool
    ensures { result ≡ in_class (ranges (unescaped class.now)) byte }
{
    let mut rest = class;
    'members: while let Some((low, behind)) = next_unescaped(rest) {
        let (high, after) = range_end(low, behind);
        if low.byte <= byte && byte <= high {
            return true;
        }
        rest = after;
    }
    false
}
