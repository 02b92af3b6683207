//! Matching a text with a pattern.

ghost use Rattle.std.specs.Prelude.{ℕ, ◌≡◌, ◌<◌, ◌≤◌, ◌∷◌, [], length, Some, None, false, not, suc, ◌^◌, ◌||◌, ◌==◌, if◌then◌else◌, MatchOption, IfSome};
ghost use Rattle.calculus.specs.Constant.{unescaped};
ghost use Rattle.calculus.specs.Pattern.{unpadded, fits_items, matches};
ghost use Rattle.scalar_eval.specs.Walk.{NoneCloses, written_items, bracket_written, behind_byte, behind_any_text, kept_from};

use crate::class::{class_before, escapes, in_class, is_bare, unclosed_length};
use calculus::next_unescaped;

/// How many bytes are kept up to this byte at this place, where `kept` are in front of it: all of them,
/// unless it is a blank that no backslash makes plain.
fn kept_with(at: usize, kept: usize, escaped: bool, byte: u8) -> usize
    requires { at < 2 ^ 63 }
    ensures { result ≡ (if escaped || not (byte == 32) then suc at else kept) }
{
    if escaped || byte != b' ' {
        at + 1
    } else {
        kept
    }
}

/// How many bytes are kept where the blanks at the end that no backslash makes plain are dropped.
fn unpadded_length(pattern: &[u8]) -> usize
    ensures { result ≡ kept_from 0 0 false pattern.now }
{
    let mut escaped = false;
    let mut kept = 0;
    for (at, byte) in pattern.iter().enumerate() {
        kept = kept_with(at, kept, escaped, *byte);
        escaped = escapes(escaped, *byte);
    }
    kept
}

/// The pattern without the blanks at the end that no backslash makes plain.
#[tactic(auto, using(crate::proofs::Unpadded::kept_within, crate::proofs::Unpadded::kept_marks))]
fn unpadded(pattern: &[u8]) -> &[u8]
    ensures { unescaped result.now ≡ unpadded (unescaped pattern.now) }
{
    pattern.split_at(unpadded_length(pattern)).0
}

/// What is written behind a `*` that comes first.
#[tactic(auto, using(crate::proofs::Items::any_text_none, crate::proofs::Items::any_text_there, crate::proofs::Items::any_text_else, crate::proofs::Unclosed::next_none_closes))]
fn behind_any_text(pattern: &[u8]) -> Option<&[u8]>
    ensures first { MatchOption result (behind_any_text (written_items pattern.now) ≡ None) (λ r. behind_any_text (written_items pattern.now) ≡ Some (written_items r.now)) }
    ensures shorter { IfSome result (λ r. length r.now < length pattern.now) }
    ensures none_closes { IfSome result (λ r. (unclosed : ℕ) → NoneCloses unclosed (unescaped pattern.now) → NoneCloses unclosed (unescaped r.now)) }
{
    match next_unescaped(pattern) {
        None => None,
        Some((unescaped_byte, behind)) => {
            if is_bare(unescaped_byte, b'*') {
                Some(behind)
            } else {
                None
            }
        }
    }
}

/// What is written behind the class, or the plain `[`, that a `[` in front begins, where that takes
/// the byte. No `]` follows exactly where at most `unclosed` bytes are left.
#[tactic(auto, using(crate::proofs::Items::class_takes, crate::proofs::Items::class_refuses, crate::proofs::Items::open_takes, crate::proofs::Items::open_refuses))]
fn behind_bracket(unclosed: usize, behind: &[u8], byte: u8) -> Option<&[u8]>
    requires { NoneCloses unclosed (unescaped behind.now) }
    ensures first { MatchOption result (behind_byte (bracket_written behind.now) byte ≡ None) (λ r. behind_byte (bracket_written behind.now) byte ≡ Some (written_items r.now)) }
    ensures shorter { IfSome result (λ r. length r.now ≤ length behind.now) }
    ensures none_closes { IfSome result (λ r. NoneCloses unclosed (unescaped r.now)) }
{
    match class_before(unclosed, behind) {
        Some((class, rest)) => {
            if in_class(class, byte) {
                Some(rest)
            } else {
                None
            }
        }
        None => { if byte == b'[' { Some(behind) } else { None } }
    }
}

/// What is written behind the first item, where that takes the byte; a `*` takes none. No `]` follows
/// exactly where at most `unclosed` bytes are left.
#[tactic(auto, using(crate::proofs::Items::byte_none, crate::proofs::Items::byte_star, crate::proofs::Items::byte_question, crate::proofs::Items::byte_bracket, crate::proofs::Items::byte_itself, crate::proofs::Items::byte_other, crate::proofs::Unclosed::next_none_closes))]
fn behind_byte(unclosed: usize, pattern: &[u8], byte: u8) -> Option<&[u8]>
    requires { NoneCloses unclosed (unescaped pattern.now) }
    ensures first { MatchOption result (behind_byte (written_items pattern.now) byte ≡ None) (λ r. behind_byte (written_items pattern.now) byte ≡ Some (written_items r.now)) }
    ensures shorter { IfSome result (λ r. length r.now < length pattern.now) }
    ensures none_closes { IfSome result (λ r. NoneCloses unclosed (unescaped r.now)) }
{
    match next_unescaped(pattern) {
        None => None,
        Some((unescaped_byte, behind)) => {
            if is_bare(unescaped_byte, b'*') {
                None
            } else if is_bare(unescaped_byte, b'?') {
                Some(behind)
            } else if is_bare(unescaped_byte, b'[') {
                behind_bracket(unclosed, behind, byte)
            } else if byte == unescaped_byte.byte {
                Some(behind)
            } else {
                None
            }
        }
    }
}

/// The first byte and those behind it.
fn front(text: &[u8]) -> Option<(u8, &[u8])>
    ensures { MatchOption result (text.now ≡ []) (λ p. text.now ≡ p.0 ∷ p.1.now) }
{
    match text.split_first() {
        None => None,
        Some((byte, rest)) => Some((*byte, rest)),
    }
}

/// Whether the text fits the items that are written. At a `*` the items behind it are tried at each
/// place of the text in turn, until another `*` is reached: what stands in front of that is settled.
fn fits_written(pattern: &[u8], text: &[u8]) -> bool
    ensures { result ≡ fits_items (written_items pattern.now) text.now }
{
    let unclosed = unclosed_length(pattern);
    let mut items = pattern;
    let mut rest = text;
    let mut again_items = pattern;
    let mut again_rest: &[u8] = &[];
    'walk: loop {
        if let Some(behind) = behind_any_text(items) {
            items = behind;
            again_items = behind;
            again_rest = rest;
            continue;
        }
        let Some((byte, more)) = front(rest) else {
            return items.is_empty();
        };
        match behind_byte(unclosed, items, byte) {
            Some(behind) => {
                items = behind;
                rest = more;
            }
            None => {
                let Some((_, later)) = front(again_rest) else {
                    return false;
                };
                items = again_items;
                rest = later;
                again_rest = later;
            }
        }
    }
}

/// Whether the text matches the pattern. Takes no memory. However many `*` and `[` the pattern has,
/// each of its items is tried at most once for each place of the text, and to try one is to read no
/// more than its own bytes: a `[` is read on to its `]`, and alone where none follows.
#[tactic(auto, unfolding(calculus::specs::Pattern::matches, calculus::specs::Pattern::items, crate::specs::Walk::written_items))]
pub fn like(pattern: &[u8], text: &[u8]) -> bool
    ensures { result ≡ matches pattern.now text.now }
{
    fits_written(unpadded(pattern), text)
}
