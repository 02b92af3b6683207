//! The kinds of bytes, and what stands at the front of a text.

ghost use Rattle.std.specs.Prelude.{◌≡◌, true, false, ◌<◌, ◌≤◌, ◌^◌, ◌-◌, length, map, min, IfOk, IfSome};
ghost use Rattle.std.specs.List.{prefix_len};
ghost use Rattle.calculus.specs.Name.{is_digit};
ghost use Rattle.quel_grammar.specs.Lexer.{is_white, is_letter, is_word_byte, lower, starts_with_byte, comment_len, quoted_len, number_of};

use std::alloc::{AllocError, Global};

/// Whether the byte is a blank, a tab, a newline or a carriage return.
pub fn is_white(byte: u8) -> bool
    ensures { result ≡ is_white byte }
{
    matches!(byte, b' ' | b'\t' | b'\n' | b'\r')
}

/// Whether the byte is a digit.
pub fn is_digit(byte: u8) -> bool
    ensures { result ≡ is_digit byte }
{
    byte.is_ascii_digit()
}

/// Whether the byte is a letter of either case or an underscore.
pub fn is_letter(byte: u8) -> bool
    ensures { result ≡ is_letter byte }
{
    byte.is_ascii_uppercase() || byte.is_ascii_lowercase() || byte == b'_'
}

fn is_word_byte(byte: u8) -> bool
    ensures { result ≡ is_word_byte byte }
{
    is_letter(byte) || is_digit(byte)
}

fn lower(byte: u8) -> u8
    ensures { result ≡ lower byte }
{
    byte.to_ascii_lowercase()
}

/// Whether the text's first byte is this one.
pub fn starts_with_byte(text: &[u8], byte: u8) -> bool
    ensures some { result ≡ true → 0 < length text.now }
    ensures byte { result ≡ starts_with_byte byte text.now }
{
    match text {
        [] => false,
        [first, ..] => *first == byte,
    }
}

/// How many bytes there are up to and with the next end of a comment.
pub fn comment_len(text: &[u8]) -> Option<usize>
    ensures len { result ≡ comment_len text.now }
    ensures within { IfSome result (λ n. n ≤ length text.now) }
{
    let mut rest = text;
    while let [first, later @ ..] = rest {
        if *first == b'*' && starts_with_byte(later, b'/') {
            return Some(text.len() - rest.len() + 2);
        }
        rest = later;
    }
    None
}

/// How many bytes of a text constant there are before its closing quote.
pub fn quoted_len(text: &[u8]) -> Option<usize>
    ensures len { result ≡ quoted_len false text.now }
    ensures within { IfSome result (λ n. n < length text.now) }
{
    let mut rest = text;
    let mut taken = false;
    while let [first, later @ ..] = rest {
        if *first == b'"' && !taken {
            return Some(text.len() - rest.len());
        }
        taken = *first == b'\\' && !taken;
        rest = later;
    }
    None
}

/// How many letters, digits and underscores there are at the front.
pub fn word_len(text: &[u8]) -> usize
    ensures len { result ≡ prefix_len is_word_byte text.now }
    ensures within { result ≤ length text.now }
{
    text.iter().take_while(|b| is_word_byte(**b)).count()
}

/// How many digits there are at the front.
pub fn digits_len(text: &[u8]) -> usize
    ensures len { result ≡ prefix_len is_digit text.now }
    ensures within { result ≤ length text.now }
{
    text.iter().take_while(|b| is_digit(**b)).count()
}

/// The number that digits stand for, or the greatest `u64` where it's greater.
pub fn number_of(digits: &[u8]) -> u64
    ensures { result ≡ min (number_of digits.now) (2 ^ 64 - 1) }
{
    let mut number = 0u64;
    for digit in digits {
        let units = u64::from(digit.saturating_sub(b'0'));
        number = number.saturating_mul(10).saturating_add(units);
    }
    number
}

/// The text with its letters in lower case.
pub fn lowered(alloc: Global, text: &[u8]) -> Result<Vec<u8>, AllocError>
    ensures { IfOk result (λ v. v.items ≡ map lower text.now) }
{
    text.iter().map(|b| lower(*b)).collect(alloc)
}
