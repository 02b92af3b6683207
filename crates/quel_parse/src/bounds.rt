//! The bounds on a statement: 500 tokens, 50 parentheses open at once, and 6 keys.

ghost use Rattle.std.specs.Prelude.{◌≡◌, ◌≤◌, ◌<◌, ◌+◌, ◌-◌, ◌^◌, ◌&&◌, if◌then◌else◌};
ghost use Rattle.quel_grammar.specs.Bounds.{is_open, is_close, is_comma, has_keys, is_past, first_past};

use calculus::limits::{MOST_KEYS, MOST_PARENTHESES, MOST_TOKENS};
use quel_grammar::{Fixed, Token};

/// Whether the token opens a parenthesis.
fn is_open(token: &Token) -> bool
    ensures { result ≡ is_open token.now }
{
    matches!(token, Token::Fixed(Fixed::Open))
}

/// Whether the token closes a parenthesis.
fn is_close(token: &Token) -> bool
    ensures { result ≡ is_close token.now }
{
    matches!(token, Token::Fixed(Fixed::Close))
}

/// Whether the token is a comma.
fn is_comma(token: &Token) -> bool
    ensures { result ≡ is_comma token.now }
{
    matches!(token, Token::Fixed(Fixed::Comma))
}

/// Whether the tokens begin a `modify` or an `index`, in which commas stand only between keys.
fn has_keys(tokens: &[Token]) -> bool
    ensures { result ≡ has_keys tokens.now }
{
    matches!(tokens, [Token::Fixed(Fixed::Modify | Fixed::Index), ..])
}

/// Whether a token passes a bound behind so many tokens, open parentheses and commas between keys.
fn is_past(number: usize, opened: usize, commas: usize, token: &Token) -> bool
    ensures { result ≡ is_past (record { tokens = number; open_ = opened; commas = commas }) token.now }
{
    number >= MOST_TOKENS || (is_open(token) && opened >= MOST_PARENTHESES) || commas >= MOST_KEYS
}

/// How many parentheses are open behind the token.
fn open_behind(opened: usize, token: &Token) -> usize
    requires { opened < 2 ^ 63 }
    ensures value { result ≡ (if is_open token.now then opened + 1 else if is_close token.now then opened - 1 else opened) }
    ensures within { result ≤ opened + 1 }
{
    if is_open(token) {
        opened + 1
    } else if is_close(token) {
        opened.saturating_sub(1)
    } else {
        opened
    }
}

/// How many commas between keys stand before what follows the token.
fn commas_behind(keyed: bool, commas: usize, token: &Token) -> usize
    requires { commas < 2 ^ 63 }
    ensures value { result ≡ (if keyed && is_comma token.now then commas + 1 else commas) }
    ensures within { result ≤ commas + 1 }
{
    if keyed && is_comma(token) {
        commas + 1
    } else {
        commas
    }
}

/// The number of the first token that passes a bound, counted from 0.
pub fn first_past(tokens: &[Token]) -> Option<usize>
    ensures { result ≡ first_past tokens.now }
{
    let keyed = has_keys(tokens);
    let mut number = 0;
    let mut opened = 0;
    let mut commas = 0;
    for token in tokens {
        if is_past(number, opened, commas, token) {
            return Some(number);
        }
        opened = open_behind(opened, token);
        commas = commas_behind(keyed, commas, token);
        number += 1;
    }
    None
}
