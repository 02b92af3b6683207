//! What stands at the front of a text: white space, a comment, or a token.

ghost use Rattle.std.specs.Prelude.{◌≡◌, ◌<◌, ◌≤◌, ◌+◌, length, IfOk, IfSome};
ghost use Rattle.std.specs.List.{prefix_len};
ghost use Rattle.calculus.specs.Name.{is_digit};
ghost use Rattle.quel_grammar.specs.Lexer.{is_word_byte, word_token, word_at, int_at, text_at, token_at, piece_at};
ghost use Rattle.quel_grammar.specs.Words.{fixed_of};

use crate::front::{
    comment_len, digits_len, is_digit, is_letter, is_white, lowered, number_of, quoted_len,
    starts_with_byte, word_len,
};
use crate::words::{fixed_of, symbol_at};
use calculus::{Chars, Name, OutOfMemory};
use quel_grammar::{Number, Piece, Token};
use std::alloc::Global;

/// The token that a word in lower case is.
fn word_token(alloc: Global, word: &[u8]) -> Result<Option<Token>, OutOfMemory>
    ensures { IfOk result (λ t. t ≡ word_token word.now (fixed_of word.now)) }
{
    match fixed_of(word) {
        Some(fixed) => Ok(Some(Token::Fixed(fixed))),
        None => match Name::of(alloc, word) {
            Ok(name) => Ok(name.map(Token::Name)),
            Err(error) => Err(error),
        },
    }
}

/// The reserved word or the name at the front, and its length.
#[tactic(auto, unfolding(quel_grammar::specs::Lexer::word_at))]
fn word_at(alloc: Global, text: &[u8]) -> Result<Option<(Token, usize)>, OutOfMemory>
    requires { 0 < prefix_len is_word_byte text.now }
    ensures within { IfOk result (λ o. IfSome o (λ t. (0 < t.1) × (t.1 ≤ length text.now))) }
    ensures token { IfOk result (λ o. o ≡ word_at text.now) }
{
    let len = word_len(text);
    match lowered(alloc, text.split_at(len).0) {
        Ok(word) => match word_token(alloc, &word) {
            Ok(token) => Ok(token.map(|t| (t, len))),
            Err(error) => Err(error),
        },
        Err(_) => Err(OutOfMemory),
    }
}

/// The number at the front, and its length.
#[tactic(auto, unfolding(quel_grammar::specs::Lexer::int_at))]
fn int_at(text: &[u8]) -> Option<(Token, usize)>
    requires { 0 < prefix_len is_digit text.now }
    ensures within { IfSome result (λ t. (0 < t.1) × (t.1 ≤ length text.now)) }
    ensures token { result ≡ int_at text.now }
{
    let len = digits_len(text);
    let number = Number::of(number_of(text.split_at(len).0))?;
    Some((Token::Int(number), len))
}

/// The text constant at the front, and its length.
#[tactic(auto, unfolding(quel_grammar::specs::Lexer::text_at))]
fn text_at(alloc: Global, text: &[u8]) -> Result<Option<(Token, usize)>, OutOfMemory>
    requires { 0 < length text.now }
    ensures within { IfOk result (λ o. IfSome o (λ t. (0 < t.1) × (t.1 ≤ length text.now))) }
    ensures token { IfOk result (λ o. o ≡ text_at text.now) }
{
    let behind = text.split_at(1).1;
    let Some(len) = quoted_len(behind) else {
        return Ok(None);
    };
    match Chars::of(alloc, behind.split_at(len).0) {
        Ok(chars) => Ok(chars.map(|c| (Token::Text(c), len + 2))),
        Err(error) => Err(error),
    }
}

/// The longest token at the front, and its length.
#[tactic(auto, unfolding(quel_grammar::specs::Lexer::token_at))]
fn token_at(alloc: Global, text: &[u8]) -> Result<Option<(Token, usize)>, OutOfMemory>
    ensures within { IfOk result (λ o. IfSome o (λ t. (0 < t.1) × (t.1 ≤ length text.now))) }
    ensures token { IfOk result (λ o. o ≡ token_at text.now) }
{
    let [first, ..] = text else {
        return Ok(None);
    };
    if is_letter(*first) {
        word_at(alloc, text)
    } else if is_digit(*first) {
        Ok(int_at(text))
    } else if *first == b'"' {
        text_at(alloc, text)
    } else {
        Ok(symbol_at(text).map(|(fixed, len)| (Token::Fixed(fixed), len)))
    }
}

/// The white space, the comment or the token at the front, and its length. `None` where there is
/// nothing of these.
#[tactic(auto, unfolding(quel_grammar::specs::Lexer::piece_at))]
pub fn piece_at(alloc: Global, text: &[u8]) -> Result<Option<(Piece, usize)>, OutOfMemory>
    ensures within { IfOk result (λ o. IfSome o (λ p. (0 < p.1) × (p.1 ≤ length text.now))) }
    ensures piece { IfOk result (λ o. o ≡ piece_at text.now) }
{
    let [first, later @ ..] = text else {
        return Ok(None);
    };
    if is_white(*first) {
        Ok(Some((Piece::White, 1)))
    } else if *first == b'/' && starts_with_byte(later, b'*') {
        let len = comment_len(later.split_at(1).1);
        Ok(len.map(|n| (Piece::White, n + 2)))
    } else {
        match token_at(alloc, text) {
            Ok(token) => Ok(token.map(|(t, len)| (Piece::Token(t), len))),
            Err(error) => Err(error),
        }
    }
}
