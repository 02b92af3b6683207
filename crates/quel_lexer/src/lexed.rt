//! The first tokens of a text from a place on, with their places.

ghost use Rattle.std.specs.Prelude.{◌≡◌, ◌≤◌, ◌++◌, ◌∷◌, [], false, length, drop, IfOk, OnOk};
ghost use Rattle.quel_grammar.specs.Next.{first_offset};
ghost use Rattle.quel_grammar.specs.Pieces.{pieces_from};
ghost use Rattle.quel_lexer.specs.declared.lexed.Stop.TheVariants.{More};
ghost use Rattle.quel_lexer.specs.Lexed.{IsFront, is_verb, first_begin, stop_or};

use crate::piece::piece_at;
use calculus::OutOfMemory;
use quel_grammar::{Fixed, Piece, Token};
use std::alloc::Global;

/// Where a token stands in a text.
#[derive(Clone, Copy)]
pub struct Span {
    /// The place of its first byte.
    pub begin: usize,
    /// The place behind its last byte.
    pub end: usize,
}

/// What follows the tokens that were cut.
#[derive(Clone, Copy, PartialEq, Eq)]
pub enum Stop {
    /// Perhaps more tokens: enough were cut.
    More,
    /// White space and comments to the end of the text.
    End,
    /// A place that begins neither white space nor a comment nor a token.
    Bad(usize),
}

/// The first tokens of a text from a place on.
pub struct Lexed {
    /// The tokens, in order.
    pub tokens: Vec<Token>,
    /// Their places, one beside each token.
    pub spans: Vec<Span>,
    /// What follows them.
    pub stop: Stop,
}

impl Drop for Lexed {
    fn drop(self) {
        let Self {
            tokens: _,
            spans: _,
            stop: _,
        } = self;
    }
}

/// Whether the token begins a statement.
fn is_verb(token: &Token) -> bool
    ensures { result ≡ is_verb token.now }
{
    let Token::Fixed(fixed) = token else {
        return false;
    };
    match *fixed {
        Fixed::Range | Fixed::Retrieve | Fixed::Append | Fixed::Replace | Fixed::Delete => true,
        Fixed::Create | Fixed::Destroy | Fixed::Modify | Fixed::Index => true,
        Fixed::Print | Fixed::Help | Fixed::Copy | Fixed::Define => true,
        _ => false,
    }
}

/// What stands behind a place of a text.
fn behind(text: &[u8], at: usize) -> &[u8]
    ensures { result.now ≡ drop at text.now }
{
    if at > text.len() {
        return text.split_at(text.len()).1;
    }
    text.split_at(at).1
}

/// Puts a token and its place behind others.
fn put(
    tokens: &mut Vec<Token>,
    spans: &mut Vec<Span>,
    token: Token,
    span: Span,
) -> Result<(), OutOfMemory>
    ensures tokens { OnOk result (tokens.new.items ≡ tokens.old.items ++ token ∷ []) }
    ensures spans { OnOk result (spans.new.items ≡ spans.old.items ++ span ∷ []) }
{
    tokens.push(token)?;
    spans.push(span)?;
    Ok(())
}

/// Cuts the first tokens of a text from a place on into two lists that have none, and says what
/// follows them.
fn cut(
    alloc: Global,
    text: &[u8],
    from: usize,
    most: usize,
    one: bool,
    tokens: &mut Vec<Token>,
    spans: &mut Vec<Span>,
) -> Result<Stop, OutOfMemory>
    requires no_tokens { tokens.old.items ≡ [] }
    requires no_spans { spans.old.items ≡ [] }
    ensures front { IfOk result (λ stop. IsFront (pieces_from text.now from) (record { tokens = tokens.new; spans = spans.new; stop = stop })) }
    ensures many { IfOk result (λ stop. length tokens.new.items ≤ most) }
    ensures all { IfOk result (λ stop. one ≡ false → stop ≡ More → length tokens.new.items ≡ most) }
{
    let mut rest = behind(text, from);
    let mut at = from;
    while tokens.len() < most {
        if rest.is_empty() {
            return Ok(Stop::End);
        }
        let Some((piece, len)) = piece_at(alloc, rest)? else {
            return Ok(Stop::Bad(at));
        };
        let end = at + len;
        rest = rest.split_at(len).1;
        if let Piece::Token(token) = piece {
            let last = one && !tokens.is_empty() && is_verb(&token);
            put(tokens, spans, token, Span { begin: at, end })?;
            if last {
                return Ok(Stop::More);
            }
        }
        at = end;
    }
    Ok(Stop::More)
}

/// The first tokens of a text from a place on, at most so many. With `one`, no more are cut than
/// up to the first one behind the first that begins a statement: mostly that is the next
/// statement's.
pub fn lex_front(
    alloc: Global,
    text: &[u8],
    from: usize,
    most: usize,
    one: bool,
) -> Result<Lexed, OutOfMemory>
    ensures front { IfOk result (λ lexed. IsFront (pieces_from text.now from) lexed) }
    ensures many { IfOk result (λ lexed. length lexed.tokens.items ≤ most) }
    ensures all { IfOk result (λ lexed. one ≡ false → lexed.stop ≡ More → length lexed.tokens.items ≡ most) }
{
    let mut tokens = Vec::new(alloc);
    let mut spans = Vec::new(alloc);
    let stop = cut(alloc, text, from, most, one, &mut tokens, &mut spans)?;
    Ok(Lexed {
        tokens,
        spans,
        stop,
    })
}

/// Where the first of these begins.
fn first_begin(spans: &[Span]) -> Option<usize>
    ensures { result ≡ first_begin spans.now }
{
    match spans {
        [] => None,
        [span, ..] => Some(span.begin),
    }
}

/// The place of what begins no token; where there is none, this place.
fn bad_or(at: usize, stop: Stop) -> usize
    ensures { result ≡ stop_or at stop }
{
    match stop {
        Stop::Bad(bad) => bad,
        Stop::More | Stop::End => at,
    }
}

/// The place of the first token at or behind a place; where there is none, that of what begins no
/// token, or the place itself.
pub fn first_offset(alloc: Global, text: &[u8], at: usize) -> Result<usize, OutOfMemory>
    ensures { IfOk result (λ offset. offset ≡ first_offset text.now at) }
{
    let lexed = lex_front(alloc, text, at, 1, false)?;
    match first_begin(&lexed.spans) {
        Some(begin) => Ok(begin),
        None => Ok(bad_or(at, lexed.stop)),
    }
}
