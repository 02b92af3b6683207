//! The next statement of a text.

ghost use Rattle.std.specs.Prelude.{◌≡◌, ◌≤◌, ◌||◌, true, false, suc, length, take, slice_get, is_some, IfOk, IfSome, Some, None, if◌then◌else◌};
ghost use Rattle.quel_grammar.specs.NextReader.{taken, next_at};
ghost use Rattle.quel_grammar.specs.StatementReaders.{statement_by};
ghost use Rattle.quel_grammar.specs.Pieces.{pieces_from};
ghost use Rattle.quel_parse.specs.Next.{IsFrontRead, Answers, last_end, place_in, answer_in, is_blank, is_sure, seen, value_of};
ghost use Rattle.quel_parse.specs.declared.next.ParseFault.TheVariants.{OutOfMemory as NoMemory};
ghost use Rattle.quel_grammar.specs.Bounds.{first_past};

use crate::bounds::first_past;
use crate::verbs::statement_by;
use calculus::{Boxed, OutOfMemory, Statement};
use quel_grammar::Token;
use quel_lexer::{Lexed, Span, Stop, lex_front, line_at};
use quel_terms::Halt;
use std::alloc::Global;

/// So many tokens tell of any text what is read of it: a statement has at most 500.
const ENOUGH: usize = 501;
/// So many tokens tell of most statements that begin with two words of statements.
const SOME: usize = 64;

/// Why there is no statement.
#[derive(Clone, Copy, Debug)]
pub enum ParseFault {
    /// No statement begins there.
    Syntax {
        /// The line of the first token that no statement has there: 1 and as many as there are
        /// newlines before it, at most 4,294,967,295.
        line: u32,
        /// The place of this token.
        at: usize,
    },
    /// No memory was left.
    OutOfMemory,
}

impl From<OutOfMemory> for ParseFault {
    ghost from_gives = { λ _ fault. fault ≡ NoMemory };

    fn from(_error: OutOfMemory) -> ParseFault {
        ParseFault::OutOfMemory
    }
}

/// What is read.
#[derive(Drop)]
enum Next<T> {
    /// Nothing: only white space and comments follow.
    Nothing,
    /// A value, whose last token ends there.
    Read(T, usize),
    /// Something else: the first token that can't stand there is at this place.
    Syntax(usize),
}

/// What was read of tokens, and of how many.
#[derive(Drop)]
struct Front<T> {
    /// The value, if there is one.
    value: Option<T>,
    /// The number of tokens that it has; else of those before the first that can't stand there.
    taken: usize,
}

/// Reads a statement from the tokens, as if no more followed.
fn read_tokens(alloc: Global, tokens: &[Token]) -> Result<Front<Boxed<Statement>>, OutOfMemory>
    requires { length tokens.now ≤ 501 }
    ensures { IfOk result (λ front. IsFrontRead tokens.now front) }
{
    let depth = tokens.len() as u16 + 1;
    match statement_by(alloc, depth, tokens) {
        Ok((statement, rest)) => Ok(Front {
            value: Some(statement),
            taken: tokens.len().saturating_sub(rest.len()),
        }),
        Err(Halt::Stop(rest)) => Ok(Front {
            value: None,
            taken: tokens.len().saturating_sub(rest.len()),
        }),
        Err(Halt::Memory) => Err(OutOfMemory),
    }
}

/// Where the last of these tokens ends; 0 where there is none.
fn last_end(spans: &[Span]) -> usize
    ensures { result ≡ last_end 0 spans.now }
{
    match spans {
        [] => 0,
        [.., last] => last.end,
    }
}

/// Where what follows all tokens stands.
fn place_behind(lexed: &Lexed) -> usize
    ensures { result ≡ place_in lexed.now None }
{
    match lexed.stop {
        Stop::Bad(bad) => bad,
        Stop::More | Stop::End => last_end(&lexed.spans),
    }
}

/// Where the token of this number stands; where there is none, what follows all tokens.
fn place_of(lexed: &Lexed, number: usize) -> usize
    ensures { result ≡ place_in lexed.now (slice_get lexed.now.spans.items number) }
{
    match lexed.spans.get(number) {
        Some(span) => span.begin,
        None => place_behind(lexed),
    }
}

/// What is read, where this was read of the tokens and the first one that passes a bound has this
/// number.
fn answer<T: Drop>(front: Front<T>, past: Option<usize>, lexed: &Lexed) -> Next<T>
    requires { front.taken ≤ length lexed.now.spans.items }
    ensures { result ≡ answer_in lexed.now front past }
{
    match (past, front.value) {
        (Some(number), _) => Next::Syntax(place_of(lexed, number)),
        (None, Some(value)) => {
            let spans = lexed.spans.split_at(front.taken).0;
            Next::Read(value, last_end(spans))
        }
        (None, None) => Next::Syntax(place_of(lexed, front.taken)),
    }
}

/// Whether only white space and comments were there.
fn is_blank(lexed: &Lexed) -> bool
    ensures { result ≡ is_blank lexed.now }
{
    match lexed.stop {
        Stop::End => lexed.tokens.is_empty(),
        Stop::More | Stop::Bad(_) => false,
    }
}

/// Whether more tokens would change nothing.
fn is_sure(taken: usize, past: Option<usize>, lexed: &Lexed) -> bool
    ensures { result ≡ is_sure taken past lexed.now }
{
    taken < lexed.tokens.len() || past.is_some() || lexed.stop != Stop::More
}

/// The value, where it is sure.
fn when<T: Drop>(sure: bool, value: T) -> Option<T>
    ensures { result ≡ (if sure then Some value else None) }
{
    if sure { Some(value) } else { None }
}

/// What is read of the text from a place on, told from its first tokens; `None` where they don't
/// tell.
fn decided(
    alloc: Global,
    text: &[u8],
    from: usize,
    most: usize,
    one: bool,
) -> Result<Option<Next<Boxed<Statement>>>, OutOfMemory>
    requires { most ≤ 501 }
    ensures next { IfOk result (λ o. IfSome o (λ next. seen next ≡ next_at text.now from)) }
    ensures all { IfOk result (λ o. most ≡ 501 → one ≡ false → is_some o ≡ true) }
{
    let lexed = lex_front(alloc, text, from, most, one)?;
    if is_blank(&lexed) {
        return Ok(Some(Next::Nothing));
    }
    let front = read_tokens(alloc, &lexed.tokens)?;
    let past = first_past(lexed.tokens.split_at(front.taken).0);
    let sure = is_sure(front.taken, past, &lexed);
    Ok(when(sure, answer(front, past, &lexed)))
}

/// What is read of the text from a place on.
fn read_next(alloc: Global, text: &[u8], from: usize) -> Result<Next<Boxed<Statement>>, OutOfMemory>
    ensures { IfOk result (λ next. seen next ≡ next_at text.now from) }
{
    if let Some(next) = decided(alloc, text, from, ENOUGH, true)? {
        return Ok(next);
    }
    if let Some(next) = decided(alloc, text, from, SOME, false)? {
        return Ok(next);
    }
    match decided(alloc, text, from, ENOUGH, false)? {
        Some(next) => Ok(next),
        None => Ok(Next::Nothing),
    }
}

/// The next statement of a text from a place on, and the place behind its last token. `None` where
/// only white space and comments follow, and `Syntax` where no statement begins there: both exactly
/// as the grammar says. Only the tokens of the statement and the first one behind them are cut, where
/// no second word in it begins statements. The source of the grammar is the manual.
pub fn next_statement(
    alloc: Global,
    text: &[u8],
    from: usize,
) -> Result<Option<(Statement, usize)>, ParseFault>
    ensures { Answers text.now (next_at text.now from) result }
{
    match read_next(alloc, text, from)? {
        Next::Nothing => Ok(None),
        Next::Read(statement, end) => Ok(Some((statement.into_inner(), end))),
        Next::Syntax(at) => Err(ParseFault::Syntax {
            line: line_at(text, at),
            at,
        }),
    }
}
