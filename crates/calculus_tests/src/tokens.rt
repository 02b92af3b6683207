//! The tokens of texts, with their places.

use quel_lexer::{Lexed, Span, Stop, first_offset, lex_front, line_at, number_of, piece_at};
use std::alloc::Global;
use std::test::*;

/// Whether the tokens stand at these places, in order.
fn stand_at(spans: &[Span], places: &[(usize, usize)]) -> bool {
    let mut rest = places;
    for span in spans {
        let Some((place, later)) = rest.split_first() else {
            return false;
        };
        if span.begin != place.0 || span.end != place.1 {
            return false;
        }
        rest = later;
    }
    rest.is_empty()
}

/// The number of tokens that are cut of a text from a place on, at most so many, what follows them,
/// and whether they stand at these places.
fn cut_at(
    alloc: Global,
    text: &[u8],
    (from, most, one): (usize, usize, bool),
    places: &[(usize, usize)],
) -> (usize, Stop, bool) {
    match lex_front(alloc, text, from, most, one) {
        Ok(lexed) => {
            let there = stand_at(&lexed.spans, places);
            let cut = (lexed.tokens.len(), lexed.stop, there);
            drop(lexed);
            cut
        }
        Err(_) => (99, Stop::More, false),
    }
}

/// The length of what stands at the front of a text.
fn length(alloc: Global, text: &[u8]) -> Option<usize> {
    match piece_at(alloc, text) {
        Ok(Some((token, length))) => {
            drop(token);
            Some(length)
        }
        _ => None,
    }
}

const TEXT: &[u8] = b" print /* two */ A_1,\n\"x y\" 07 <= ;";

/// Where its tokens begin and end.
const PLACES: [(usize, usize); 6] = [(1, 6), (17, 20), (20, 21), (22, 27), (28, 30), (31, 33)];

const STATEMENTS: &[u8] = b"print a, b help print c";

/// From where they are cut, how many at most, whether of one statement alone; how many are cut, and what
/// follows.
const CUTS: [(usize, usize, bool, usize, Stop); 4] = [
    (0, 9, true, 5, Stop::More),
    (0, 3, true, 3, Stop::More),
    (0, 9, false, 7, Stop::End),
    (99, 9, false, 0, Stop::End),
];

const LINES: &[u8] = b"help\n /* \n */ print a ;";

/// A place, where the first token behind it begins, and the line.
const BEGINS: [(usize, usize, u32); 4] = [(4, 14, 1), (21, 22, 3), (30, 30, 3), (5, 14, 2)];

/// A text, and the length of what stands at its front.
const PIECES: [(&[u8], Option<usize>); 6] = [
    (b"/*/ */x", Some(6)),
    (b"retrieves (", Some(9)),
    (b"**2", Some(2)),
    (b"\"a\\\"b\" c", Some(6)),
    (b"\"a", None),
    (b"", None),
];

#[test]
fn tokens_have_places_and_the_longest_piece_stands_in_front(rt: HostRuntime) {
    assert!(rt; cut_at(rt.alloc(), TEXT, (1, 9, false), &PLACES) == (6, Stop::Bad(34), true));
    for (from, most, one, count, stop) in &CUTS {
        let (tokens, follows, _) = cut_at(rt.alloc(), STATEMENTS, (*from, *most, *one), &[]);
        assert!(rt; tokens == *count && follows == *stop);
    }
    for (at, first, line) in &BEGINS {
        assert!(rt; first_offset(rt.alloc(), LINES, *at) == Ok(*first));
        assert!(rt; line_at(LINES, *at) == *line);
    }
    for (text, want) in &PIECES {
        assert!(rt; length(rt.alloc(), *text) == *want);
    }
    assert!(rt; number_of(b"0042") == 42);
}
