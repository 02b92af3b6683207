//! Whole statements, and texts at the edges of the language.

use crate::broken_statements::{DOUBLED, DROPPED, SWAPPED};
use crate::reading::{Answer, read_at};
use crate::table_lines::parts_of;
use std::alloc::{AllocError, Global};
use std::test::*;

/// Texts that begin with their blank, each behind what is read of it: `r` and where the statement
/// ends, `s` and where the text is refused, or `n` and 0 where nothing is there.
const TEXTS: &[u8] =
    b"r18 RANGE OF E IS EMP\nr29 range/**/of/*x*/e is/***/emp\nr18 range of e is emp range of f is emp\nr10 print a,b help\nr5 help help\nr7 help a b\nr25 retrieve(e.a)where e.a=1retrieve(e.b)\nr9 delete e delete f\nr16 append emp(a=1)\nr37 append to emp(a=9223372036854775807)\ns17 append to emp(a=9223372036854775808)\nr19 print abcdefghijkl\ns7 print abcdefghijklm\nr9 print _1\ns7 print 1a\nr26 delete e where e.a=\"\\\"\\\\\"\ns20 delete e where e.a=\"\\\"\nr43 retrieve (x = 1 ** 2 ** 3 - 4 - 5 * 6 / 7)\nr23 retrieve (x = - - + 1)\nr54 delete e where not not e.a = 1 or e.b = 2 and e.c = 3\nr31 delete e where ((e.a) + 1) = 2\nr27 delete e where ((e.a = 1))\ns21 delete e where (e.a)\ns19 delete e where e.a\ns10 retrieve where e.a = 1\nr17 retrieve r (e.a)\nr51 retrieve into r (e.a) sort by a:a, b:descending, c\ns28 retrieve (e.a) sort by a : up\nr34 modify emp to isam on a,b,c,d,e,f\ns35 modify emp to isam on a,b,c,d,e,f,g\ns35 modify emp to hash on a,b,c,d,e,f,\nr32 index on emp is x (a,b,c,d,e,f)\ns32 index on emp is x (a,b,c,d,e,f,g)\nr19 modify emp to heap on a\ns15 modify emp to cheap\ns15 create emp (a=c0)\nr30 create emp (a=c255,b=i1,c=i2)\ns15 create emp (a=c256)\ns15 create emp (a=c01)\ns15 create emp (a=i3)\nr59 copy emp (a=c0nl,b=c0sp,c=c0comma,d=c0colon,e=c1) into \"f\"\ns13 copy emp (a=c0xx) into \"f\"\nr30 destroy permit emp 4294967295\ns20 destroy permit emp 4294967296\nr28 destroy integrity emp 0, 01\ns32 define permit retrieve on e to where\nr63 define permit replace, delete to e (a, b) to all where e.a = 1 print x\ns8 define index\ns7 define\nn0 \nn0   /* */ \ns1 /*\nr8 print a /* b\nr8 print a ;\ns1 ; print a\ns7 print \"a\"\ns1 select\ns6 range\ns11 append to to (a=1)\nr26 retrieve (x = count(e.a))\nr53 retrieve (x = count (e.a by e.b, e.c where e.d = 1))\ns32 retrieve (x = any(e.a where e.b))\ns20 retrieve (x = abs(1, 2))\ns18 retrieve (x = foo(1))\ns20 retrieve (x = mod(1))\nr22 retrieve (e.all, e.a)\ns11 retrieve (all = 1)\ns15 retrieve (e.a = 1)\ns20 delete e where e.a ! = 1\ns22 delete e where e.a < > 1\nr5 help \\";

/// Whether this is what a table says: the letter, and the place.
fn is_read(answer: Answer, letter: u8, place: usize) -> bool {
    match answer {
        Answer::Statement(end, _) => letter == b'r' && place == end,
        Answer::Syntax(_, at) => letter == b's' && place == at,
        Answer::Nothing => letter == b'n' && place == 0,
        Answer::OutOfMemory => false,
    }
}

/// Whether the line says what is read of its text.
fn is_right(alloc: Global, line: &[u8]) -> bool {
    match line {
        [letter, rest @ ..] => {
            let (place, text) = parts_of(rest);
            is_read(read_at(alloc, text, 0), *letter, place)
        }
        [] => false,
    }
}

/// How many lines say what is read of their texts, and how many lines there are.
fn right(alloc: Global, lines: &[u8]) -> (usize, usize) {
    let mut right = 0usize;
    let mut all = 0usize;
    for line in lines.split(|byte| *byte == b'\n') {
        if is_right(alloc, line) {
            right = right.saturating_add(1);
        }
        all = all.saturating_add(1);
    }
    (right, all)
}

/// How many statements of the text are read, and what is read behind them.
fn refused_behind(alloc: Global, text: &[u8]) -> (usize, Answer) {
    let mut place = 0usize;
    let mut count = 0usize;
    for _ in 0..text.len() {
        match read_at(alloc, text, place) {
            Answer::Statement(end, _) => {
                place = end;
                count = count.saturating_add(1);
            }
            other => return (count, other),
        }
    }
    (count, Answer::Nothing)
}

/// Puts a text together: its front, so many copies of a part, what stands behind these, and so many
/// closing parentheses.
fn push_repeated(
    text: &mut Vec<u8>,
    front: &[u8],
    part: &[u8],
    count: usize,
    middle: &[u8],
    closed: usize,
) -> Result<(), AllocError> {
    text.extend_from_slice(front)?;
    for _ in 0..count {
        text.extend_from_slice(part)?;
    }
    text.extend_from_slice(middle)?;
    for _ in 0..closed {
        text.extend_from_slice(b")")?;
    }
    Ok(())
}

/// What is read of such a text.
fn read_repeated(
    alloc: Global,
    front: &[u8],
    part: &[u8],
    count: usize,
    middle: &[u8],
    closed: usize,
) -> Answer {
    let mut text = Vec::new(alloc);
    let answer = match push_repeated(&mut text, front, part, count, middle, closed) {
        Ok(()) => read_at(alloc, &text, 0),
        Err(_) => Answer::OutOfMemory,
    };
    drop(text);
    answer
}

#[test]
fn texts_are_read_and_refused_as_the_grammar_says(rt: HostRuntime) {
    assert!(rt; right(rt.alloc(), TEXTS) == (71, 71));
    assert!(rt; right(rt.alloc(), DROPPED) == (98, 98));
    assert!(rt; right(rt.alloc(), DOUBLED) == (88, 88));
    assert!(rt; right(rt.alloc(), SWAPPED) == (79, 79));
}

/// A script whose second statement stands behind the first.
const SCRIPT: &[u8] = b"help\nrange of E is emp\n\nprint ;";

/// A script whose fourth statement has a name that is too long.
const LONG_NAME: &[u8] =
    b"create w (a = c255, b = c255, c = c255, d = c235)\ncreate x (a = c255, b = c255, c = c255, d = c235, e = i1)\ncreate abcdefghijkl (a = i1)\ncreate abcdefghijklm (a = i1)\ncreate y (a = i1)\n";

/// A script with a wrong word.
const WRONG_WORD: &[u8] = b"create g (a = i1)\nretreive (x = 1)\ncreate h (a = i1)\n";

const TERM: &[u8] = b"delete e where e.a = ";

const CONDITION: &[u8] = b"delete e where ";

const COMPARED: &[u8] = b"e.a = 1";

/// A front, a part, how many copies of it, what stands behind these, how many closing parentheses, and
/// what is read.
type Long = (
    &'static [u8],
    &'static [u8],
    usize,
    &'static [u8],
    usize,
    u8,
    usize,
);

const LONG: [Long; 6] = [
    (TERM, b"-", 492, b"1", 0, b'r', 514),
    (TERM, b"-", 493, b"1", 0, b's', 514),
    (CONDITION, b"not ", 492, COMPARED, 0, b'r', 1990),
    (TERM, b"(", 50, b"1", 50, b'r', 122),
    (TERM, b"(", 51, b"1", 0, b's', 71),
    (CONDITION, b"(", 50, COMPARED, 50, b'r', 122),
];

#[test]
fn scripts_are_read_to_their_ends_and_statements_have_500_tokens_and_50_parentheses(
    rt: HostRuntime,
) {
    assert!(rt; read_at(rt.alloc(), SCRIPT, 4) == Answer::Statement(22, true));
    assert!(rt; refused_behind(rt.alloc(), SCRIPT) == (2, Answer::Syntax(4, 30)));
    assert!(rt; refused_behind(rt.alloc(), LONG_NAME) == (3, Answer::Syntax(4, 144)));
    assert!(rt; refused_behind(rt.alloc(), WRONG_WORD) == (1, Answer::Syntax(2, 18)));
    for (front, part, count, middle, closed, letter, place) in &LONG {
        let read = read_repeated(rt.alloc(), *front, *part, *count, *middle, *closed);
        assert!(rt; is_read(read, *letter, *place));
    }
}
