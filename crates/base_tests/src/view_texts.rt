use crate::shared::{key_of, laid, named};
use crate::shown::{put, put_qual, put_terms, put_vars};
use crate::tower::tower;
use base_trait::Base;
use calculus::{Name, QQual, RelKey};
use plain_base::DbPlain;
use std::alloc::Global;
use std::process::Abort;
use std::test::*;
use view_expand::{ExpansionFault, expansion_within};
use view_sizes::variables_within;
use view_text::Expansion;

/// A database of ann's: `parts`, bob's permit, and the views, each over those before it.
pub(crate) const LAID: [&[u8]; 8] = [
    // `parts` is made with three numbers of two bytes, `pnum`, `qoh` and `price`.
    b"\x01\x03ann\x05parts\x00\x00\x03\x04pnum\x00\x01\x03qoh\x00\x01\x05price\x00\x01\x00\x00\x00\x00\x00\x00",
    // bob may read the first two attributes of the parts that have the number 7.
    b"\x06\x03ann\x05parts\x00\x00\x00\x01\x01\x00\x02\x00\x01\x01\x03bob\x01\x00\x02\x00\x00\x00\x00\x00\x00\x00\x00\x00\x00\x07",
    // `numbers`: the numbers of the parts whose second attribute is 5.
    b"\x05\x03ann\x07numbers\x03\x00\x01\x04pnum\x00\x01\x00\x00\x00\x01\x03ann\x05parts\x00\x01\x04pnum\x00\x01\x02\x00\x00\x01\x00\x02\x00\x01\x00\x00\x00\x00\x00\x00\x00\x00\x05",
    // `few`: those of them that are above 3.
    b"\x05\x03ann\x03few\x03\x00\x01\x04pnum\x00\x01\x00\x00\x00\x01\x03ann\x07numbers\x00\x01\x04pnum\x00\x01\x02\x00\x00\x01\x04\x02\x00\x00\x00\x00\x00\x00\x00\x00\x00\x00\x03",
    // `pairs`: the second of two equal ones.
    b"\x05\x03ann\x05pairs\x03\x00\x01\x04pnum\x00\x01\x00\x00\x00\x02\x03ann\x07numbers\x03ann\x07numbers\x00\x01\x04pnum\x00\x01\x02\x01\x00\x01\x00\x02\x00\x00\x02\x01\x00",
    // `three`: the number 3.
    b"\x05\x03ann\x05three\x03\x00\x01\x04pnum\x01\x00\x00\x00\x00\x00\x01\x04pnum\x01\x00\x00\x00\x00\x00\x00\x00\x00\x03\x01\x00\x00\x00\x00\x00\x00\x00\x00\x00\x01\x00\x00\x00\x00\x00\x00\x00\x00\x01",
    // `never`: the number 3, where 1 is 2.
    b"\x05\x03ann\x05never\x03\x00\x01\x04pnum\x01\x00\x00\x00\x00\x00\x01\x04pnum\x01\x00\x00\x00\x00\x00\x00\x00\x00\x03\x01\x00\x00\x00\x00\x00\x00\x00\x00\x00\x01\x00\x00\x00\x00\x00\x00\x00\x00\x02",
    // `threes`: the second of two equal ones.
    b"\x05\x03ann\x06threes\x03\x00\x01\x04pnum\x01\x00\x00\x00\x02\x03ann\x05three\x03ann\x05three\x00\x01\x04pnum\x01\x02\x01\x00\x01\x00\x02\x00\x00\x02\x01\x00",
];

fn put_conditions<R: Abort>(rt: &R, written: &mut Vec<u8>, conditions: &[QQual]) {
    for condition in conditions {
        put(rt, written, b" ");
        put_qual(rt, written, condition);
    }
}

/// A text as bytes: what its variables range over, its terms, and its conditions; a star for the terms
/// where each attribute is its own.
fn put_text<R: Abort>(rt: &R, written: &mut Vec<u8>, text: &Expansion) {
    put_vars(rt, written, text.vars.items());
    put(rt, written, b"|");
    match &text.terms {
        Some(terms) => put_terms(rt, written, terms.items()),
        None => put(rt, written, b" *"),
    }
    put(rt, written, b" |");
    put_conditions(rt, written, text.conditions.items());
}

/// An answer as bytes.
fn put_answer<R: Abort>(rt: &R, written: &mut Vec<u8>, answer: &Result<Expansion, ExpansionFault>) {
    match answer {
        Ok(text) => put_text(rt, written, text),
        Err(ExpansionFault::NoPermit) => put(rt, written, b"no permit"),
        Err(_) => put(rt, written, b"a fault"),
    }
}

/// The text of what has a key, where it has few variables.
fn asked<B: Base>(
    alloc: Global,
    base: &mut B,
    who: Option<&Name>,
    key: &RelKey,
    attrs: &[u8],
    levels: u8,
) -> Result<Expansion, ExpansionFault> {
    if variables_within(alloc, base, key, levels)? > 256 {
        return Err(ExpansionFault::TooMany);
    }
    expansion_within(alloc, base, who, key, attrs, levels)
}

/// One who asks, what for, and the text.
type Case<'a> = (Option<&'a [u8]>, &'a [u8], &'a [u8], u8, &'a [u8]);

/// Whether the answer is as said.
fn is_as_said<R: Abort>(rt: &R, alloc: Global, base: &mut DbPlain, case: &Case) -> bool {
    let (user, name, attrs, levels, said) = *case;
    let key = key_of(rt, alloc, b"ann", name);
    let answer = match user {
        Some(user) => {
            let user = named(rt, alloc, user);
            asked(alloc, base, Some(&user), &key, attrs, levels)
        }
        None => asked(alloc, base, None, &key, attrs, levels),
    };
    let mut written = Vec::new(alloc);
    put_answer(rt, &mut written, &answer);
    written.as_slice() == said
}

#[test]
fn a_text_is_over_relations_with_what_is_permitted(rt: HostRuntime) {
    let cases: [Case; 14] = [
        (None, b"parts", &[2], 16, b"parts | * |"),
        (Some(b"ann"), b"parts", &[2], 16, b"parts | * |"),
        (Some(b"bob"), b"parts", &[0, 1], 16, b"parts | * | 0.0=7"),
        (Some(b"bob"), b"parts", &[0, 2], 16, b"no permit"),
        (Some(b"eve"), b"parts", &[0], 16, b"no permit"),
        (Some(b"eve"), b"relation", &[0], 16, b"relation | * |"),
        (None, b"numbers", &[0], 16, b"parts | 0.0 | 0.1=5 0.0=0.0"),
        (
            Some(b"bob"),
            b"few",
            &[0],
            16,
            b"parts | 0.0 | 0.0>3 0.0=0.0 0.1=5 0.0=0.0 0.0=7",
        ),
        (Some(b"eve"), b"few", &[0], 16, b"no permit"),
        (None, b"few", &[0], 1, b"no permit"),
        (
            None,
            b"pairs",
            &[0],
            16,
            b"parts parts | 1.0 | 0.0=1.0 1.0=1.0 0.1=5 0.0=0.0 1.1=5 1.0=1.0",
        ),
        (Some(b"eve"), b"three", &[0], 16, b"| 3 |"),
        (None, b"never", &[0], 16, b"| 3 | not true"),
        (Some(b"eve"), b"threes", &[0], 2, b"| 3 |"),
    ];
    let mut base = laid(&rt, rt.alloc(), &LAID);
    for case in &cases {
        assert!(rt; is_as_said(&rt, rt.alloc(), &mut base, case));
    }
}

/// The text of the view of this letter, through so many levels.
fn in_tower<R: Abort>(rt: &R, alloc: Global, letter: &[u8], levels: u8) -> Vec<u8> {
    let key = key_of(rt, alloc, b"ann", letter);
    let mut tower = tower(rt, alloc);
    let answer = expansion_within(alloc, &mut tower, None, &key, &[0], levels);
    drop(tower);
    drop(key);
    let mut written = Vec::new(alloc);
    put_answer(rt, &mut written, &answer);
    written
}

#[test]
fn a_view_is_walked_once(rt: HostRuntime) {
    let alloc = rt.alloc();
    assert!(rt; in_tower(&rt, alloc, b"p", 16).as_slice() == b"| 3 3 3 3 3 3 3 3 3 3 |".as_slice());
    assert!(rt; in_tower(&rt, alloc, b"p", 15).as_slice() == b"no permit".as_slice());
}
