//! Names, text constants, texts and values.

use crate::shared::text;
use calculus::{Chars, Domain, Name, Text, TryCopy, Value};
use std::alloc::Global;
use std::process::Abort;
use std::test::*;

/// A copy in the place of a value.
fn copied<T: TryCopy + Drop>(rt: &impl Abort, alloc: Global, value: T) -> T {
    let copy = value.copy(alloc).expect(rt, "no memory");
    drop(value);
    copy
}

/// Whether there is a name of these bytes; its copy has them.
fn is_name(rt: &impl Abort, alloc: Global, bytes: &[u8]) -> bool {
    match Name::of(alloc, bytes).expect(rt, "no memory") {
        Some(name) => {
            let copy = copied(rt, alloc, name);
            let same = copy.bytes() == bytes;
            drop(copy);
            same
        }
        None => false,
    }
}

/// Whether there is a text constant of these bytes; its copy has them.
fn is_constant(rt: &impl Abort, alloc: Global, bytes: &[u8]) -> bool {
    match Chars::of(alloc, bytes).expect(rt, "no memory") {
        Some(chars) => {
            let copy = copied(rt, alloc, chars);
            let same = copy.bytes() == bytes;
            drop(copy);
            same
        }
        None => false,
    }
}

/// How many of these bytes the copy of their text keeps, where there is one; it begins as they do.
fn kept(rt: &impl Abort, alloc: Global, bytes: &[u8]) -> Option<usize> {
    match Text::of(alloc, bytes).expect(rt, "no memory") {
        Some(text) => {
            let copy = copied(rt, alloc, text);
            let begins = bytes.starts_with(copy.bytes());
            let length = copy.bytes().len();
            drop(copy);
            begins.then_some(length)
        }
        None => None,
    }
}

/// Whether there is a name of these bytes, whether a text constant, and how many of them a text keeps.
fn made(rt: &impl Abort, alloc: Global, bytes: &[u8]) -> (bool, bool, Option<usize>) {
    let (name, constant) = (is_name(rt, alloc, bytes), is_constant(rt, alloc, bytes));
    (name, constant, kept(rt, alloc, bytes))
}

/// Bytes, whether they are a name, whether a text constant, and how many of them a text keeps.
type Bytes = (&'static [u8], bool, bool, Option<usize>);

const BYTES: [Bytes; 16] = [
    (b"a", true, true, Some(1)),
    (b"_1", true, true, Some(2)),
    (b"abcdefghijkl", true, true, Some(12)),
    (b"abcdefghijklm", false, true, Some(13)),
    (b"", false, true, Some(0)),
    (b"1a", false, true, Some(2)),
    (b"aB", false, true, Some(2)),
    (b"a b", false, true, Some(3)),
    (b" A\\\"~", false, true, Some(5)),
    (b"   ", false, true, Some(0)),
    (b" a b  ", false, true, Some(4)),
    (b"a\t", false, false, None),
    (b"a\n", false, false, None),
    (b"\x7f", false, false, None),
    (b"\x7f ", false, false, None),
    (b"\xc3", false, false, None),
];

#[test]
fn names_constants_and_texts_are_made_and_copied(rt: HostRuntime) {
    for (bytes, name, constant, length) in &BYTES {
        assert!(rt; made(&rt, rt.alloc(), bytes) == (*name, *constant, *length));
    }
    // A text has at most 255 bytes.
    assert!(rt; made(&rt, rt.alloc(), &[b'a'; 255]) == (false, true, Some(255)));
    assert!(rt; made(&rt, rt.alloc(), &[b'a'; 256]) == (false, false, None));
    let mut padded = [b' '; 300];
    padded[0] = b'x';
    assert!(rt; made(&rt, rt.alloc(), &padded) == (false, false, Some(1)));
}

/// Whether the number fits one, two and four bytes, and whether a text.
fn fitting(number: i64) -> (bool, bool, bool, bool) {
    let value = Value::Int(number);
    (
        value.fits(Domain::I1),
        value.fits(Domain::I2),
        value.fits(Domain::I4),
        value.fits(Domain::C(255)),
    )
}

/// A number, and whether it fits one, two and four bytes.
const NUMBERS: [(i64, bool, bool, bool); 13] = [
    (0, true, true, true),
    (127, true, true, true),
    (-128, true, true, true),
    (128, false, true, true),
    (-129, false, true, true),
    (32_767, false, true, true),
    (-32_768, false, true, true),
    (32_768, false, false, true),
    (-32_769, false, false, true),
    (2_147_483_647, false, false, true),
    (-2_147_483_648, false, false, true),
    (2_147_483_648, false, false, false),
    (-2_147_483_649, false, false, false),
];

/// Whether the text of these bytes fits a domain, and whether it comes behind a number.
fn fits(rt: &impl Abort, alloc: Global, bytes: &[u8], domain: Domain) -> (bool, bool) {
    let value = text(rt, alloc, bytes);
    let fits = (value.fits(domain), value.compare(&Value::Int(7)).is_gt());
    drop(value);
    fits
}

#[test]
fn values_fit_their_domains(rt: HostRuntime) {
    for (number, i1, i2, i4) in &NUMBERS {
        assert!(rt; fitting(*number) == (*i1, *i2, *i4, false));
    }
    assert!(rt; fits(&rt, rt.alloc(), b"abc", Domain::C(3)) == (true, true));
    assert!(rt; fits(&rt, rt.alloc(), b"abc", Domain::C(2)) == (false, true));
    assert!(rt; fits(&rt, rt.alloc(), b"abc", Domain::I4) == (false, true));
}
