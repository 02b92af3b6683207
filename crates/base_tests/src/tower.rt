//! Views, each over the one below it ten times.

use crate::shared::unknown;
use crate::shown::put;
use std::alloc::Global;
use std::process::Abort;
use std::test::*;
use test_bases::TestBase;

/// The view `a` has no variable, and the number 3 as its only target.
const LOWEST: &[u8] =
    b"\x05\x03ann\x01a\x03\x00\x00\x00\x00\x00\x00\x00\x01\x01t\x00\x01\x00\x00\x00\x00\x00\x00\x00\x00\x03\x00";

/// Everybody may read all of `parts`.
const PERMIT: &[u8] = b"\x06\x03ann\x05parts\x00\x00\x00\x01\x01\x00\x00\x00\x00";

/// Puts a query of ten variables over what is spelled so, and of the first attribute of each.
fn put_ten_over<R: Abort>(rt: &R, bytes: &mut Vec<u8>, key: &[u8]) {
    put(rt, bytes, b"\x00\x0a");
    for _ in 0..10u8 {
        put(rt, bytes, key);
    }
    put(rt, bytes, b"\x00\x0a");
    for var in 0..10u8 {
        put(rt, bytes, b"\x01t\x00\x01\x02");
        put(rt, bytes, &[var, 0]);
    }
    put(rt, bytes, b"\x00");
}

/// The bytes of such a query.
pub(crate) fn ten_over<R: Abort>(rt: &R, alloc: Global, key: &[u8]) -> Vec<u8> {
    let mut bytes = Vec::new(alloc);
    put_ten_over(rt, &mut bytes, key);
    bytes
}

/// The bytes of the view of a letter, which is over the view of the letter before it.
fn view<R: Abort>(rt: &R, alloc: Global, letter: u8) -> Vec<u8> {
    let mut bytes = Vec::new(alloc);
    put(rt, &mut bytes, b"\x05\x03ann\x01");
    put(rt, &mut bytes, &[letter, 3, 0, 0, 0, 0]);
    let below = [3, b'a', b'n', b'n', 1, letter.saturating_sub(1)];
    put_ten_over(rt, &mut bytes, &below);
    bytes
}

/// A base of which no database is known: 16 views, `a` to `p`, and the permit.
pub(crate) fn tower<R: Abort>(rt: &R, alloc: Global) -> TestBase {
    let mut base = unknown(rt, alloc, &[LOWEST, PERMIT]);
    for letter in b'b'..=b'p' {
        let bytes = view(rt, alloc, letter);
        let given = base.give(alloc, &bytes);
        drop(bytes);
        assert!(rt; given.is_ok());
    }
    base
}
