//! Texts matched with patterns.

use scalar_eval::like;
use std::test::*;

/// A pattern, a text, and whether they match.
type Case = (&'static [u8], &'static [u8], bool);

const CASES: [Case; 18] = [
    (b"s*h?", b"smithy", true),
    (b"s*h?", b"smith", false),
    (b"[a-c]x", b"bx", true),
    (b"[a-c]x", b"dx", false),
    (b"\\*", b"*", true),
    (b"\\*", b"a", false),
    (b"[abc", b"[abc", true),
    (b"[]", b"", false),
    (b"", b"", true),
    (b"", b"a", false),
    (b"[\\]a]", b"]", true),
    (b"[a\\-c]", b"b", false),
    (b"[--0]", b"/", true),
    (b"[a-b-c]", b"-", true),
    (b"a  ", b"a", true),
    (b"a\\ ", b"a", false),
    (b"*a*b*c*", b"xxaxxbxxcxx", true),
    (b"*a*b*c", b"xxaxxbxxcxx", false),
];

#[test]
fn texts_match_patterns(rt: HostRuntime) {
    for (pattern, text, matches) in &CASES {
        assert!(rt; like(pattern, text) == *matches);
    }
}
