// Qualifications of as many levels as a tree may have, and of one more.
ghost use Rattle.std.specs.Prelude.{◌≡◌};

use crate::pieces::{Answer, Named, Pieces, TREE, are_answered};
use quel_tree::RuleTree;
use std::test::*;

/// The pieces of qualifications, by their names.
const PIECES: [Named; 10] = [
    // The number of a rule, in front of its qualification.
    (b"rule", b"\x00\x00\x00\x01"),
    // `and`, up to its left side and up to its right side, and `or`.
    (b"and_left", b"\x03"),
    (b"and_right", b"\x03\x00"),
    (b"or_left", b"\x04"),
    (b"or_right", b"\x04\x00"),
    // A comparison, up to its left side and up to its right side.
    (b"less", b"\x01\x02"),
    (b"than", b"\x01\x02\x00\x00\x00\x00\x00\x00\x00\x00\x07"),
    // A pattern, up to its term, and behind it.
    (b"like", b"\x02"),
    (b"this", b"\x00\x01"),
    // A text behind an empty one, up to it.
    (b"concat", b"\x06\x01\x00"),
];

const NESTED: [(Pieces, Answer); 10] = [
    (b"rule 2999 not true", TREE),
    (b"rule 3000 not true", Err(3_003)),
    (b"rule 2999 and_left 3000 true", TREE),
    (b"rule 3000 and_left 3001 true", Err(3_003)),
    (b"rule 2999 and_right true", TREE),
    (b"rule 3000 and_right true", Err(6_002)),
    (b"rule 2999 or_left 3000 true", TREE),
    (b"rule 3000 or_left 3001 true", Err(3_003)),
    (b"rule 2999 or_right true", TREE),
    (b"rule 3000 or_right true", Err(6_002)),
];

const COMPARED: [(Pieces, Answer); 10] = [
    (b"rule 2998 not less 2 int", TREE),
    (b"rule 2999 not less 2 int", Err(3_003)),
    (b"rule 2998 not like chars this", TREE),
    (b"rule 2999 not like chars this", Err(3_003)),
    // Of deep terms.
    (b"rule less 2998 neg 2 int", TREE),
    (b"rule less 2999 neg 2 int", Err(3_004)),
    (b"rule than 2998 neg int", TREE),
    (b"rule than 2999 neg int", Err(3_013)),
    (b"rule like 2998 concat chars this", TREE),
    (b"rule like 2999 concat chars this", Err(8_999)),
];

#[test]
fn qualifications_have_as_many_levels_as_a_tree_may_have(rt: HostRuntime) {
    assert!(rt; are_answered::<RuleTree>(rt.alloc(), &rt, &PIECES, &NESTED));
    assert!(rt; are_answered::<RuleTree>(rt.alloc(), &rt, &PIECES, &COMPARED));
}
