// Trees of several qualifications: each of them has as many levels as a tree may have, or one more.
ghost use Rattle.std.specs.Prelude.{◌≡◌};

use crate::pieces::{Answer, Named, Pieces, TREE, are_answered};
use quel_tree::{CheckedTree, DbChangeTree, PermitTree};
use std::test::*;

/// The pieces of requests, of changes and of permits, by their names.
const PIECES: [Named; 11] = [
    // An update that appends, up to the qualification of its query, and behind it.
    (b"append", b"\x01\x00\x01a\x01p\xff\x00\x00\x00\x00\x00\x00"),
    (b"unchecked", b"\x00\x00\x00"),
    // One up to a rule that it checks, and one up to what cuts its new rows.
    (
        b"checked",
        b"\x01\x00\x01a\x01p\xff\x00\x00\x00\x00\x00\x00\x00\x00\x01",
    ),
    (
        b"cut",
        b"\x01\x00\x01a\x01p\xff\x00\x00\x00\x00\x00\x00\x00\x00\x00",
    ),
    // A view, a permit and a rule that are defined, up to their qualification.
    (b"view", b"\x02\x05\x01a\x01v\x00\x00\x00\x00"),
    (
        b"permit",
        b"\x02\x06\x01a\x01p\x00\x00\x00\x00\x01\x00\x00\x00",
    ),
    (b"rule", b"\x02\x07\x01a\x01p\x00\x00\x00\x00"),
    // A view, a permit and a rule that come into a database, up to their qualification.
    (
        b"new_view",
        b"\x05\x01a\x01v\x03\x00\x00\x00\x00\x00\x00\x00\x00",
    ),
    (
        b"new_permit",
        b"\x06\x01a\x01p\x00\x00\x00\x01\x01\x00\x00\x00",
    ),
    (b"new_rule", b"\x07\x01a\x01p\x00\x00\x00\x01"),
    // A permit for a user, up to its qualification.
    (b"bob", b"\x00\x00\x00\x01\x01\x00\x00\x01\x03bob"),
];

const REQUESTS: [(Pieces, Answer); 12] = [
    (b"append 2998 not true unchecked", TREE),
    (b"append 2999 not true unchecked", Err(3_011)),
    (b"checked 2999 not 2 true", TREE),
    (b"checked 3000 not 2 true", Err(3_015)),
    (b"cut 2999 not true", TREE),
    (b"cut 3000 not true", Err(3_015)),
    (b"view 2998 not true", TREE),
    (b"view 2999 not true", Err(3_008)),
    (b"permit 2999 not true", TREE),
    (b"permit 3000 not true", Err(3_013)),
    (b"rule 2999 not true", TREE),
    (b"rule 3000 not true", Err(3_009)),
];

const CHANGES: [(Pieces, Answer); 6] = [
    (b"new_view 2998 not true", TREE),
    (b"new_view 2999 not true", Err(3_012)),
    (b"new_permit 2999 not true", TREE),
    (b"new_permit 3000 not true", Err(3_012)),
    (b"new_rule 2999 not true", TREE),
    (b"new_rule 3000 not true", Err(3_008)),
];

const PERMITS: [(Pieces, Answer); 2] = [
    (b"bob 2999 not true", TREE),
    (b"bob 3000 not true", Err(3_011)),
];

#[test]
fn each_qualification_of_a_tree_has_levels_of_its_own(rt: HostRuntime) {
    assert!(rt; are_answered::<CheckedTree>(rt.alloc(), &rt, &PIECES, &REQUESTS));
    assert!(rt; are_answered::<DbChangeTree>(rt.alloc(), &rt, &PIECES, &CHANGES));
    assert!(rt; are_answered::<PermitTree>(rt.alloc(), &rt, &PIECES, &PERMITS));
}
