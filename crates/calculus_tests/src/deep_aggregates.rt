// Aggregates inside aggregates, of as many levels as a tree may have, and of one more.
ghost use Rattle.std.specs.Prelude.{◌≡◌};

use crate::pieces::{Answer, Named, Pieces, TREE, are_answered};
use quel_tree::QueryTree;
use std::test::*;

/// The pieces of aggregates, by their names.
const PIECES: [Named; 9] = [
    // An aggregate over a relation, up to its argument, and behind it: nothing groups or links, and every row is taken.
    (b"agg", b"\x07\x00\x00\x00\x00\x01a\x01p"),
    (b"all", b"\x00\x00\x00\x00\x00"),
    // An aggregate up to a term that groups, and behind it.
    (b"by", b"\x07\x00\x00\x00\x00\x01a\x01p\x01\x00\x00\x01"),
    (b"unlinked", b"\x00\x00\x00"),
    // One up to a term that links, and one up to the left side of a comparison.
    (
        b"link",
        b"\x07\x00\x00\x00\x00\x01a\x01p\x01\x00\x00\x00\x00\x01",
    ),
    (
        b"where",
        b"\x07\x00\x00\x00\x00\x01a\x01p\x01\x00\x00\x00\x00\x00\x01\x00",
    ),
    // A query with an aggregate over the rows of another, up to that one, and behind it.
    (b"over", b"\x00\x00\x00\x01\x01x\x01\x07\x00\x00\x00\x01"),
    (b"done", b"\x01\x00\x00\x00\x00\x00\x00\x00"),
    // An aggregate over the rows of a query, up to it.
    (b"rows", b"\x07\x00\x00\x00\x01"),
];

const ARGUMENTS: [(Pieces, Answer); 5] = [
    (b"target 1499 agg int 1499 all true", TREE),
    (b"target 1499 agg neg int 1499 all true", Err(13_498)),
    // A term that may have one level is no aggregate, and neither is one that may have two.
    (b"target 1500 agg int 1500 all true", Err(13_498)),
    (b"target neg 1498 agg neg int 1498 all true", TREE),
    (b"target neg 1499 agg int 1499 all true", Err(13_490)),
];

const GROUPS: [(Pieces, Answer); 7] = [
    (b"target 1499 by int 1499 unlinked true", TREE),
    (b"target 1500 by int 1500 unlinked true", Err(19_494)),
    (b"target 1499 link int 1500 true", TREE),
    (b"target 1500 link int 1501 true", Err(22_492)),
    // Three levels each: the term, the aggregate and the comparison.
    (b"target 999 where neg int 999 chars true", TREE),
    (b"target 999 where 2 neg int 999 chars true", Err(16_991)),
    (b"target 1000 where int 1000 chars true", Err(16_990)),
];

const SOURCES: [(Pieces, Answer); 6] = [
    // Three levels each: the query, its term and the aggregate.
    (b"999 over query not true 999 done", TREE),
    (b"999 over query 2 not true 999 done", Err(11_993)),
    (b"1000 over query true 1000 done", Err(11_995)),
    // A query that may have two levels is a source, and one that may have one is none.
    (b"998 over target neg rows query true 999 done", TREE),
    (
        b"998 over target 2 neg rows query true 999 done",
        Err(11_989),
    ),
    (b"998 over target 2 neg agg 999 done", TREE),
];

#[test]
fn aggregates_have_as_many_levels_as_a_tree_may_have(rt: HostRuntime) {
    assert!(rt; are_answered::<QueryTree>(rt.alloc(), &rt, &PIECES, &ARGUMENTS));
    assert!(rt; are_answered::<QueryTree>(rt.alloc(), &rt, &PIECES, &GROUPS));
    assert!(rt; are_answered::<QueryTree>(rt.alloc(), &rt, &PIECES, &SOURCES));
}
