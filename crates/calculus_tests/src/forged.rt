// Counts of items that aren't there, at the end of the bytes.
ghost use Rattle.std.specs.Prelude.{◌≡◌};

use crate::trees::read_back;
use quel_tree::*;
use std::alloc::Global;
use std::process::Abort;
use std::test::*;

/// Whether the bytes are refused at their end.
fn ends_early<T: Tree>(alloc: Global, rt: &impl Abort, bytes: &[u8]) -> bool {
    read_back::<T>(alloc, rt, bytes) == Err(bytes.len() as u64)
}

const REQUESTS: [&[u8]; 13] = [
    // Queries, the keys of an order, variables, and targets.
    b"\x00\xff\xff",
    b"\x00\x00\x01\x00\x00\x00\x00\x00\xff\xff",
    b"\x00\x00\x01\xff\xff",
    b"\x00\x00\x01\x00\x00\xff\xff",
    // Terms that group, and terms that link.
    b"\x00\x00\x01\x00\x00\x00\x01\x01x\x01\x07\x00\x00\x00\x00\x01a\x01p\x01\x00\xff\xff",
    b"\x00\x00\x01\x00\x00\x00\x01\x01x\x01\x07\x00\x00\x00\x00\x01a\x01p\x01\x00\x00\x00\xff\xff",
    // Places, and rules that are checked.
    b"\x01\x00\x01a\x01p\xff\xff\xff",
    b"\x01\x00\x01a\x01p\xff\x00\x00\x00\x00\x00\x00\x00\xff\xff",
    // Attributes, relations, keys, columns of a file, and numbers.
    b"\x02\x00\x01a\x01p\xff\xff",
    b"\x02\x01\xff\xff",
    b"\x02\x02\x01a\x01p\x00\xff\xff",
    b"\x02\x04\x01a\x01p\xff\xff",
    b"\x02\x08\x01a\x01p\xff\xff",
];

const CHANGES: [&[u8]; 5] = [
    // Rows that go, that come, and of a relation that is made.
    b"\x00\x01a\x01p\xff\xff\xff\xff",
    b"\x00\x01a\x01p\x00\x00\x00\x00\xff\xff\xff\xff",
    b"\x01\x01a\x01p\x00\x00\x00\x00\x00\xff\xff\xff\xff",
    // Values of a row, and attributes.
    b"\x00\x01a\x01p\xff\xff\xff\xff\xff\xff",
    b"\x01\x01a\x01p\x00\xff\xff",
];

#[test]
fn lists_of_items_that_are_missing_are_refused(rt: HostRuntime) {
    for bytes in &REQUESTS {
        assert!(rt; ends_early::<CheckedTree>(rt.alloc(), &rt, bytes));
    }
    for bytes in &CHANGES {
        assert!(rt; ends_early::<DbChangeTree>(rt.alloc(), &rt, bytes));
    }
    assert!(rt; ends_early::<RowTree>(rt.alloc(), &rt, b"\xff\xff"));
    assert!(rt; ends_early::<ColumnsTree>(rt.alloc(), &rt, b"\xff\xff"));
    assert!(rt; ends_early::<PermitTree>(rt.alloc(), &rt, b"\x00\x00\x00\x00\x01\xff\xff"));
}
