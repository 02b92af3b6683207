// Rows, and the columns of tables.
ghost use Rattle.std.specs.Prelude.{◌≡◌};

use crate::trees::are_trees;
use quel_tree::{ColumnsTree, RowTree};
use std::test::*;

const ROWS: [&[u8]; 3] = [
    b"\x00\x00",
    // The numbers 0, -1, the greatest and the least.
    b"\x00\x04\
        \x00\x00\x00\x00\x00\x00\x00\x00\x00\
        \x00\xff\xff\xff\xff\xff\xff\xff\xff\
        \x00\x7f\xff\xff\xff\xff\xff\xff\xff\
        \x00\x80\x00\x00\x00\x00\x00\x00\x00",
    // An empty text, one that begins with a blank, and a number between.
    b"\x00\x03\x01\x00\x00\x01\x02\x03\x04\x05\x06\x07\x08\x01\x03 a~",
];

const COLUMNS: [&[u8]; 3] = [
    b"\x00\x00",
    b"\x00\x01\x05total\x01",
    b"\x00\x05\x01a\x00\x00\x01b\x00\x01\x01c\x00\x02\x01d\x00\x03\x01\x0cabcdefghijkl\x00\x03\xff",
];

#[test]
fn rows_and_columns_are_spelled(rt: HostRuntime) {
    assert!(rt; are_trees::<RowTree>(rt.alloc(), &rt, &ROWS));
    assert!(rt; are_trees::<ColumnsTree>(rt.alloc(), &rt, &COLUMNS));
}
