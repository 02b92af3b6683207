// Permits and rules.
ghost use Rattle.std.specs.Prelude.{◌≡◌};

use crate::trees::are_trees;
use quel_tree::{PermitTree, RuleTree};
use std::test::*;

const PERMITS: [&[u8]; 3] = [
    b"\x00\x00\x00\x00\x01\x00\x00\x00\x00",
    b"\xff\xff\xff\xff\x0f\x00\x00\x01\x0c_abcdefghij9\x05\x00",
    b"\x00\x00\x01\x00\x04\x00\x03\x02\x00\x30\x00\x02\x02\x00\x01\x02a*\x00",
];

const RULES: [&[u8]; 3] = [
    b"\x00\x00\x00\x00\x00",
    b"\xff\xff\xff\xff\x03\x00\x00",
    b"\x00\x00\x00\x01\x01\x05\x02\x00\x02\x00\x80\x00\x00\x00\x00\x00\x00\x00",
];

#[test]
fn permits_and_rules_are_spelled(rt: HostRuntime) {
    assert!(rt; are_trees::<PermitTree>(rt.alloc(), &rt, &PERMITS));
    assert!(rt; are_trees::<RuleTree>(rt.alloc(), &rt, &RULES));
}
