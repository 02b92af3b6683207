use crate::shared::{empty, is_laid};
use std::alloc::Global;
use std::process::Abort;
use std::test::*;

/// A change, and whether a database takes it.
type Case<'a> = (&'a [u8], bool);

/// How many of these changes a new database takes or refuses in turn as is said beside each, up to
/// the first that it doesn't.
fn as_said<R: Abort>(rt: &R, alloc: Global, changes: &[Case]) -> usize {
    let mut base = empty(rt, alloc);
    let mut right = 0usize;
    for (change, is_taken) in changes {
        if is_laid(rt, alloc, &mut base, *change) != *is_taken {
            break;
        }
        right = right.saturating_add(1);
    }
    drop(base);
    right
}

/// `parts` is made with two numbers, `pnum` and `qoh`, and the rows 1, 5 and 2, 7.
const MADE: &[u8] =
    b"\x01\x03ann\x05parts\x00\x00\x02\x04pnum\x00\x01\x03qoh\x00\x01\x00\x00\x00\x00\x00\x02\x00\x02\x00\x00\x00\x00\x00\x00\x00\x00\x01\x00\x00\x00\x00\x00\x00\x00\x00\x05\x00\x02\x00\x00\x00\x00\x00\x00\x00\x00\x02\x00\x00\x00\x00\x00\x00\x00\x00\x07";

const ONCE: [Case; 3] = [
    // `parts` is made with a row that stands twice.
    (
        b"\x01\x03ann\x05parts\x00\x00\x02\x04pnum\x00\x01\x03qoh\x00\x01\x00\x00\x00\x00\x00\x02\x00\x02\x00\x00\x00\x00\x00\x00\x00\x00\x01\x00\x00\x00\x00\x00\x00\x00\x00\x05\x00\x02\x00\x00\x00\x00\x00\x00\x00\x00\x01\x00\x00\x00\x00\x00\x00\x00\x00\x05",
        false,
    ),
    (MADE, true),
    (MADE, false),
];

#[test]
fn a_relation_is_made_once(rt: HostRuntime) {
    assert!(rt; as_said(&rt, rt.alloc(), &ONCE) == ONCE.len());
}

const MOVED: [Case; 5] = [
    (MADE, true),
    // 1, 5 goes and 3, 3 comes.
    (
        b"\x00\x03ann\x05parts\x00\x00\x00\x01\x00\x02\x00\x00\x00\x00\x00\x00\x00\x00\x01\x00\x00\x00\x00\x00\x00\x00\x00\x05\x00\x00\x00\x01\x00\x02\x00\x00\x00\x00\x00\x00\x00\x00\x03\x00\x00\x00\x00\x00\x00\x00\x00\x03",
        true,
    ),
    // 1, 5 goes once more.
    (
        b"\x00\x03ann\x05parts\x00\x00\x00\x01\x00\x02\x00\x00\x00\x00\x00\x00\x00\x00\x01\x00\x00\x00\x00\x00\x00\x00\x00\x05\x00\x00\x00\x00",
        false,
    ),
    // 3, 3 comes once more.
    (
        b"\x00\x03ann\x05parts\x00\x00\x00\x00\x00\x00\x00\x01\x00\x02\x00\x00\x00\x00\x00\x00\x00\x00\x03\x00\x00\x00\x00\x00\x00\x00\x00\x03",
        false,
    ),
    // 70000, 3 comes, which is no number of two bytes.
    (
        b"\x00\x03ann\x05parts\x00\x00\x00\x00\x00\x00\x00\x01\x00\x02\x00\x00\x00\x00\x00\x00\x01\x11p\x00\x00\x00\x00\x00\x00\x00\x00\x03",
        false,
    ),
];

#[test]
fn rows_come_and_go_once(rt: HostRuntime) {
    assert!(rt; as_said(&rt, rt.alloc(), &MOVED) == MOVED.len());
}

const STORED: [Case; 4] = [
    (MADE, true),
    // A hash by the first attribute.
    (b"\x03\x03ann\x05parts\x01\x00\x01\x00", true),
    // An ISAM structure without keys.
    (b"\x03\x03ann\x05parts\x02\x00\x00", false),
    // A hash by a third attribute.
    (b"\x03\x03ann\x05parts\x01\x00\x01\x02", false),
];

#[test]
fn a_structure_is_by_keys_that_are_there(rt: HostRuntime) {
    assert!(rt; as_said(&rt, rt.alloc(), &STORED) == STORED.len());
}

const INDEXED: [Case; 4] = [
    (MADE, true),
    // An index `parts`, by the second attribute.
    (b"\x04\x03ann\x05parts\x05parts\x00\x01\x01", false),
    // An index `by_quantity`.
    (b"\x04\x03ann\x05parts\x0bby_quantity\x00\x01\x01", true),
    // And once more.
    (b"\x04\x03ann\x05parts\x0bby_quantity\x00\x01\x01", false),
];

#[test]
fn an_index_has_a_name_of_its_own(rt: HostRuntime) {
    assert!(rt; as_said(&rt, rt.alloc(), &INDEXED) == INDEXED.len());
}

const PERMITTED: [Case; 7] = [
    (MADE, true),
    // A permit 1 to read a third attribute.
    (
        b"\x06\x03ann\x05parts\x00\x00\x00\x01\x01\x00\x01\x02\x00\x00",
        false,
    ),
    // One of rights that there are none of.
    (
        b"\x06\x03ann\x05parts\x00\x00\x00\x01\x10\x00\x01\x01\x00\x00",
        false,
    ),
    // A permit 1 of all rights to the second attribute.
    (
        b"\x06\x03ann\x05parts\x00\x00\x00\x01\x0f\x00\x01\x01\x00\x00",
        true,
    ),
    // Another permit 1.
    (
        b"\x06\x03ann\x05parts\x00\x00\x00\x01\x01\x00\x01\x01\x00\x00",
        false,
    ),
    // Permit 1 goes twice.
    (
        b"\x08\x03ann\x05parts\x00\x02\x00\x00\x00\x01\x00\x00\x00\x01",
        false,
    ),
    // Permit 1 goes.
    (b"\x08\x03ann\x05parts\x00\x01\x00\x00\x00\x01", true),
];

#[test]
fn a_permit_is_of_rights_and_attributes_that_are_there(rt: HostRuntime) {
    assert!(rt; as_said(&rt, rt.alloc(), &PERMITTED) == PERMITTED.len());
}

const RULED: [Case; 4] = [
    (MADE, true),
    // Rule 1 goes.
    (b"\x09\x03ann\x05parts\x00\x01\x00\x00\x00\x01", false),
    // Rule 1 is made.
    (b"\x07\x03ann\x05parts\x00\x00\x00\x01\x00", true),
    // Rule 1 goes.
    (b"\x09\x03ann\x05parts\x00\x01\x00\x00\x00\x01", true),
];

#[test]
fn a_rule_that_stands_goes(rt: HostRuntime) {
    assert!(rt; as_said(&rt, rt.alloc(), &RULED) == RULED.len());
}

const VIEWED: [Case; 5] = [
    (MADE, true),
    // `numbers` is made, a view of `suppliers`.
    (
        b"\x05\x03ann\x07numbers\x03\x00\x01\x04pnum\x00\x01\x00\x00\x00\x01\x03ann\x09suppliers\x00\x01\x04pnum\x00\x01\x02\x00\x00\x00",
        false,
    ),
    // `numbers` is made, a view of `parts`.
    (
        b"\x05\x03ann\x07numbers\x03\x00\x01\x04pnum\x00\x01\x00\x00\x00\x01\x03ann\x05parts\x00\x01\x04pnum\x00\x01\x02\x00\x00\x00",
        true,
    ),
    // `parts` goes.
    (b"\x02\x00\x01\x03ann\x05parts", false),
    // `parts` goes, and `numbers` with it.
    (b"\x02\x00\x02\x03ann\x05parts\x03ann\x07numbers", true),
];

#[test]
fn what_a_view_names_goes_only_with_it(rt: HostRuntime) {
    assert!(rt; as_said(&rt, rt.alloc(), &VIEWED) == VIEWED.len());
}
