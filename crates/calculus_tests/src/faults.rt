// Bytes that are no spelling, and where the first wrong one stands.
ghost use Rattle.std.specs.Prelude.{◌≡◌};

use crate::round::{Wrong, are_wrong, fault_of};
use quel_tree::*;
use std::test::*;

const NAMES: [Wrong; 5] = [
    (b"\x00", 1),
    (b"\x0dabcdefghijklm", 14),
    (b"\x03a-b", 2),
    (b"\x031ab", 3),
    (b"\x02aB", 1),
];

#[test]
fn wrong_names(rt: HostRuntime) {
    assert!(rt; are_wrong::<NameTree>(rt.alloc(), &NAMES));
}

const TEXTS: [Wrong; 3] = [(b"\x02a ", 1), (b"\x01 x", 2), (b"\x03a\x1fb", 2)];

#[test]
fn wrong_texts(rt: HostRuntime) {
    let alloc = rt.alloc();
    assert!(rt; are_wrong::<TextTree>(alloc, &TEXTS));
    assert!(rt; fault_of::<CharsTree>(alloc, b"\x02a ") == None);
    assert!(rt; are_wrong::<CharsTree>(alloc, &[(b"\x02a\x7f", 1)]));
}

const DOMAINS: [Wrong; 2] = [(b"\x04\x01", 2), (b"\x03\x00", 1)];

#[test]
fn wrong_variants(rt: HostRuntime) {
    let alloc = rt.alloc();
    assert!(rt; are_wrong::<ArithOpTree>(alloc, &[(b"\x06", 1)]));
    assert!(rt; are_wrong::<CmpOpTree>(alloc, &[(b"\x06", 1)]));
    assert!(rt; are_wrong::<AggOpTree>(alloc, &[(b"\x09", 1)]));
    assert!(rt; are_wrong::<UpdateOpTree>(alloc, &[(b"\x04", 1)]));
    assert!(rt; are_wrong::<SpecTree>(alloc, &[(b"\x05", 1)]));
    assert!(rt; are_wrong::<DomainTree>(alloc, &DOMAINS));
    assert!(rt; are_wrong::<KindTree>(alloc, &[(b"\x02", 1)]));
    assert!(rt; are_wrong::<ValueTree>(alloc, &[(b"\x02\x00", 2)]));
}

const FORMS: [Wrong; 4] = [
    (b"\x00\x03", 1),
    (b"\x01\x00", 1),
    (b"\x02;", 1),
    (b"\x03\x01", 2),
];

#[test]
fn wrong_columns_of_files(rt: HostRuntime) {
    let alloc = rt.alloc();
    assert!(rt; are_wrong::<CopyFormTree>(alloc, &FORMS));
    assert!(rt; are_wrong::<CopyColTree>(alloc, &[(b"\x07\x00\x08", 1)]));
}

const ROWS: [Wrong; 2] = [
    (b"\x00\x02\x01\x01a\x01\x01 ", 1),
    (b"\x00\x02\x01\x01a", 0),
];

#[test]
fn wrong_structs(rt: HostRuntime) {
    let alloc = rt.alloc();
    assert!(rt; are_wrong::<SortKeyTree>(alloc, &[(b"\x00\x01\x02", 1)]));
    assert!(rt; are_wrong::<RelKeyTree>(alloc, &[(b"\x02me\x00", 1)]));
    assert!(rt; are_wrong::<AttrTree>(alloc, &[(b"\x03sal\x00\x04", 1)]));
    assert!(rt; are_wrong::<RelInfoTree>(alloc, &[(b"\x02me\x03emp\x05\x00\x00\x00\x00", 5)]));
    assert!(rt; are_wrong::<RowTree>(alloc, &ROWS));
}
