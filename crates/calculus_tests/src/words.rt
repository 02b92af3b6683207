// The words of which spellings are made, and lists, options and numbers spelled by them.
ghost use Rattle.std.specs.Prelude.{◌≡◌};

use crate::round::{fault_of, is_spelling};
use memory::{Boxed, List};
use std::test::*;
use tree_words::*;

#[test]
fn numbers(rt: HostRuntime) {
    let alloc = rt.alloc();
    assert!(rt; is_spelling::<u8>(alloc, &rt, b"\xff"));
    assert!(rt; is_spelling::<u16>(alloc, &rt, b"\x01\x02"));
    assert!(rt; is_spelling::<u32>(alloc, &rt, b"\x01\x02\x03\x04"));
    assert!(rt; is_spelling::<i64>(alloc, &rt, b"\xff\x02\x03\x04\x05\x06\x07\x08"));
    assert!(rt; is_spelling::<bool>(alloc, &rt, b"\x01"));
    assert!(rt; fault_of::<bool>(alloc, b"\x02") == Some(Fault::Wrong(1)));
}

#[test]
fn values_of_values(rt: HostRuntime) {
    let alloc = rt.alloc();
    assert!(rt; is_spelling::<(u8, bool)>(alloc, &rt, b"\x07\x00"));
    assert!(rt; is_spelling::<Option<u16>>(alloc, &rt, b"\x00"));
    assert!(rt; is_spelling::<Option<u16>>(alloc, &rt, b"\x01\x07\x08"));
    assert!(rt; fault_of::<Option<u16>>(alloc, b"\x02\x07\x08") == Some(Fault::Wrong(3)));
    assert!(rt; is_spelling::<Boxed<u16>>(alloc, &rt, b"\x07\x08"));
    assert!(rt; is_spelling::<List<u8>>(alloc, &rt, b"\x00\x03abc"));
    assert!(rt; is_spelling::<Many32<u8>>(alloc, &rt, b"\x00\x00\x00\x03abc"));
    assert!(rt; is_spelling::<List<Option<bool>>>(alloc, &rt, b"\x00\x02\x00\x01\x01"));
}

#[test]
fn fields_stand_one_behind_the_other(rt: HostRuntime) {
    let mut out = Vec::new(rt.alloc());
    fields7::<u8, u8, u8, u8, u8, u8, u16>(&1, &2, &3, &4, &5, &6, &7, &mut out).expect(
        &rt, "memory",
    );
    fields6::<u8, u8, u8, u8, u8, u8>(&1, &2, &3, &4, &5, &6, &mut out).expect(&rt, "memory");
    fields5::<u8, u8, u8, u8, u8>(&1, &2, &3, &4, &5, &mut out).expect(&rt, "memory");
    fields3::<u8, u8, u8>(&1, &2, &3, &mut out).expect(&rt, "memory");
    assert!(rt;
        out.as_slice()
            == b"\x01\x02\x03\x04\x05\x06\x00\x07\x01\x02\x03\x04\x05\x06\x01\x02\x03\x04\x05\x01\x02\x03".as_slice()
    );
    drop(out);
}
