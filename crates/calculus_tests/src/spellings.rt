// The bytes of each type.
ghost use Rattle.std.specs.Prelude.{◌≡◌};

use crate::round::{are_spellings, is_spelling};
use calculus::Value;
use quel_tree::*;
use std::process::Abort;
use std::test::*;
use tree_words::read_whole;

const NAMES: [&[u8]; 2] = [b"\x01a", b"\x0c_emp_1234567"];

const CHARS: [&[u8]; 2] = [b"\x00", b"\x04 \x5c\x22 "];

const TEXTS: [&[u8]; 2] = [b"\x00", b"\x03 ~A"];

#[test]
fn names_and_texts(rt: HostRuntime) {
    let alloc = rt.alloc();
    assert!(rt; are_spellings::<NameTree>(alloc, &rt, &NAMES));
    assert!(rt; are_spellings::<CharsTree>(alloc, &rt, &CHARS));
    assert!(rt; are_spellings::<TextTree>(alloc, &rt, &TEXTS));
}

/// The numbers of nine variants.
const NINE: [&[u8]; 9] = [
    b"\x00", b"\x01", b"\x02", b"\x03", b"\x04", b"\x05", b"\x06", b"\x07", b"\x08",
];

const SIX: [&[u8]; 6] = [b"\x00", b"\x01", b"\x02", b"\x03", b"\x04", b"\x05"];

const FIVE: [&[u8]; 5] = [b"\x00", b"\x01", b"\x02", b"\x03", b"\x04"];

const FOUR: [&[u8]; 4] = [b"\x00", b"\x01", b"\x02", b"\x03"];

const DOMAINS: [&[u8]; 5] = [b"\x00", b"\x01", b"\x02", b"\x03\x01", b"\x03\xff"];

const KINDS: [&[u8]; 2] = [b"\x00\x02", b"\x01"];

#[test]
fn enums(rt: HostRuntime) {
    let alloc = rt.alloc();
    assert!(rt; are_spellings::<ArithOpTree>(alloc, &rt, &SIX));
    assert!(rt; are_spellings::<CmpOpTree>(alloc, &rt, &SIX));
    assert!(rt; are_spellings::<AggOpTree>(alloc, &rt, &NINE));
    assert!(rt; are_spellings::<UpdateOpTree>(alloc, &rt, &FOUR));
    assert!(rt; are_spellings::<SpecTree>(alloc, &rt, &FIVE));
    assert!(rt; are_spellings::<DomainTree>(alloc, &rt, &DOMAINS));
    assert!(rt; are_spellings::<KindTree>(alloc, &rt, &KINDS));
}

/// Numbers of 1, 2 and 4 bytes; up to a tab, a newline, a blank, a comma and a colon; texts of 1 and 255.
const FORMS: [&[u8]; 10] = [
    b"\x00\x01",
    b"\x00\x02",
    b"\x00\x04",
    b"\x02\t",
    b"\x02\n",
    b"\x02 ",
    b"\x02,",
    b"\x02:",
    b"\x01\x01",
    b"\x01\xff",
];

#[test]
fn columns_of_files(rt: HostRuntime) {
    let alloc = rt.alloc();
    assert!(rt; are_spellings::<CopyFormTree>(alloc, &rt, &FORMS));
    assert!(rt; is_spelling::<CopyColTree>(alloc, &rt, b"\x07\x02,"));
}

#[test]
fn structs(rt: HostRuntime) {
    let alloc = rt.alloc();
    assert!(rt; is_spelling::<RelKeyTree>(alloc, &rt, b"\x02me\x03emp"));
    assert!(rt; is_spelling::<AttrTree>(alloc, &rt, b"\x03sal\x00\x02"));
    assert!(rt; is_spelling::<ColumnTree>(alloc, &rt, b"\x05total\x01"));
    assert!(rt; is_spelling::<SortKeyTree>(alloc, &rt, b"\x01\x02\x01"));
    assert!(rt;
        is_spelling::<RelInfoTree>(
            alloc,
            &rt,
            b"\x02me\x03emp\x01\x00\x02\x03sal\x00\x02\x04name\x00\x03\x14\x00\x01\x00"
        )
    );
}

const VALUES: [&[u8]; 3] = [
    b"\x00\x00\x00\x00\x00\x00\x00\x00\x07",
    b"\x00\x80\x00\x00\x00\x00\x00\x00\x00",
    b"\x01\x01x",
];

const ROWS: [&[u8]; 2] = [
    b"\x00\x00",
    b"\x00\x02\x01\x03Ann\x00\xff\xff\xff\xff\xff\xff\xff\xfe",
];

#[test]
fn values(rt: HostRuntime) {
    let alloc = rt.alloc();
    assert!(rt; are_spellings::<ValueTree>(alloc, &rt, &VALUES));
    assert!(rt; are_spellings::<RowTree>(alloc, &rt, &ROWS));
}

/// The number of a value; 0 of a text.
fn number_of(value: &Value) -> i64 {
    match value {
        Value::Int(number) => *number,
        Value::Text(_) => 0,
    }
}

#[test]
fn a_row_has_the_values_that_are_spelled(rt: HostRuntime) {
    let row = read_whole::<RowTree>(
        rt.alloc(),
        0,
        b"\x00\x02\x00\x00\x00\x00\x00\x00\x00\x01\x02\x00\xff\xff\xff\xff\xff\xff\xff\xfe",
    );
    let row = match row {
        Ok(row) => row,
        Err(_) => rt.abort(),
    };
    let values = row.values();
    assert!(rt; values.len() == 2);
    assert!(rt; number_of(&values[0]) == 258);
    assert!(rt; number_of(&values[1]) == -2);
    drop(row);
}
