//! Scripts and files of as many relations, rows or bytes as there may be.

use crate::trials::{gives, has, joined, run_over, shelf};
use std::alloc::AllocGlobal;
use std::process::Abort;
use std::test::*;

/// The script that makes so many relations, a line each.
fn relations(rt: &(impl Abort + AllocGlobal), count: u32) -> Vec<u8> {
    let mut script = Vec::new(rt.alloc());
    for number in 0..count {
        let statement = format!(in rt.alloc(); "create r{number} (a = i1)\n").expect(rt, "memory");
        script
            .extend_from_slice(statement.as_bytes())
            .expect(rt, "memory");
    }
    script.extend_from_slice(b"\\g\n").expect(rt, "memory");
    script
}

/// What it prints where all relations but the last are made.
fn acknowledgements(rt: &(impl Abort + AllocGlobal)) -> Vec<u8> {
    let mut output = b"done\n".repeat(rt.alloc(), 10_000).expect(rt, "memory");
    output
        .extend_from_slice(b"refused 14 line 10001: limit\n")
        .expect(rt, "memory");
    output
}

#[test]
fn a_batch_of_10_001_statements_makes_all_relations_but_the_last(rt: HostRuntime) {
    assert!(rt; gives(&rt, &relations(&rt, 10_001), &acknowledgements(&rt)));
}

/// A line for each number from 0 on.
fn numbers(rt: &(impl Abort + AllocGlobal), count: u32) -> Vec<u8> {
    let mut lines = Vec::new(rt.alloc());
    for number in 0..count {
        let line = format!(in rt.alloc(); "{number}\n").expect(rt, "memory");
        lines
            .extend_from_slice(line.as_bytes())
            .expect(rt, "memory");
    }
    lines
}

/// Copies a file in, one with a further row, and all rows out again.
const COPIED: &[u8] = b"create big (k = i4)\n\
    copy big (k = c0nl) from \"in\"\n\
    copy big (k = c0nl) from \"more\"\n\
    copy big (k = c0nl) into \"out\"\n\
    \\g\n";

/// What that prints where all but the further row is copied.
const COPIES: &[u8] = b"done\n\
    done\n\
    refused 29 line 3: too many rows\n\
    done\n";

#[test]
fn files_of_100_000_rows_are_copied_in_and_out(rt: HostRuntime) {
    let lines = numbers(&rt, 100_000);
    let files = [(b"in".as_slice(), lines.as_slice()), (b"more", b"100000")];
    let (status, sink, mut shelf) = run_over(&rt, COPIED, shelf(&rt, &files, &[]));
    assert_eq!(rt; status, 0);
    assert!(rt; sink.bytes() == COPIES);
    assert!(rt; has(&rt, &mut shelf, b"out", Some(&lines)));
}

/// A file of so many blanks and a newline, as the buffer drops them.
fn blanks(rt: &(impl Abort + AllocGlobal), count: usize) -> Vec<u8> {
    let blanks = b" ".repeat(rt.alloc(), count.saturating_sub(1));
    let blanks = blanks.expect(rt, "memory");
    joined(rt, &[&blanks, b"\n"])
}

/// Whether a script prints this where `q` is a quarter of the bytes that may be included, `m` that and
/// another byte, `one` a byte and `none` empty.
fn quarters_give(rt: &(impl Abort + AllocGlobal), script: &[u8], output: &[u8]) -> bool {
    let (quarter, more) = (blanks(rt, 4_194_304), blanks(rt, 4_194_305));
    let files = [
        (b"q".as_slice(), quarter.as_slice()),
        (b"m", more.as_slice()),
        (b"one", b"\n"),
        (b"none", b""),
    ];
    let (status, sink, shelf) = run_over(rt, script, shelf(rt, &files, &[]));
    drop(shelf);
    status == 0 && sink.bytes() == output
}

/// A script that includes quarters, and what it prints.
type Quarters = (&'static [u8], &'static [u8]);

/// The bytes of all includes are counted together, those of a refused one not.
const QUARTERS: [Quarters; 2] = [
    (
        b"\\i q\n\
        \\i q\n\
        \\i q\n\
        \\i q\n\
        \\p\n\
        \\i none\n\
        \\i one\n\
        \\i none\n\
        \\i q\n\
        \\i zz\n\
        retrieve (x = 1)\n\
        \\g\n",
        b"refused 3 line 0: include limit\n\
        refused 3 line 0: include limit\n\
        refused 32 line 0: no such file\n\
        |x                   |\n\
        |--------------------|\n\
        |                   1|\n\
        |--------------------|\n",
    ),
    (
        b"\\i q\n\
        \\i q\n\
        \\i q\n\
        \\i m\n\
        \\i m\n\
        \\i q\n\
        retrieve (x = 1)\n\
        \\i one\n\
        \\g\n",
        b"refused 3 line 0: include limit\n\
        refused 3 line 0: include limit\n\
        refused 3 line 0: include limit\n\
        |x                   |\n\
        |--------------------|\n\
        |                   1|\n\
        |--------------------|\n",
    ),
];

#[test]
fn includes_have_a_size(rt: HostRuntime) {
    for (script, output) in &QUARTERS {
        assert!(rt; quarters_give(&rt, script, output));
    }
}
