//! The parts of what refuses a statement.

use crate::shared::named;
use base_trait::BaseFault;
use calculus::{Domain, Kind};
use quel_refusals::{is_full, is_taken, is_too_wide, repeats};
use std::alloc::Global;
use std::process::Abort;
use std::test::*;
use test_bases::TestBase;

/// Whether a name is in use where nothing is there, and whether it stands twice among `a` and itself.
fn used(rt: &impl Abort, alloc: Global, bytes: &[u8]) -> (bool, bool) {
    let first = named(rt, alloc, b"a");
    let name = named(rt, alloc, bytes);
    let mut base = TestBase::of_entries(alloc, 0);
    let taken = is_taken(alloc, &mut base, &name, &name).expect(rt, "an answer");
    drop(base);
    let twice = repeats(alloc, &[&first, &name]).expect(rt, "memory");
    drop(name);
    drop(first);
    (taken, twice)
}

/// Whether a database with so many entries is full.
fn full(alloc: Global, entries: u32) -> Result<bool, BaseFault> {
    let mut base = TestBase::of_entries(alloc, entries);
    let full = is_full(&mut base);
    drop(base);
    full
}

/// A name, whether it is in use, and whether it stands twice.
const NAMES: [(&[u8], bool, bool); 4] = [
    (b"p", false, false),
    (b"attribute", true, false),
    (b"a", false, true),
    (b"b", false, false),
];

#[test]
fn names_in_use_and_full_databases_and_wide_rows_refuse(rt: HostRuntime) {
    for (name, taken, twice) in &NAMES {
        assert!(rt; used(&rt, rt.alloc(), *name) == (*taken, *twice));
    }
    // Ten thousand entries leave no room.
    assert!(rt; full(rt.alloc(), 9_999) == Ok(false));
    assert!(rt; full(rt.alloc(), 10_000) == Ok(true));
    // Four wide texts fill a row.
    let text = Kind::Of(Domain::C(250));
    assert!(rt; !is_too_wide(&[text, text, text, text]));
    assert!(rt; is_too_wide(&[text, text, text, text, Kind::Wide]));
}
