//! Copies of replies, of changes of rows, of what they are made of, and of trees.

use crate::requests::{
    ASKED, CREATION, IMPORT, PERMISSION, RULING, UPDATE, asked_for, change_of_base, file,
};
use crate::shared::{boxed, has_copy, is_copied, named, one, set, table, text};
use crate::statements::{copying, retrieval};
use calculus::{Change, Column, Kind, Pair, Probe, Reply, Row, Table, Value};
use std::alloc::Global;
use std::process::Abort;
use std::test::*;

/// A row of a text.
fn text_row(rt: &impl Abort, alloc: Global) -> Row {
    Row::of(one(rt, alloc, text(rt, alloc, b"a b")).into_items())
}

fn reply(rt: &impl Abort, alloc: Global) -> Reply {
    let (name, kind) = (named(rt, alloc, b"a"), Kind::Wide);
    let columns = one(rt, alloc, Column { name, kind });
    let rows = one(rt, alloc, text_row(rt, alloc));
    Reply::Tables(one(rt, alloc, Table { columns, rows }))
}

#[test]
fn replies_and_tables_are_copied(rt: HostRuntime) {
    let alloc = rt.alloc();
    assert!(rt; is_copied(&rt, alloc, reply(&rt, alloc)));
    assert!(rt; has_copy(alloc, table(&rt, alloc, 1, Some(1))));
    let equal = one(&rt, alloc, (1, Value::Int(2)));
    assert!(rt; is_copied(&rt, alloc, Probe { equal }));
}

fn pair(rt: &impl Abort, alloc: Global) -> Pair {
    let (old, new) = (None, Some(text_row(rt, alloc)));
    Pair { old, new }
}

fn change(rt: &impl Abort, alloc: Global) -> Change {
    let (remove, add) = (set(rt, alloc, &[&[7]]), set(rt, alloc, &[]));
    Change { remove, add }
}

#[test]
fn changes_of_rows_and_containers_are_copied(rt: HostRuntime) {
    let alloc = rt.alloc();
    assert!(rt; is_copied(&rt, alloc, pair(&rt, alloc)));
    assert!(rt; is_copied(&rt, alloc, change(&rt, alloc)));
    assert!(rt; is_copied(&rt, alloc, one(&rt, alloc, (70_000_u32, Some(true)))));
    assert!(rt; is_copied(&rt, alloc, boxed(&rt, alloc, 5_u8)));
}

#[test]
fn statements_and_changes_of_a_database_are_copied(rt: HostRuntime) {
    let alloc = rt.alloc();
    assert!(rt; has_copy(alloc, retrieval(&rt, alloc)));
    assert!(rt; has_copy(alloc, copying(&rt, alloc)));
    assert!(rt; has_copy(alloc, change_of_base(&rt, alloc)));
    assert!(rt; has_copy(alloc, file(&rt, alloc)));
}

#[test]
fn what_is_asked_for_is_copied(rt: HostRuntime) {
    for bytes in [ASKED, UPDATE, CREATION, IMPORT, PERMISSION, RULING] {
        assert!(rt; has_copy(rt.alloc(), asked_for(&rt, rt.alloc(), bytes)));
    }
}
