//! What the tests apply to databases on disks: names, small changes, and what a database answers.

use base_trait::{Base, BaseFault};
use calculus::{DbChange, List, Name, Place, Probe, RelKey, Row, Spec, Value};
use change_check::fit_change;
use quel_tree::{DbChangeTree, tree_of};
use std::alloc::Global;
use std::process::Abort;
use std::test::*;

/// More rows than a relation of the tests has.
const MOST_ROWS: u32 = 1000;

/// A change, as the bytes that spell it. Relations have one attribute `a`, a number of two bytes.
pub type Step<'a> = &'a [u8];

/// `p` is made with the rows 1, 2 and 3.
pub const MADE_P: Step<'static> =
    b"\x01\x03ann\x01p\x00\x00\x01\x01a\x00\x01\x00\x00\x00\x00\x00\x03\x00\x01\x00\x00\x00\x00\x00\x00\x00\x00\x01\x00\x01\x00\x00\x00\x00\x00\x00\x00\x00\x02\x00\x01\x00\x00\x00\x00\x00\x00\x00\x00\x03";

/// `p` is made without rows.
pub const MADE_BARE_P: Step<'static> =
    b"\x01\x03ann\x01p\x00\x00\x01\x01a\x00\x01\x00\x00\x00\x00\x00\x00";

/// `q` is made with the row 5.
pub const MADE_Q: Step<'static> =
    b"\x01\x03ann\x01q\x00\x00\x01\x01a\x00\x01\x00\x00\x00\x00\x00\x01\x00\x01\x00\x00\x00\x00\x00\x00\x00\x00\x05";

/// `q` is made without rows.
pub const MADE_BARE_Q: Step<'static> =
    b"\x01\x03ann\x01q\x00\x00\x01\x01a\x00\x01\x00\x00\x00\x00\x00\x00";

/// The row 1 of `p` goes, and 4 comes.
pub const MOVED: Step<'static> =
    b"\x00\x03ann\x01p\x00\x00\x00\x01\x00\x01\x00\x00\x00\x00\x00\x00\x00\x00\x01\x00\x00\x00\x01\x00\x01\x00\x00\x00\x00\x00\x00\x00\x00\x04";

/// The row 7 of `p` comes.
pub const COME: Step<'static> =
    b"\x00\x03ann\x01p\x00\x00\x00\x00\x00\x00\x00\x01\x00\x01\x00\x00\x00\x00\x00\x00\x00\x00\x07";

/// `p` is stored as a hash by its attribute.
pub const STORED: Step<'static> = b"\x03\x03ann\x01p\x01\x00\x01\x00";

/// An index `x` of `p` by its attribute is made.
pub const INDEXED: Step<'static> = b"\x04\x03ann\x01p\x01x\x00\x01\x00";

/// All users may read `p`, by a permit with the number 1.
pub const PERMITTED: Step<'static> = b"\x06\x03ann\x01p\x00\x00\x00\x01\x01\x00\x00\x00\x00";

/// A rule of `p` with the number 1, that each row meets.
pub const RULED: Step<'static> = b"\x07\x03ann\x01p\x00\x00\x00\x01\x00";

/// Permit 1 of `p` goes.
pub const UNPERMITTED: Step<'static> = b"\x08\x03ann\x01p\x00\x01\x00\x00\x00\x01";

/// Rule 1 of `p` goes.
pub const UNRULED: Step<'static> = b"\x09\x03ann\x01p\x00\x01\x00\x00\x00\x01";

/// A view `v` of the numbers in `p` is made.
pub const VIEWED: Step<'static> =
    b"\x05\x03ann\x01v\x03\x00\x01\x01a\x00\x01\x00\x00\x00\x01\x03ann\x01p\x00\x01\x01a\x00\x01\x02\x00\x00\x00";

/// `p` goes.
pub const GONE: Step<'static> = b"\x02\x00\x01\x03ann\x01p";

/// `v` and `p` go.
pub const GONE_WITH_VIEW: Step<'static> = b"\x02\x00\x02\x03ann\x01v\x03ann\x01p";

/// A name.
pub fn named(alloc: Global, rt: &impl Abort, bytes: &[u8]) -> Name {
    match Name::of(alloc, bytes) {
        Ok(Some(name)) => name,
        _ => rt.panic("a name"),
    }
}

/// The key of what ann has by this name.
pub fn key(alloc: Global, rt: &impl Abort, name: &[u8]) -> RelKey {
    RelKey {
        owner: named(alloc, rt, b"ann"),
        name: named(alloc, rt, name),
    }
}

/// The change that a step is.
pub fn change_of(alloc: Global, rt: &impl Abort, step: Step) -> DbChange {
    tree_of::<DbChangeTree>(alloc, step)
        .ok()
        .expect(rt, "a change")
}

/// Applies a change where it is lawful; whether it is.
fn apply_fit<B: Base>(alloc: Global, base: &mut B, change: &DbChange) -> Result<bool, BaseFault> {
    let fit = fit_change(alloc, base, change)?;
    if fit {
        base.apply(alloc, change)?;
    }
    Ok(fit)
}

/// Takes a step; whether it was lawful.
pub fn take<B: Base>(
    alloc: Global,
    rt: &impl Abort,
    base: &mut B,
    step: Step,
) -> Result<bool, BaseFault> {
    let change = change_of(alloc, rt, step);
    let laid = apply_fit(alloc, base, &change);
    drop(change);
    laid
}

/// Takes steps, all of them lawful.
pub fn take_all<B: Base>(
    alloc: Global,
    rt: &impl Abort,
    base: &mut B,
    steps: &[Step],
) -> Result<(), BaseFault> {
    for step in steps {
        assert!(rt; take(alloc, rt, base, *step)?);
    }
    Ok(())
}

/// The number of a row of one; -2 where it is another.
fn number_in(row: &Row) -> i64 {
    match row.values() {
        [Value::Int(number)] => *number,
        _ => -2,
    }
}

/// Puts a number behind the others.
fn say(rt: &impl Abort, said: &mut Vec<i64>, number: i64) {
    said.push(number).expect(rt, "memory");
}

/// Puts the numbers of the rows under a key behind others, and -1 behind them.
fn put_rows<B: Base>(
    alloc: Global,
    rt: &impl Abort,
    base: &mut B,
    key: &RelKey,
    said: &mut Vec<i64>,
) -> Result<(), BaseFault> {
    let any = Probe {
        equal: List::of(Vec::new(alloc)),
    };
    let mut at = Place { page: 0, line: 0 };
    for _ in 0..MOST_ROWS {
        match base.scan(alloc, key, &any, &mut at)? {
            Some(row) => say(rt, said, number_in(&row)),
            None => break,
        }
    }
    say(rt, said, -1);
    Ok(())
}

/// The number of a structure.
fn number_of(spec: Spec) -> i64 {
    match spec {
        Spec::Heap => 0,
        Spec::Hash => 1,
        Spec::Isam => 2,
        Spec::View => 3,
        Spec::Index => 4,
    }
}

/// The number of the structure of a relation; -3 where it isn't there.
fn structure_of<B: Base>(alloc: Global, base: &mut B, key: &RelKey) -> Result<i64, BaseFault> {
    match base.info(alloc, key)? {
        Some(info) => Ok(number_of(info.spec)),
        None => Ok(-3),
    }
}

/// How many rules a relation has.
fn rule_count<B: Base>(alloc: Global, base: &mut B, key: &RelKey) -> Result<i64, BaseFault> {
    let rules = base.rules(alloc, key)?;
    Ok(rules.len() as i64)
}

/// How many permits a relation has.
fn permit_count<B: Base>(alloc: Global, base: &mut B, key: &RelKey) -> Result<i64, BaseFault> {
    let permits = base.permits(alloc, key)?;
    Ok(permits.len() as i64)
}

/// 1 for a view, else 0.
fn view_count<B: Base>(alloc: Global, base: &mut B, key: &RelKey) -> Result<i64, BaseFault> {
    let view = base.view(alloc, key)?;
    Ok(i64::from(view.is_some()))
}

/// Puts how many rules and permits a relation has, and whether it is a view.
fn put_counts<B: Base>(
    alloc: Global,
    rt: &impl Abort,
    base: &mut B,
    key: &RelKey,
    said: &mut Vec<i64>,
) -> Result<(), BaseFault> {
    say(rt, said, rule_count(alloc, base, key)?);
    say(rt, said, permit_count(alloc, base, key)?);
    say(rt, said, view_count(alloc, base, key)?);
    Ok(())
}

/// What a base says of a relation: its structure, its size, its rows, how many rules and permits it has,
/// and whether it is a view.
fn put_relation<B: Base>(
    alloc: Global,
    rt: &impl Abort,
    base: &mut B,
    key: &RelKey,
    said: &mut Vec<i64>,
) -> Result<(), BaseFault> {
    say(rt, said, structure_of(alloc, base, key)?);
    say(rt, said, base.size(alloc, key)? as i64);
    put_rows(alloc, rt, base, key, said)?;
    put_counts(alloc, rt, base, key, said)
}

/// What a base says of `p`, `q`, `v` and `x`, and how many entries it has.
pub fn known<B: Base>(
    alloc: Global,
    rt: &impl Abort,
    base: &mut B,
) -> Result<List<i64>, BaseFault> {
    let mut said = Vec::new(alloc);
    say(rt, &mut said, base.count()? as i64);
    for name in [b"p", b"q", b"v", b"x"] {
        let key = key(alloc, rt, name);
        put_relation(alloc, rt, base, &key, &mut said)?;
    }
    Ok(List::of(said))
}
