//! What statements ask an empty database for, and what refuses them.

ghost use Rattle.std.specs.Prelude.{◌≡◌, false};
ghost use Rattle.plan_laws.specs.Fitting.{is_copy};

use crate::plans::is_copy;
use calculus::{Asked, Checked, DbChange, Domain, Kind, Name, OutOfMemory, Statement, Utility};
use memory::both;
use plain_base::DbPlain;
use quel_check::RangeTable;
use quel_names::name_refusal;
use quel_parse::next_statement;
use quel_resolve::{CheckFault, resolve};
use std::alloc::Global;
use std::test::*;
use utilities::{UtilFault, plan};

/// In the place of a number where memory was wanting.
const WANTING: u8 = 8;

/// The number of the first name that isn't there, and the number that refuses the statement, each 0 where
/// there is none; how many targets the queries of its tree have; and 1 where
/// it is planned as a relation `p` without rows, whose one attribute is a number of two bytes.
type Answered = [u8; 4];

fn ann(alloc: Global) -> Result<Name, OutOfMemory> {
    Name::of(alloc, b"ann")?.ok_or(OutOfMemory)
}

/// How many targets these queries have.
fn targets_of(all: &[Asked]) -> u8 {
    let mut count: u8 = 0;
    for asked in all {
        for _ in asked.query.targets.items() {
            count = count.saturating_add(1);
        }
    }
    count
}

/// 1 where this is a relation `p` without rows, whose one attribute is a number of two bytes.
fn makes_p(change: &DbChange) -> u8 {
    match change {
        DbChange::Create { info, rows } => u8::from(
            rows.items().is_empty()
                && info.key.name.bytes() == b"p".as_slice()
                && info.key.owner.bytes() == b"ann".as_slice()
                && info.attrs.items().first().map(|attr| attr.kind) == Some(Kind::Of(Domain::I2)),
        ),
        _ => 0,
    }
}

/// The number that refuses work for the utilities; and 1 where it is planned as such a relation.
fn planned(alloc: Global, user: &Name, base: &mut DbPlain, work: &Utility) -> [u8; 2] {
    if is_copy(work) {
        return [0, 0];
    }
    match plan(alloc, base, user, work) {
        Ok(change) => {
            let made = makes_p(&change);
            drop(change);
            [0, made]
        }
        Err(UtilFault::No(number)) => [number, 0],
        Err(_) => [WANTING, 0],
    }
}

/// What a tree says, or what refuses it.
fn answered_of(
    alloc: Global,
    user: &Name,
    base: &mut DbPlain,
    tree: &Result<Checked, CheckFault>,
) -> [u8; 3] {
    match tree {
        Ok(Checked::Answer(all)) => [0, targets_of(all.items()), 0],
        Ok(Checked::Utility(work)) => {
            let [number, made] = planned(alloc, user, base, work);
            [number, 0, made]
        }
        Ok(_) => [0, 0, 0],
        Err(CheckFault::No(number)) => [*number, 0, 0],
        Err(_) => [WANTING, 0, 0],
    }
}

/// The number of the first name that isn't there.
fn named(alloc: Global, user: &Name, base: &mut DbPlain, ranges: &RangeTable, s: &Statement) -> u8 {
    match name_refusal(alloc, s, user, ranges, base) {
        Ok(Some(number)) => number,
        Ok(None) => 0,
        Err(_) => WANTING,
    }
}

/// What a user's statement asks a base for.
fn answered_in(alloc: Global, user: &Name, base: &mut DbPlain, s: &Statement) -> Answered {
    let ranges = RangeTable::new(alloc);
    let name = named(alloc, user, base, &ranges, s);
    let tree = resolve(alloc, s, user, &ranges, base);
    let [number, targets, made] = answered_of(alloc, user, base, &tree);
    drop(tree);
    drop(ranges);
    [name, number, targets, made]
}

/// What ann's statement asks an empty database for.
fn answered(alloc: Global, s: &Statement) -> Answered {
    match both(ann(alloc), ann(alloc)) {
        Ok((user, dba)) => {
            let mut base = DbPlain::new(alloc, dba);
            let answered = answered_in(alloc, &user, &mut base, s);
            drop(base);
            drop(user);
            answered
        }
        Err(_) => [WANTING; 4],
    }
}

/// What the statement that a text begins with asks an empty database for.
fn answer(alloc: Global, text: &[u8]) -> Answered {
    match next_statement(alloc, text, 0) {
        Ok(Some((s, _))) => {
            let answered = answered(alloc, &s);
            drop(s);
            answered
        }
        _ => [WANTING; 4],
    }
}

/// A text, and what its statement asks for.
const ANSWERS: [(&[u8], Answered); 31] = [
    (b"range of x is p", [10, 10, 0, 0]),
    (b"range of x is relation", [0, 0, 0, 0]),
    (b"retrieve (x.a)", [11, 11, 0, 0]),
    (b"retrieve (x.a) where 1 = \"b\"", [11, 11, 0, 0]),
    (b"retrieve (n = 3) where 1 = \"b\"", [0, 13, 0, 0]),
    (b"retrieve (n = 3) where 1 = 2", [0, 0, 1, 0]),
    (b"help", [0, 0, 3, 0]),
    (b"help relation", [0, 0, 3, 0]),
    (b"help p", [10, 10, 0, 0]),
    (b"print relation", [0, 0, 4, 0]),
    (b"print relation, attribute", [0, 0, 9, 0]),
    (b"print relation, p", [10, 10, 0, 0]),
    (b"destroy relation, p", [10, 10, 0, 0]),
    (b"destroy relation, relation", [0, 17, 0, 0]),
    (b"destroy attribute", [0, 28, 0, 0]),
    (b"modify p to heap", [10, 10, 0, 0]),
    (b"modify relation to hash on a", [12, 12, 0, 0]),
    (b"modify relation to hash on relid, relid", [0, 17, 0, 0]),
    (b"modify relation to isam", [0, 28, 0, 0]),
    (b"index on p is i (a)", [10, 10, 0, 0]),
    (b"index on relation is i (a)", [12, 12, 0, 0]),
    (
        b"index on relation is relation (relid, relid)",
        [0, 17, 0, 0],
    ),
    (b"index on relation is relation (relid)", [0, 15, 0, 0]),
    (b"index on relation is i (relid)", [0, 28, 0, 0]),
    (b"copy p (a = c0nl) into \"f\"", [10, 10, 0, 0]),
    (b"copy relation (a = c0nl) into \"f\"", [12, 12, 0, 0]),
    (
        b"copy relation (relid = i2, relid = c0nl) from \"f\"",
        [0, 17, 0, 0],
    ),
    (b"copy relation (relid = i2) from \"f\"", [0, 13, 0, 0]),
    (b"copy relation (relatts = i2) from \"f\"", [0, 0, 0, 0]),
    (b"retrieve (n = 3, m = \"b\")", [0, 0, 2, 0]),
    (b"create p (a = i2)", [0, 0, 0, 1]),
];

#[test]
fn names_refuse_before_kinds_and_kinds_before_limits(rt: HostRuntime) {
    for (text, answered) in &ANSWERS {
        assert!(rt; answer(rt.alloc(), *text) == *answered);
    }
}

/// Whether the number that refuses what a text begins with is this one, or memory was wanting.
fn is_refused(alloc: Global, text: &[u8], wanted: u8) -> bool {
    let [_, number, _, _] = answer(alloc, text);
    number == wanted || number == WANTING
}

/// Where memory is refused, that is the answer, and no other one changes.
#[test]
fn an_answer_is_right_or_want_of_memory(rt: HostRuntime) {
    let alloc = rt.alloc();
    assert!(rt; is_refused(alloc, b"retrieve (n = 3, m = \"b\") sort by m", 0));
    assert!(rt; is_refused(alloc, b"retrieve into r (n = 3) where 1 = \"b\"", 13));
    assert!(rt; is_refused(alloc, b"create p (a = i2, a = i2)", 17));
}
