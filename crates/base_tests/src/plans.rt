//! What utilities plan over a database in memory, where what they plan is applied, and what refuses them.

ghost use Rattle.std.specs.Prelude.{◌≡◌, false};
ghost use Rattle.plan_laws.specs.Fitting.{is_copy};

use crate::shared::{laid, named, tree, try_apply};
use crate::shown::put;
use calculus::{Checked, DbChange, Utility};
use plain_base::DbPlain;
use quel_tree::{DbChangeTree, tree_bytes};
use std::alloc::Global;
use std::process::Abort;
use std::test::*;
use utilities::{UtilFault, plan};

/// `parts` of ann, who is the administrator, and `own` of bob are made, each with two numbers, `pnum` and
/// `qoh`, and the rows 3, 5 and 4, 5.
const LAID: [&[u8]; 2] = [
    b"\x01\x03ann\x05parts\x00\x00\x02\x04pnum\x00\x01\x03qoh\x00\x01\x00\x00\x00\x00\x00\x02\x00\x02\x00\x00\x00\x00\x00\x00\x00\x00\x03\x00\x00\x00\x00\x00\x00\x00\x00\x05\x00\x02\x00\x00\x00\x00\x00\x00\x00\x00\x04\x00\x00\x00\x00\x00\x00\x00\x00\x05",
    b"\x01\x03bob\x03own\x00\x00\x02\x04pnum\x00\x01\x03qoh\x00\x01\x00\x00\x00\x00\x00\x02\x00\x02\x00\x00\x00\x00\x00\x00\x00\x00\x03\x00\x00\x00\x00\x00\x00\x00\x00\x05\x00\x02\x00\x00\x00\x00\x00\x00\x00\x00\x04\x00\x00\x00\x00\x00\x00\x00\x00\x05",
];

/// A user, what a utility is asked for, and the change that is planned, or the number that refuses it.
type Case<'a> = (&'a [u8], &'a [u8], Result<&'a [u8], u8>);

/// Whether work is a copy, which isn't planned.
pub(crate) fn is_copy(work: &Utility) -> bool
    ensures { result ≡ false → is_copy work.now ≡ false }
{
    match work {
        Utility::Copy { .. } => true,
        _ => false,
    }
}

/// Whether this is the change that these bytes spell.
fn is_said<R: Abort>(rt: &R, alloc: Global, change: &DbChange, said: &[u8]) -> bool {
    let bytes = tree_bytes::<DbChangeTree>(alloc, change).expect(rt, "memory");
    let is_said = bytes.as_slice() == said;
    drop(bytes);
    is_said
}

/// Whether what is planned of this work is as said, and may be applied where it is a change.
fn is_work_planned<R: Abort>(
    rt: &R,
    alloc: Global,
    base: &mut DbPlain,
    user: &[u8],
    work: &Utility,
    said: Result<&[u8], u8>,
) -> bool {
    if is_copy(work) {
        return false;
    }
    let user = named(rt, alloc, user);
    let planned = plan(alloc, base, &user, work);
    drop(user);
    match (&planned, said) {
        (Ok(change), Ok(said)) => {
            let laid = try_apply(alloc, base, change);
            is_said(rt, alloc, change, said) && laid.expect(rt, "an answer")
        }
        (Err(fault), Err(number)) => *fault == UtilFault::No(number),
        _ => false,
    }
}

/// Whether what is planned of what these bytes spell is as said, and may be applied where it is a change.
fn is_planned<R: Abort>(rt: &R, alloc: Global, base: &mut DbPlain, case: &Case) -> bool {
    let (user, work, said) = *case;
    let tree = tree(rt, alloc, work);
    let is_planned = match &tree {
        Checked::Utility(work) => is_work_planned(rt, alloc, base, user, work, said),
        _ => false,
    };
    drop(tree);
    is_planned
}

/// How many of these utilities are planned in turn as is said beside each, up to the first that isn't.
fn as_said<R: Abort>(rt: &R, alloc: Global, all: &[Case]) -> usize {
    let mut base = laid(rt, alloc, &LAID);
    let mut right = 0usize;
    for case in all {
        if !is_planned(rt, alloc, &mut base, case) {
            break;
        }
        right = right.saturating_add(1);
    }
    drop(base);
    right
}

const VIEWED: [Case; 1] = [
    // A view `numbers` of the numbers in `parts`.
    (
        b"ann",
        b"\x02\x05\x03ann\x07numbers\x00\x01\x03ann\x05parts\x00\x01\x04pnum\x00\x01\x02\x00\x00\x00",
        Ok(
            b"\x05\x03ann\x07numbers\x03\x00\x01\x04pnum\x00\x01\x00\x00\x00\x01\x03ann\x05parts\x00\x01\x04pnum\x00\x01\x02\x00\x00\x00",
        ),
    ),
];

#[test]
fn a_view_has_the_attributes_of_its_targets(rt: HostRuntime) {
    assert!(rt; as_said(&rt, rt.alloc(), &VIEWED) == VIEWED.len());
}

const PERMITTED: [Case; 9] = [
    // A permit to retrieve and replace the second attribute.
    (
        b"ann",
        b"\x02\x06\x03ann\x05parts\x00\x00\x00\x00\x05\x00\x01\x01\x00\x00",
        Ok(b"\x06\x03ann\x05parts\x00\x00\x00\x01\x05\x00\x01\x01\x00\x00"),
    ),
    // A second one.
    (
        b"ann",
        b"\x02\x06\x03ann\x05parts\x00\x00\x00\x00\x05\x00\x01\x01\x00\x00",
        Ok(b"\x06\x03ann\x05parts\x00\x00\x00\x02\x05\x00\x01\x01\x00\x00"),
    ),
    // A third one.
    (
        b"ann",
        b"\x02\x06\x03ann\x05parts\x00\x00\x00\x00\x05\x00\x01\x01\x00\x00",
        Ok(b"\x06\x03ann\x05parts\x00\x00\x00\x03\x05\x00\x01\x01\x00\x00"),
    ),
    // 2 and 9 go, of which 9 isn't there.
    (
        b"ann",
        b"\x02\x08\x03ann\x05parts\x00\x02\x00\x00\x00\x02\x00\x00\x00\x09",
        Err(19),
    ),
    // 2, 1 and 2 go.
    (
        b"ann",
        b"\x02\x08\x03ann\x05parts\x00\x03\x00\x00\x00\x02\x00\x00\x00\x01\x00\x00\x00\x02",
        Ok(b"\x08\x03ann\x05parts\x00\x02\x00\x00\x00\x01\x00\x00\x00\x02"),
    ),
    // Another one comes.
    (
        b"ann",
        b"\x02\x06\x03ann\x05parts\x00\x00\x00\x00\x05\x00\x01\x01\x00\x00",
        Ok(b"\x06\x03ann\x05parts\x00\x00\x00\x04\x05\x00\x01\x01\x00\x00"),
    ),
    // All go.
    (
        b"ann",
        b"\x02\x08\x03ann\x05parts\x00\x00",
        Ok(b"\x08\x03ann\x05parts\x00\x02\x00\x00\x00\x03\x00\x00\x00\x04"),
    ),
    // All go, of none.
    (
        b"ann",
        b"\x02\x08\x03ann\x05parts\x00\x00",
        Ok(b"\x08\x03ann\x05parts\x00\x00"),
    ),
    // Another one comes.
    (
        b"ann",
        b"\x02\x06\x03ann\x05parts\x00\x00\x00\x00\x05\x00\x01\x01\x00\x00",
        Ok(b"\x06\x03ann\x05parts\x00\x00\x00\x01\x05\x00\x01\x01\x00\x00"),
    ),
];

#[test]
fn permits_are_numbered_behind_the_greatest(rt: HostRuntime) {
    assert!(rt; as_said(&rt, rt.alloc(), &PERMITTED) == PERMITTED.len());
}

const RULED: [Case; 7] = [
    // The number is at least 4, and a row has 3.
    (
        b"ann",
        b"\x02\x07\x03ann\x05parts\x00\x00\x00\x00\x01\x05\x02\x00\x00\x00\x00\x00\x00\x00\x00\x00\x00\x04",
        Err(27),
    ),
    // At least 3.
    (
        b"ann",
        b"\x02\x07\x03ann\x05parts\x00\x00\x00\x00\x01\x05\x02\x00\x00\x00\x00\x00\x00\x00\x00\x00\x00\x03",
        Ok(
            b"\x07\x03ann\x05parts\x00\x00\x00\x01\x01\x05\x02\x00\x00\x00\x00\x00\x00\x00\x00\x00\x00\x03",
        ),
    ),
    // Of `own`, at least 3.
    (
        b"bob",
        b"\x02\x07\x03bob\x03own\x00\x00\x00\x00\x01\x05\x02\x00\x00\x00\x00\x00\x00\x00\x00\x00\x00\x03",
        Ok(
            b"\x07\x03bob\x03own\x00\x00\x00\x01\x01\x05\x02\x00\x00\x00\x00\x00\x00\x00\x00\x00\x00\x03",
        ),
    ),
    // At least 2.
    (
        b"bob",
        b"\x02\x07\x03bob\x03own\x00\x00\x00\x00\x01\x05\x02\x00\x00\x00\x00\x00\x00\x00\x00\x00\x00\x02",
        Ok(
            b"\x07\x03bob\x03own\x00\x00\x00\x02\x01\x05\x02\x00\x00\x00\x00\x00\x00\x00\x00\x00\x00\x02",
        ),
    ),
    // 1 and 3 go, of which 3 isn't there.
    (
        b"bob",
        b"\x02\x09\x03bob\x03own\x00\x02\x00\x00\x00\x01\x00\x00\x00\x03",
        Err(19),
    ),
    // 2 and 1 go.
    (
        b"bob",
        b"\x02\x09\x03bob\x03own\x00\x02\x00\x00\x00\x02\x00\x00\x00\x01",
        Ok(b"\x09\x03bob\x03own\x00\x02\x00\x00\x00\x01\x00\x00\x00\x02"),
    ),
    // All of `parts` go.
    (
        b"ann",
        b"\x02\x09\x03ann\x05parts\x00\x00",
        Ok(b"\x09\x03ann\x05parts\x00\x01\x00\x00\x00\x01"),
    ),
];

#[test]
fn a_rule_is_one_that_each_row_meets(rt: HostRuntime) {
    assert!(rt; as_said(&rt, rt.alloc(), &RULED) == RULED.len());
}

const OF_OTHERS: [Case; 8] = [
    // bob permits `own`.
    (
        b"bob",
        b"\x02\x06\x03bob\x03own\x00\x00\x00\x00\x05\x00\x01\x01\x00\x00",
        Err(24),
    ),
    // Permits of it go.
    (b"bob", b"\x02\x08\x03bob\x03own\x00\x00", Err(24)),
    // bob permits ann's `parts`.
    (
        b"bob",
        b"\x02\x06\x03ann\x05parts\x00\x00\x00\x00\x05\x00\x01\x01\x00\x00",
        Err(24),
    ),
    // A rule.
    (
        b"bob",
        b"\x02\x07\x03ann\x05parts\x00\x00\x00\x00\x01\x05\x02\x00\x00\x00\x00\x00\x00\x00\x00\x00\x00\x04",
        Err(24),
    ),
    // Permit 7 goes.
    (
        b"bob",
        b"\x02\x08\x03ann\x05parts\x00\x01\x00\x00\x00\x07",
        Err(24),
    ),
    // Rule 7 goes.
    (
        b"bob",
        b"\x02\x09\x03ann\x05parts\x00\x01\x00\x00\x00\x07",
        Err(24),
    ),
    // A hash.
    (b"bob", b"\x02\x02\x03ann\x05parts\x01\x00\x00", Err(24)),
    // An index.
    (
        b"bob",
        b"\x02\x03\x03ann\x05parts\x06sorted\x00\x01\x00",
        Err(24),
    ),
];

#[test]
fn only_the_owner_changes_a_relation_and_the_administrator_permits(rt: HostRuntime) {
    assert!(rt; as_said(&rt, rt.alloc(), &OF_OTHERS) == OF_OTHERS.len());
}

const KEPT: [Case; 13] = [
    // The view `numbers`.
    (
        b"ann",
        b"\x02\x05\x03ann\x07numbers\x00\x01\x03ann\x05parts\x00\x01\x04pnum\x00\x01\x02\x00\x00\x00",
        Ok(
            b"\x05\x03ann\x07numbers\x03\x00\x01\x04pnum\x00\x01\x00\x00\x00\x01\x03ann\x05parts\x00\x01\x04pnum\x00\x01\x02\x00\x00\x00",
        ),
    ),
    // A permit of it.
    (
        b"ann",
        b"\x02\x06\x03ann\x07numbers\x00\x00\x00\x00\x05\x00\x01\x01\x00\x00",
        Err(26),
    ),
    // A rule.
    (
        b"ann",
        b"\x02\x07\x03ann\x07numbers\x00\x00\x00\x00\x01\x05\x02\x00\x00\x00\x00\x00\x00\x00\x00\x00\x00\x04",
        Err(26),
    ),
    // Permit 7 goes.
    (
        b"ann",
        b"\x02\x08\x03ann\x07numbers\x00\x01\x00\x00\x00\x07",
        Err(26),
    ),
    // Rule 7 goes.
    (
        b"ann",
        b"\x02\x09\x03ann\x07numbers\x00\x01\x00\x00\x00\x07",
        Err(26),
    ),
    // A hash.
    (b"ann", b"\x02\x02\x03ann\x07numbers\x01\x00\x00", Err(26)),
    // An index.
    (
        b"ann",
        b"\x02\x03\x03ann\x07numbers\x06sorted\x00\x01\x00",
        Err(26),
    ),
    // A permit of the catalogue `relation`.
    (
        b"ann",
        b"\x02\x06\x03ann\x08relation\x00\x00\x00\x00\x05\x00\x01\x01\x00\x00",
        Err(28),
    ),
    // A rule.
    (
        b"ann",
        b"\x02\x07\x03ann\x08relation\x00\x00\x00\x00\x01\x05\x02\x00\x00\x00\x00\x00\x00\x00\x00\x00\x00\x04",
        Err(28),
    ),
    // Permit 7 goes.
    (
        b"ann",
        b"\x02\x08\x03ann\x08relation\x00\x01\x00\x00\x00\x07",
        Err(28),
    ),
    // Rule 7 goes.
    (
        b"ann",
        b"\x02\x09\x03ann\x08relation\x00\x01\x00\x00\x00\x07",
        Err(28),
    ),
    // A hash.
    (b"ann", b"\x02\x02\x03ann\x08relation\x01\x00\x00", Err(28)),
    // An index.
    (
        b"ann",
        b"\x02\x03\x03ann\x08relation\x06sorted\x00\x01\x00",
        Err(28),
    ),
];

#[test]
fn a_catalogue_and_a_view_are_refused(rt: HostRuntime) {
    assert!(rt; as_said(&rt, rt.alloc(), &KEPT) == KEPT.len());
}

const STORED: [Case; 4] = [
    // A hash.
    (
        b"ann",
        b"\x02\x02\x03ann\x05parts\x01\x00\x00",
        Ok(b"\x03\x03ann\x05parts\x01\x00\x01\x00"),
    ),
    // An ISAM structure by the second attribute and the first.
    (
        b"ann",
        b"\x02\x02\x03ann\x05parts\x02\x00\x02\x01\x00",
        Ok(b"\x03\x03ann\x05parts\x02\x00\x02\x01\x00"),
    ),
    // A heap by the second.
    (
        b"ann",
        b"\x02\x02\x03ann\x05parts\x00\x00\x01\x01",
        Ok(b"\x03\x03ann\x05parts\x00\x00\x00"),
    ),
    // An index by both.
    (
        b"ann",
        b"\x02\x03\x03ann\x05parts\x06sorted\x00\x02\x01\x00",
        Ok(b"\x04\x03ann\x05parts\x06sorted\x00\x02\x01\x00"),
    ),
];

#[test]
fn a_structure_has_the_keys_that_are_named_or_the_first_attribute(rt: HostRuntime) {
    assert!(rt; as_said(&rt, rt.alloc(), &STORED) == STORED.len());
}

const DESTROYED: [Case; 7] = [
    // The view `numbers`.
    (
        b"ann",
        b"\x02\x05\x03ann\x07numbers\x00\x01\x03ann\x05parts\x00\x01\x04pnum\x00\x01\x02\x00\x00\x00",
        Ok(
            b"\x05\x03ann\x07numbers\x03\x00\x01\x04pnum\x00\x01\x00\x00\x00\x01\x03ann\x05parts\x00\x01\x04pnum\x00\x01\x02\x00\x00\x00",
        ),
    ),
    // bob destroys the catalogue, and his `own`.
    (
        b"bob",
        b"\x02\x01\x00\x02\x03ann\x08relation\x03bob\x03own",
        Err(28),
    ),
    // ann's `parts`.
    (b"bob", b"\x02\x01\x00\x01\x03ann\x05parts", Err(24)),
    // ann's `parts`, and his `own`.
    (
        b"bob",
        b"\x02\x01\x00\x02\x03ann\x05parts\x03bob\x03own",
        Err(24),
    ),
    // ann destroys `parts`, which the view names.
    (b"ann", b"\x02\x01\x00\x01\x03ann\x05parts", Err(25)),
    // The view, and `parts`.
    (
        b"ann",
        b"\x02\x01\x00\x02\x03ann\x07numbers\x03ann\x05parts",
        Ok(b"\x02\x00\x02\x03ann\x07numbers\x03ann\x05parts"),
    ),
    // bob destroys his `own`.
    (
        b"bob",
        b"\x02\x01\x00\x01\x03bob\x03own",
        Ok(b"\x02\x00\x01\x03bob\x03own"),
    ),
];

/// A catalogue counts before what is another's, and that before a view that stays.
#[test]
fn what_goes_is_the_users_own_and_no_view_that_stays_names_it(rt: HostRuntime) {
    assert!(rt; as_said(&rt, rt.alloc(), &DESTROYED) == DESTROYED.len());
}

/// A permit of `parts` to retrieve and replace the second attribute; what is planned of it, up to its number and
/// behind it.
const PERMIT: (&[u8], &[u8], &[u8]) = (
    b"\x02\x06\x03ann\x05parts\x00\x00\x00\x00\x05\x00\x01\x01\x00\x00",
    b"\x06\x03ann\x05parts",
    b"\x05\x00\x01\x01\x00\x00",
);

/// A rule of `parts` that the first attribute is at least 3; what is planned of it, up to its number and behind it.
const RULE: (&[u8], &[u8], &[u8]) = (
    b"\x02\x07\x03ann\x05parts\x00\x00\x00\x00\x01\x05\x02\x00\x00\x00\x00\x00\x00\x00\x00\x00\x00\x03",
    b"\x07\x03ann\x05parts",
    b"\x01\x05\x02\x00\x00\x00\x00\x00\x00\x00\x00\x00\x00\x03",
);

/// A rule that it is at least 4.
const LATE_RULE: &[u8] =
    b"\x02\x07\x03ann\x05parts\x00\x00\x00\x00\x01\x05\x02\x00\x00\x00\x00\x00\x00\x00\x00\x00\x00\x04";

/// Whether ann's utility is planned with this number.
fn is_numbered<R: Abort>(
    rt: &R,
    alloc: Global,
    base: &mut DbPlain,
    (work, front, behind): (&[u8], &[u8], &[u8]),
    number: u8,
) -> bool {
    let mut said = Vec::new(alloc);
    put(rt, &mut said, front);
    put(rt, &mut said, &[0, 0, 0, number]);
    put(rt, &mut said, behind);
    let is_planned = is_planned(rt, alloc, base, &(b"ann", work, Ok(&said)));
    drop(said);
    is_planned
}

/// How many of 100 utilities are planned in turn with the numbers from 1 on.
fn numbered<R: Abort>(
    rt: &R,
    alloc: Global,
    base: &mut DbPlain,
    utility: (&[u8], &[u8], &[u8]),
) -> u8 {
    for number in 1..=100u8 {
        if !is_numbered(rt, alloc, base, utility, number) {
            return number.saturating_sub(1);
        }
    }
    100
}

/// 100 permits and 100 rules stand on a relation, and no more.
#[test]
fn a_hundred_stand_and_no_more(rt: HostRuntime) {
    let alloc = rt.alloc();
    let mut base = laid(&rt, alloc, &LAID);
    assert!(rt; numbered(&rt, alloc, &mut base, PERMIT) == 100);
    assert!(rt; is_planned(&rt, alloc, &mut base, &(b"ann", PERMIT.0, Err(14))));
    assert!(rt; numbered(&rt, alloc, &mut base, RULE) == 100);
    assert!(rt; is_planned(&rt, alloc, &mut base, &(b"ann", LATE_RULE, Err(14))));
    drop(base);
}
