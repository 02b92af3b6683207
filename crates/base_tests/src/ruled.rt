use crate::shared::{laid, tree};
use calculus::{Checked, CmpOp, QQual, QTerm, TryCopy, Update};
use cut_rules::add_rules;
use std::alloc::Global;
use std::process::Abort;
use std::test::*;

/// Whether the qualification is that the first attribute is this number.
fn asks_for(q: &QQual, number: i64) -> bool {
    match q {
        QQual::Cmp {
            op: CmpOp::Eq,
            left: QTerm::Attr { var: 0, attr: 0 },
            right: QTerm::Int(other),
        } => *other == number,
        _ => false,
    }
}

/// Whether the qualifications are, in this order, that the first attribute is each of these numbers.
fn ask_for(quals: &[QQual], numbers: &[i64]) -> bool {
    if quals.len() != numbers.len() {
        return false;
    }
    for (qual, number) in quals.iter().zip(numbers) {
        if !asks_for(qual, *number) {
            return false;
        }
    }
    true
}

/// `parts` is made, with one number `pnum` of two bytes; its first rule is that this is 1, its second that it
/// is 2.
const RULED: [&[u8]; 3] = [
    b"\x01\x03ann\x05parts\x00\x00\x01\x04pnum\x00\x01\x00\x00\x00\x00\x00\x00",
    b"\x07\x03ann\x05parts\x00\x00\x00\x01\x01\x00\x02\x00\x00\x00\x00\x00\x00\x00\x00\x00\x00\x01",
    b"\x07\x03ann\x05parts\x00\x00\x00\x02\x01\x00\x02\x00\x00\x00\x00\x00\x00\x00\x00\x00\x00\x02",
];

/// An append, a replace, a delete and an into of `parts`, each with a check of its own: that the first
/// attribute is 3.
const UPDATES: [&[u8]; 4] = [
    b"\x01\x00\x03ann\x05parts\xff\x00\x00\x00\x00\x00\x00\x00\x00\x01\x01\x00\x02\x00\x00\x00\x00\x00\x00\x00\x00\x00\x00\x03\x00",
    b"\x01\x01\x03ann\x05parts\xff\x00\x00\x00\x00\x00\x00\x00\x00\x01\x01\x00\x02\x00\x00\x00\x00\x00\x00\x00\x00\x00\x00\x03\x00",
    b"\x01\x02\x03ann\x05parts\xff\x00\x00\x00\x00\x00\x00\x00\x00\x01\x01\x00\x02\x00\x00\x00\x00\x00\x00\x00\x00\x00\x00\x03\x00",
    b"\x01\x03\x03ann\x05parts\xff\x00\x00\x00\x00\x00\x00\x00\x00\x01\x01\x00\x02\x00\x00\x00\x00\x00\x00\x00\x00\x00\x00\x03\x00",
];

/// The update that these bytes spell.
fn update<R: Abort>(rt: &R, alloc: Global, bytes: &[u8]) -> Update {
    let tree = tree(rt, alloc, bytes);
    let update = match &tree {
        Checked::Update(update) => update.copy(alloc).expect(rt, "memory"),
        _ => rt.abort(),
    };
    drop(tree);
    update
}

/// Whether the checks of such an update are these once the rules are among them.
fn has_checks<R: Abort>(rt: &R, alloc: Global, bytes: &[u8], numbers: &[i64]) -> bool {
    let mut base = laid(rt, alloc, &RULED);
    let made = add_rules(alloc, update(rt, alloc, bytes), &mut base);
    drop(base);
    let ruled = made.expect(rt, "an answer");
    ask_for(ruled.checks.items(), numbers)
}

#[test]
fn the_rules_of_a_relation_stand_before_the_checks_of_its_update(rt: HostRuntime) {
    let [append, replace, delete, _] = UPDATES;
    assert!(rt; has_checks(&rt, rt.alloc(), append, &[1, 2, 3]));
    assert!(rt; has_checks(&rt, rt.alloc(), replace, &[1, 2, 3]));
    assert!(rt; has_checks(&rt, rt.alloc(), delete, &[1, 2, 3]));
}

#[test]
fn what_makes_a_relation_gets_no_rules(rt: HostRuntime) {
    let [_, _, _, into] = UPDATES;
    assert!(rt; has_checks(&rt, rt.alloc(), into, &[3]));
}
