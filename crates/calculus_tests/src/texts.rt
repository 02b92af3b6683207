//! Terms, qualifications and queries with texts put in.

ghost use Rattle.std.specs.Prelude.{◌≡◌, true, length};
ghost use Rattle.std.specs.List.{list_all};
ghost use Rattle.view_text.specs.Scoped.{is_scoped};
ghost use Rattle.view_text.specs.Expansions.{expansions_vars};

use crate::view_queries::{aggregate, kept, query};
use crate::written::{put_qual, put_query, put_text};
use calculus::{OutOfMemory, QAgg, QQual, QTerm};
use std::alloc::Global;
use std::process::Abort;
use std::test::*;
use view_text::{
    Expansion, conditions, permit_condition, rows_expansion, substituted_qual, substituted_rows,
    substituted_term, substituted_whole,
};

/// Whether an answer comes.
fn comes<T: Drop>(answer: Result<T, OutOfMemory>) -> bool {
    answer.is_ok()
}

/// Whether the list is filled where there is nothing to put in.
fn is_filled(alloc: Global) -> bool {
    let mut quals = Vec::new(alloc);
    comes(conditions(alloc, &[], &mut quals))
}

#[test]
fn answers_come_where_there_is_memory(rt: HostRuntime) {
    let alloc = rt.alloc();
    assert!(rt; comes(substituted_term(alloc, &[], &QTerm::Attr { var: 1, attr: 2 })));
    assert!(rt; comes(substituted_qual(alloc, &[], &QQual::True)));
    assert!(rt; is_filled(alloc));
}

/// What becomes of a permit's qualification, which is that of this query.
fn permitted(rt: &impl Abort, alloc: Global, bytes: &[u8]) -> Vec<u8> {
    let query = query(rt, alloc, bytes);
    let condition = permit_condition(alloc, &query.qual).expect(rt, "memory");
    drop(query);
    let mut written = Vec::new(alloc);
    put_qual(rt, &mut written, &condition);
    drop(condition);
    written
}

/// Qualifications, and what becomes of them.
const PERMITTED: [(&[u8], &[u8]); 4] = [
    // The first attribute of the variable is 1.
    (
        b"\x00\x00\x00\x00\x01\x00\x02\x00\x00\x00\x00\x00\x00\x00\x00\x00\x00\x01",
        b"0.0=1",
    ),
    // Its third attribute is.
    (
        b"\x00\x00\x00\x00\x01\x00\x02\x00\x02\x00\x00\x00\x00\x00\x00\x00\x00\x01",
        b"0.2=1",
    ),
    // That of a second variable is.
    (
        b"\x00\x00\x00\x00\x01\x00\x02\x01\x00\x00\x00\x00\x00\x00\x00\x00\x00\x01",
        b"1/0=1",
    ),
    // An aggregate is.
    (
        b"\x00\x00\x00\x00\x01\x00\x07\x00\x00\x00\x00\x03ann\x05parts\x00\x00\x00\x00\x00\x00\x00\x00\x09\x00\x00\x00\x00\x00\x00\x00\x00\x00\x00\x00\x00\x00\x01",
        b"1/0=1",
    ),
];

#[test]
fn permits_are_about_the_only_variable(rt: HostRuntime) {
    for (bytes, expected) in &PERMITTED {
        assert!(rt; permitted(&rt, rt.alloc(), *bytes).as_slice() == *expected);
    }
}

/// The text of the rows of a query without variables.
fn settled(rt: &impl Abort, alloc: Global, bytes: &[u8]) -> Vec<u8> {
    let query = query(rt, alloc, bytes);
    let text = rows_expansion(alloc, &[], &query).expect(rt, "memory");
    drop(query);
    let mut written = Vec::new(alloc);
    put_text(rt, &mut written, &text);
    drop(text);
    written
}

/// Queries of a quotient where one number is less than another, and their texts.
const SETTLED: [(&[u8], &[u8]); 3] = [
    // 3 divided by 1, where 1 is less than 2.
    (
        b"\x00\x00\x00\x01\x01x\x01\x05\x03\x00\x00\x00\x00\x00\x00\x00\x00\x03\x00\x00\x00\x00\x00\x00\x00\x00\x01\x01\x02\x00\x00\x00\x00\x00\x00\x00\x00\x01\x00\x00\x00\x00\x00\x00\x00\x00\x02",
        b"; 3/1 ; ",
    ),
    // Where 2 is less than 1.
    (
        b"\x00\x00\x00\x01\x01x\x01\x05\x03\x00\x00\x00\x00\x00\x00\x00\x00\x03\x00\x00\x00\x00\x00\x00\x00\x00\x01\x01\x02\x00\x00\x00\x00\x00\x00\x00\x00\x02\x00\x00\x00\x00\x00\x00\x00\x00\x01",
        b"; 3/1 ; !true ",
    ),
    // 3 divided by 0.
    (
        b"\x00\x00\x00\x01\x01x\x01\x05\x03\x00\x00\x00\x00\x00\x00\x00\x00\x03\x00\x00\x00\x00\x00\x00\x00\x00\x00\x01\x02\x00\x00\x00\x00\x00\x00\x00\x00\x01\x00\x00\x00\x00\x00\x00\x00\x00\x02",
        b"; 3/0 ; !true ",
    ),
];

#[test]
fn conditions_without_variables_are_settled(rt: HostRuntime) {
    for (bytes, expected) in &SETTLED {
        assert!(rt; settled(&rt, rt.alloc(), *bytes).as_slice() == *expected);
    }
}

/// The texts of two relations.
fn texts(rt: &impl Abort, alloc: Global) -> Vec<Expansion>
    ensures scoped { list_all is_scoped result.items ≡ true }
    ensures vars { length (expansions_vars result.items) ≡ 2 }
{
    let mut texts = Vec::new(alloc);
    texts.push(kept(rt, alloc, b"p")).expect(rt, "memory");
    texts.push(kept(rt, alloc, b"q")).expect(rt, "memory");
    texts
}

/// The text of the rows of a query over them.
fn rows(rt: &impl Abort, alloc: Global, bytes: &[u8]) -> Vec<u8> {
    let query = query(rt, alloc, bytes);
    let texts = texts(rt, alloc);
    let text = rows_expansion(alloc, &texts, &query).expect(rt, "memory");
    drop(texts);
    drop(query);
    let mut written = Vec::new(alloc);
    put_text(rt, &mut written, &text);
    drop(text);
    written
}

/// Queries of an attribute where two others are equal, and their texts.
const ROWS: [(&[u8], &[u8]); 3] = [
    // The third attribute of the first variable.
    (
        b"\x00\x00\x00\x01\x01x\x01\x02\x00\x02\x01\x00\x02\x00\x00\x02\x01\x01",
        b"p q ; 0.2 ; 0.0=1.1 0.2=0.2 0.0=1 1.0=1 ",
    ),
    // The first attribute of the second.
    (
        b"\x00\x00\x00\x01\x01x\x01\x02\x01\x00\x01\x00\x02\x00\x00\x02\x01\x01",
        b"p q ; 1.0 ; 0.0=1.1 1.0=1.0 0.0=1 1.0=1 ",
    ),
    // That of a third, which isn't there.
    (
        b"\x00\x00\x00\x01\x01x\x01\x02\x02\x00\x01\x00\x02\x00\x00\x02\x01\x01",
        b"p q ; 1/0 ; 0.0=1.1 1/0=1/0 0.0=1 1.0=1 ",
    ),
];

#[test]
fn texts_stand_one_behind_the_other(rt: HostRuntime) {
    for (bytes, expected) in &ROWS {
        assert!(rt; rows(&rt, rt.alloc(), *bytes).as_slice() == *expected);
    }
}

/// Aggregates at the slots 0 and 1.
fn aggregates(rt: &impl Abort, alloc: Global) -> Vec<QAgg> {
    let mut aggregates = Vec::new(alloc);
    aggregates
        .push(aggregate(rt, alloc, 0, 4))
        .expect(rt, "memory");
    aggregates
        .push(aggregate(rt, alloc, 1, 5))
        .expect(rt, "memory");
    aggregates
}

/// The text of a relation alone.
fn only(rt: &impl Abort, alloc: Global) -> Vec<Expansion>
    ensures scoped { list_all is_scoped result.items ≡ true }
    ensures vars { length (expansions_vars result.items) ≡ 1 }
{
    let mut texts = Vec::new(alloc);
    texts.push(kept(rt, alloc, b"p")).expect(rt, "memory");
    texts
}

/// A query over it, with the aggregates put in.
fn whole(rt: &impl Abort, alloc: Global, bytes: &[u8]) -> Vec<u8> {
    let query = query(rt, alloc, bytes);
    let aggregates = aggregates(rt, alloc);
    let texts = only(rt, alloc);
    let made = substituted_whole(alloc, &texts, &aggregates, &query).expect(rt, "memory");
    drop(texts);
    drop(aggregates);
    drop(query);
    let mut written = Vec::new(alloc);
    put_query(rt, &mut written, &made);
    drop(made);
    written
}

/// The query over it, without aggregates.
fn plain(rt: &impl Abort, alloc: Global, bytes: &[u8]) -> Vec<u8> {
    let query = query(rt, alloc, bytes);
    let texts = only(rt, alloc);
    let made = substituted_rows(alloc, &texts, &query).expect(rt, "memory");
    drop(texts);
    drop(query);
    let mut written = Vec::new(alloc);
    put_query(rt, &mut written, &made);
    drop(made);
    written
}

/// The query whose target is an aggregate at the first slot, where it is equal to an attribute; and the same at
/// the second slot and at the third.
const FIRST: &[u8] =
    b"\x00\x00\x00\x01\x01x\x01\x07\x00\x00\x00\x00\x03ann\x05parts\x00\x00\x00\x00\x00\x00\x00\x00\x09\x00\x00\x00\x00\x00\x01\x00\x07\x00\x00\x00\x00\x03ann\x05parts\x00\x00\x00\x00\x00\x00\x00\x00\x09\x00\x00\x00\x00\x00\x02\x00\x02";

const SECOND: &[u8] =
    b"\x00\x00\x00\x01\x01x\x01\x07\x00\x01\x00\x00\x03ann\x05parts\x00\x00\x00\x00\x00\x00\x00\x00\x09\x00\x00\x00\x00\x00\x01\x00\x07\x00\x01\x00\x00\x03ann\x05parts\x00\x00\x00\x00\x00\x00\x00\x00\x09\x00\x00\x00\x00\x00\x02\x00\x02";

const THIRD: &[u8] =
    b"\x00\x00\x00\x01\x01x\x01\x07\x00\x02\x00\x00\x03ann\x05parts\x00\x00\x00\x00\x00\x00\x00\x00\x09\x00\x00\x00\x00\x00\x01\x00\x07\x00\x02\x00\x00\x03ann\x05parts\x00\x00\x00\x00\x00\x00\x00\x00\x09\x00\x00\x00\x00\x00\x02\x00\x02";

/// Without an aggregate that is put in.
const NONE: &[u8] = b"p ; x=1/0 ; (1/0=0.2 & 0.0=1)";

/// Such a query, and what it becomes.
const FOLDED: [(&[u8], &[u8]); 3] = [
    (FIRST, b"p ; x={0:4} ; ({0:4}=0.2 & 0.0=1)"),
    (SECOND, b"p ; x={1:5} ; ({1:5}=0.2 & 0.0=1)"),
    (THIRD, NONE),
];

#[test]
fn aggregates_are_put_in_by_their_slots(rt: HostRuntime) {
    for (bytes, expected) in &FOLDED {
        assert!(rt; whole(&rt, rt.alloc(), *bytes).as_slice() == *expected);
    }
    assert!(rt; plain(&rt, rt.alloc(), FIRST).as_slice() == NONE);
}
