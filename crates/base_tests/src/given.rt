//! What the calls are given: names, statements, and what is known of relations.

ghost use Rattle.std.specs.Prelude.{◌≡◌, true};
ghost use Rattle.quel_meaning.specs.IsWritten.{is_written};

use crate::shared::named;
use calculus::{Name, RelInfo, Statement};
use quel_parse::next_statement;
use quel_tree::RelInfoTree;
use std::alloc::Global;
use std::process::Abort;
use tree_words::read_whole;

/// The statement that a text begins with.
#[tactic(auto, using(reading_laws::proofs::Statements::computed_written))]
pub(crate) fn statement(rt: &impl Abort, alloc: Global, text: &[u8]) -> Statement
    ensures { is_written result ≡ true }
{
    let read = next_statement(alloc, text, 0).expect(rt, "memory");
    let (statement, _) = read.expect(rt, "a statement");
    statement
}

/// What is known of the relation that these bytes spell.
pub(crate) fn relation(rt: &impl Abort, alloc: Global, bytes: &[u8]) -> RelInfo {
    read_whole::<RelInfoTree>(alloc, 0, bytes)
        .ok()
        .expect(rt, "a relation")
}

/// ann's `p` with `a` and `c`, and her `q` with `b` and `d`, numbers of two bytes.
pub(crate) const P: &[u8] = b"\x03ann\x01p\x00\x00\x02\x01a\x00\x01\x01c\x00\x01\x00\x00";

pub(crate) const Q: &[u8] = b"\x03ann\x01q\x00\x00\x02\x01b\x00\x01\x01d\x00\x01\x00\x00";

/// `x` and `y`.
pub(crate) fn two_vars(rt: &impl Abort, alloc: Global) -> Vec<Name> {
    let mut vars = Vec::new(alloc);
    for var in [b"x".as_slice(), b"y".as_slice()] {
        vars.push(named(rt, alloc, var)).expect(rt, "memory");
    }
    vars
}

/// `p` and `q`, over which `x` and `y` range.
pub(crate) fn two_relations(rt: &impl Abort, alloc: Global) -> Vec<RelInfo> {
    let mut infos = Vec::new(alloc);
    for bytes in [P, Q] {
        infos.push(relation(rt, alloc, bytes)).expect(rt, "memory");
    }
    infos
}
