//! Statements.

use crate::shared::{boxed, chars, named, one};
use calculus::{
    AggOp, AggTerm, ArithOp, Boxed, CmpOp, CopyForm, Item, List, Name, Qual, Statement, Term,
};
use std::alloc::Global;
use std::process::Abort;

fn var(rt: &impl Abort, alloc: Global) -> Name {
    named(rt, alloc, b"v")
}

fn aggregate(rt: &impl Abort, alloc: Global) -> Term {
    let (var, attr) = (var(rt, alloc), named(rt, alloc, b"a"));
    let by = one(rt, alloc, Term::Attr { var, attr });
    let (op, arg, qual) = (AggOp::Countu, Term::Int(1), Qual::True);
    Term::Agg(boxed(rt, alloc, AggTerm { op, arg, by, qual }))
}

/// A term that holds each kind of term.
fn term(rt: &impl Abort, alloc: Global) -> Term {
    let op = ArithOp::Pow;
    let left = boxed(rt, alloc, Term::Neg(boxed(rt, alloc, Term::Int(5))));
    let right = boxed(rt, alloc, Term::Abs(boxed(rt, alloc, aggregate(rt, alloc))));
    let left = boxed(rt, alloc, Term::Arith { op, left, right });
    let right = boxed(rt, alloc, Term::Chars(chars(rt, alloc, b"\\]")));
    Term::Concat { left, right }
}

fn always(rt: &impl Abort, alloc: Global) -> Boxed<Qual> {
    boxed(rt, alloc, Qual::True)
}

/// A qualification that holds each kind of qualification.
fn qual(rt: &impl Abort, alloc: Global) -> Qual {
    let (op, left, right) = (CmpOp::Ge, term(rt, alloc), Term::Int(0));
    let compared = boxed(rt, alloc, Qual::Cmp { op, left, right });
    let both = boxed(rt, alloc, Qual::And(compared, always(rt, alloc)));
    let not = boxed(rt, alloc, Qual::Not(always(rt, alloc)));
    Qual::Or(both, not)
}

/// Puts one item of each kind.
fn push_items(rt: &impl Abort, alloc: Global, items: &mut Vec<Item>) {
    let (name, term) = (var(rt, alloc), Term::Int(2));
    items.push(Item::Set { name, term }).expect(rt, "no memory");
    let (owner, attr) = (var(rt, alloc), var(rt, alloc));
    let item = Item::Attr { var: owner, attr };
    items.push(item).expect(rt, "no memory");
    let var = var(rt, alloc);
    items.push(Item::All { var }).expect(rt, "no memory");
}

/// One item of each kind.
fn items(rt: &impl Abort, alloc: Global) -> List<Item> {
    let mut items = Vec::new(alloc);
    push_items(rt, alloc, &mut items);
    List::of(items)
}

/// A retrieval with everything that it may have.
pub fn retrieval(rt: &impl Abort, alloc: Global) -> Statement {
    let sort = one(rt, alloc, (var(rt, alloc), true));
    Statement::Retrieve {
        into: Some(var(rt, alloc)),
        items: items(rt, alloc),
        qual: qual(rt, alloc),
        sort,
    }
}

/// The copying of a relation into a file.
pub fn copying(rt: &impl Abort, alloc: Global) -> Statement {
    let form = CopyForm::Fixed(3);
    Statement::Copy {
        rel: var(rt, alloc),
        columns: one(rt, alloc, (var(rt, alloc), form)),
        from: false,
        file: chars(rt, alloc, b"f"),
    }
}
