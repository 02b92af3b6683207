//! Writes terms, qualifications, aggregates and queries.

ghost use Rattle.std.specs.Prelude.{◌≡◌, ℕ, ◌++◌, length, OnOk};
ghost use Rattle.tree_words.specs.Codec.{Writes};
ghost use Rattle.tree_words.specs.Words.{ItemsFit, both, items_write, list, number16};
ghost use Rattle.tree_words.specs.Ways.{flag};
ghost use Rattle.quel_tree.specs.Names.{chars};
ghost use Rattle.quel_tree.specs.Operators.{arith_op, cmp_op};
ghost use Rattle.quel_tree.specs.Queries.{agg, qual, query, source, target, term};

use super::{SourceTree, TermTree};
use crate::{
    AggOpTree, ArithOpTree, CharsTree, CmpOpTree, KindTree, NameTree, QualTree, RelKeyTree,
};
use calculus::{AggSource, ArithOp, Chars, CmpOp, QAgg, QQual, QTerm, Query, Target};
use memory::{List, OutOfMemory};
use tree_words::{Spelling, fields2, variant0, variant1, variant2};

#[cycle(writing)]
pub(super) fn write_term(value: &QTerm, out: &mut Vec<u8>) -> Result<(), OutOfMemory>
    ensures { OnOk result (Writes term value.now out.old.items out.new.items) }
{
    match value {
        QTerm::Int(number) => variant1::<TermTree, i64>(0, value, number, out),
        QTerm::Chars(chars) => variant1::<TermTree, CharsTree>(1, value, chars, out),
        QTerm::Attr { var, attr } => variant2::<TermTree, u8, u8>(2, value, var, attr, out),
        QTerm::Neg(inner) => {
            out.push(3)?;
            write_term(inner.get(), out)
        }
        QTerm::Abs(inner) => {
            out.push(4)?;
            write_term(inner.get(), out)
        }
        QTerm::Arith { op, left, right } => {
            out.push(5)?;
            ArithOpTree::write(op, out)?;
            write_term(left.get(), out)?;
            write_term(right.get(), out)
        }
        QTerm::Concat { left, right } => {
            out.push(6)?;
            write_term(left.get(), out)?;
            write_term(right.get(), out)
        }
        QTerm::Agg(agg) => {
            out.push(7)?;
            write_agg(agg.get(), out)
        }
    }
}

#[cycle(writing)]
pub(super) fn write_qual(value: &QQual, out: &mut Vec<u8>) -> Result<(), OutOfMemory>
    ensures { OnOk result (Writes qual value.now out.old.items out.new.items) }
{
    match value {
        QQual::True => variant0::<QualTree>(0, value, out),
        QQual::Cmp { op, left, right } => {
            out.push(1)?;
            CmpOpTree::write(op, out)?;
            write_term(left, out)?;
            write_term(right, out)
        }
        QQual::Like {
            term,
            pattern,
            same,
        } => {
            out.push(2)?;
            write_term(term, out)?;
            fields2::<CharsTree, bool>(pattern, same, out)
        }
        QQual::And(left, right) => {
            out.push(3)?;
            write_qual(left.get(), out)?;
            write_qual(right.get(), out)
        }
        QQual::Or(left, right) => {
            out.push(4)?;
            write_qual(left.get(), out)?;
            write_qual(right.get(), out)
        }
        QQual::Not(inner) => {
            out.push(5)?;
            write_qual(inner.get(), out)
        }
    }
}

#[cycle(writing)]
fn write_term_items(items: &[QTerm], out: &mut Vec<u8>) -> Result<(), OutOfMemory>
    ensures { OnOk result ((levels : ℕ) → ItemsFit (term levels) (length items.now) items.now →
        out.new.items ≡ out.old.items ++ items_write (term levels) items.now) }
{
    for item in items {
        write_term(item, out)?;
    }
    Ok(())
}

#[cycle(writing)]
fn write_terms(terms: &[QTerm], out: &mut Vec<u8>) -> Result<(), OutOfMemory>
    ensures { OnOk result (Writes (λ n. list number16 (term n)) terms.now out.old.items out.new.items) }
{
    let count = (terms.len() % 65_536) as u16;
    <u16 as Spelling>::write(&count, out)?;
    write_term_items(terms, out)
}

#[cycle(writing)]
fn write_source(value: &AggSource, out: &mut Vec<u8>) -> Result<(), OutOfMemory>
    ensures { OnOk result (Writes source value.now out.old.items out.new.items) }
{
    match value {
        AggSource::Named(key) => variant1::<SourceTree, RelKeyTree>(0, value, key, out),
        AggSource::Rows(query) => {
            out.push(1)?;
            write_query(query.get(), out)
        }
    }
}

#[cycle(writing)]
fn write_agg(value: &QAgg, out: &mut Vec<u8>) -> Result<(), OutOfMemory>
    ensures { OnOk result (Writes agg value.now out.old.items out.new.items) }
{
    <u16 as Spelling>::write(&value.slot, out)?;
    AggOpTree::write(&value.op, out)?;
    write_source(&value.source, out)?;
    write_term(&value.arg, out)?;
    write_terms(value.by.items(), out)?;
    write_terms(value.link.items(), out)?;
    write_qual(&value.qual, out)
}

#[cycle(writing)]
fn write_target(value: &Target, out: &mut Vec<u8>) -> Result<(), OutOfMemory>
    ensures { OnOk result (Writes target value.now out.old.items out.new.items) }
{
    NameTree::write(&value.name, out)?;
    KindTree::write(&value.kind, out)?;
    write_term(&value.term, out)
}

#[cycle(writing)]
fn write_target_items(items: &[Target], out: &mut Vec<u8>) -> Result<(), OutOfMemory>
    ensures { OnOk result ((levels : ℕ) → ItemsFit (target levels) (length items.now) items.now →
        out.new.items ≡ out.old.items ++ items_write (target levels) items.now) }
{
    for item in items {
        write_target(item, out)?;
    }
    Ok(())
}

#[cycle(writing)]
fn write_targets(targets: &[Target], out: &mut Vec<u8>) -> Result<(), OutOfMemory>
    ensures { OnOk result (Writes (λ n. list number16 (target n)) targets.now out.old.items out.new.items) }
{
    let count = (targets.len() % 65_536) as u16;
    <u16 as Spelling>::write(&count, out)?;
    write_target_items(targets, out)
}

#[cycle(writing)]
pub(super) fn write_query(value: &Query, out: &mut Vec<u8>) -> Result<(), OutOfMemory>
    ensures { OnOk result (Writes query value.now out.old.items out.new.items) }
{
    <List<RelKeyTree> as Spelling>::write(&value.vars, out)?;
    write_targets(value.targets.items(), out)?;
    write_qual(&value.qual, out)
}
