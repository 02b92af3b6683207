//! Reads terms, qualifications, aggregates and queries.

ghost use Rattle.tree_words.specs.Codec.{Reads};
ghost use Rattle.tree_words.specs.Words.{both, items_read, list, number16};
ghost use Rattle.tree_words.specs.Ways.{flag};
ghost use Rattle.quel_tree.specs.Names.{chars};
ghost use Rattle.quel_tree.specs.Queries.{agg, agg_over, qual, qual_over, query, query_over, source, target, term, term_over};

use crate::{AggOpTree, ArithOpTree, CharsTree, CmpOpTree, KindTree, NameTree, RelKeyTree};
use calculus::{AggSource, Chars, QAgg, QQual, QTerm, Query, Target};
use memory::{Boxed, List};
use std::alloc::Global;
use tree_words::{Fault, Reader, Spelling};

#[cycle(reading)]
#[tactic(auto, unfolding(crate::specs::Queries::trees))]
pub(super) fn read_term(alloc: Global, levels: u32, reader: &mut Reader) -> Result<QTerm, Fault>
    ensures { Reads result reader.new ((term levels).read reader.old) }
{
    if levels == 0 {
        return Err(Fault::Wrong(reader.left()));
    }
    term_over(alloc, levels - 1, reader)
}

#[cycle(reading)]
fn boxed_term(alloc: Global, levels: u32, reader: &mut Reader) -> Result<Boxed<QTerm>, Fault>
    ensures { Reads result reader.new ((term levels).read reader.old) }
{
    let term = read_term(alloc, levels, reader)?;
    Ok(Boxed::new(alloc, term)?)
}

#[cycle(reading)]
fn two_terms(
    alloc: Global,
    levels: u32,
    reader: &mut Reader,
) -> Result<(Boxed<QTerm>, Boxed<QTerm>), Fault>
    ensures { Reads result reader.new ((both (term levels) (term levels)).read reader.old) }
{
    let left = boxed_term(alloc, levels, reader)?;
    let right = boxed_term(alloc, levels, reader)?;
    Ok((left, right))
}

#[cycle(reading)]
fn term_over(alloc: Global, levels: u32, reader: &mut Reader) -> Result<QTerm, Fault>
    ensures { Reads result reader.new ((term_over levels (term levels) (agg levels)).read reader.old) }
{
    let left = reader.left();
    match reader.byte()? {
        0 => Ok(QTerm::Int(<i64 as Spelling>::read(alloc, levels, reader)?)),
        1 => Ok(QTerm::Chars(CharsTree::read(alloc, levels, reader)?)),
        2 => {
            let (var, attr) = <(u8, u8) as Spelling>::read(alloc, levels, reader)?;
            Ok(QTerm::Attr { var, attr })
        }
        3 if levels > 0 => Ok(QTerm::Neg(boxed_term(alloc, levels, reader)?)),
        4 if levels > 0 => Ok(QTerm::Abs(boxed_term(alloc, levels, reader)?)),
        5 if levels > 0 => {
            let op = ArithOpTree::read(alloc, levels, reader)?;
            let (left, right) = two_terms(alloc, levels, reader)?;
            Ok(QTerm::Arith { op, left, right })
        }
        6 if levels > 0 => {
            let (left, right) = two_terms(alloc, levels, reader)?;
            Ok(QTerm::Concat { left, right })
        }
        7 if levels > 1 => Ok(QTerm::Agg(boxed_agg(alloc, levels, reader)?)),
        _ => Err(Fault::Wrong(left)),
    }
}

#[cycle(reading)]
#[tactic(auto, unfolding(crate::specs::Queries::trees))]
pub(super) fn read_qual(alloc: Global, levels: u32, reader: &mut Reader) -> Result<QQual, Fault>
    ensures { Reads result reader.new ((qual levels).read reader.old) }
{
    if levels == 0 {
        return Err(Fault::Wrong(reader.left()));
    }
    qual_over(alloc, levels - 1, reader)
}

#[cycle(reading)]
fn boxed_qual(alloc: Global, levels: u32, reader: &mut Reader) -> Result<Boxed<QQual>, Fault>
    ensures { Reads result reader.new ((qual levels).read reader.old) }
{
    let qual = read_qual(alloc, levels, reader)?;
    Ok(Boxed::new(alloc, qual)?)
}

#[cycle(reading)]
fn two_quals(
    alloc: Global,
    levels: u32,
    reader: &mut Reader,
) -> Result<(Boxed<QQual>, Boxed<QQual>), Fault>
    ensures { Reads result reader.new ((both (qual levels) (qual levels)).read reader.old) }
{
    let left = boxed_qual(alloc, levels, reader)?;
    let right = boxed_qual(alloc, levels, reader)?;
    Ok((left, right))
}

#[cycle(reading)]
fn term_pair(alloc: Global, levels: u32, reader: &mut Reader) -> Result<(QTerm, QTerm), Fault>
    ensures { Reads result reader.new ((both (term levels) (term levels)).read reader.old) }
{
    let left = read_term(alloc, levels, reader)?;
    let right = read_term(alloc, levels, reader)?;
    Ok((left, right))
}

#[cycle(reading)]
fn term_and_pattern(
    alloc: Global,
    levels: u32,
    reader: &mut Reader,
) -> Result<(QTerm, (Chars, bool)), Fault>
    ensures { Reads result reader.new ((both (term levels) (both chars flag)).read reader.old) }
{
    let term = read_term(alloc, levels, reader)?;
    let pattern = <(CharsTree, bool) as Spelling>::read(alloc, levels, reader)?;
    Ok((term, pattern))
}

#[cycle(reading)]
fn qual_over(alloc: Global, levels: u32, reader: &mut Reader) -> Result<QQual, Fault>
    ensures { Reads result reader.new ((qual_over levels (term levels) (qual levels)).read reader.old) }
{
    let left = reader.left();
    match reader.byte()? {
        0 => Ok(QQual::True),
        1 if levels > 0 => {
            let op = CmpOpTree::read(alloc, levels, reader)?;
            let (left, right) = term_pair(alloc, levels, reader)?;
            Ok(QQual::Cmp { op, left, right })
        }
        2 if levels > 0 => {
            let (term, (pattern, same)) = term_and_pattern(alloc, levels, reader)?;
            Ok(QQual::Like {
                term,
                pattern,
                same,
            })
        }
        3 if levels > 0 => {
            let (left, right) = two_quals(alloc, levels, reader)?;
            Ok(QQual::And(left, right))
        }
        4 if levels > 0 => {
            let (left, right) = two_quals(alloc, levels, reader)?;
            Ok(QQual::Or(left, right))
        }
        5 if levels > 0 => Ok(QQual::Not(boxed_qual(alloc, levels, reader)?)),
        _ => Err(Fault::Wrong(left)),
    }
}

#[cycle(reading)]
fn term_items(
    alloc: Global,
    levels: u32,
    count: u16,
    reader: &mut Reader,
) -> Result<List<QTerm>, Fault>
    ensures { Reads result reader.new (items_read (term levels) count reader.old) }
{
    let mut terms = Vec::new(alloc);
    for _ in 0..count {
        let term = read_term(alloc, levels, reader)?;
        terms.push(term)?;
    }
    Ok(List::of(terms))
}

#[cycle(reading)]
#[tactic(auto, unfolding(tree_words::specs::Words::list))]
fn read_terms(alloc: Global, levels: u32, reader: &mut Reader) -> Result<List<QTerm>, Fault>
    ensures { Reads result reader.new ((list number16 (term levels)).read reader.old) }
{
    let count = <u16 as Spelling>::read(alloc, levels, reader)?;
    term_items(alloc, levels, count, reader)
}

#[cycle(reading)]
fn read_source(alloc: Global, levels: u32, reader: &mut Reader) -> Result<AggSource, Fault>
    ensures { Reads result reader.new ((source levels).read reader.old) }
{
    let left = reader.left();
    match reader.byte()? {
        0 => Ok(AggSource::Named(RelKeyTree::read(alloc, levels, reader)?)),
        1 if levels > 1 => {
            let query = read_query(alloc, levels, reader)?;
            Ok(AggSource::Rows(Boxed::new(alloc, query)?))
        }
        _ => Err(Fault::Wrong(left)),
    }
}

/// The two lists of terms of an aggregate, and its qualification.
#[cycle(reading)]
fn groups(
    alloc: Global,
    levels: u32,
    reader: &mut Reader,
) -> Result<(List<QTerm>, (List<QTerm>, QQual)), Fault>
    ensures { Reads result reader.new ((both (list number16 (term levels)) (both (list number16 (term levels)) (qual levels))).read reader.old) }
{
    let by = read_terms(alloc, levels, reader)?;
    let link = read_terms(alloc, levels, reader)?;
    let qual = read_qual(alloc, levels, reader)?;
    Ok((by, (link, qual)))
}

#[cycle(reading)]
fn agg_over(alloc: Global, levels: u32, reader: &mut Reader) -> Result<QAgg, Fault>
    ensures { Reads result reader.new ((agg_over levels (term levels) (qual levels) (query levels)).read reader.old) }
{
    let (slot, op) = <(u16, AggOpTree) as Spelling>::read(alloc, levels, reader)?;
    let source = read_source(alloc, levels, reader)?;
    let arg = read_term(alloc, levels, reader)?;
    let (by, (link, qual)) = groups(alloc, levels, reader)?;
    Ok(QAgg {
        slot,
        op,
        source,
        arg,
        by,
        link,
        qual,
    })
}

#[cycle(reading)]
#[tactic(auto, unfolding(crate::specs::Queries::trees))]
fn boxed_agg(alloc: Global, levels: u32, reader: &mut Reader) -> Result<Boxed<QAgg>, Fault>
    ensures { Reads result reader.new ((agg levels).read reader.old) }
{
    if levels == 0 {
        return Err(Fault::Wrong(reader.left()));
    }
    let agg = agg_over(alloc, levels - 1, reader)?;
    Ok(Boxed::new(alloc, agg)?)
}

#[cycle(reading)]
fn read_target(alloc: Global, levels: u32, reader: &mut Reader) -> Result<Target, Fault>
    ensures { Reads result reader.new ((target levels).read reader.old) }
{
    let (name, kind) = <(NameTree, KindTree) as Spelling>::read(alloc, levels, reader)?;
    let term = read_term(alloc, levels, reader)?;
    Ok(Target { name, kind, term })
}

#[cycle(reading)]
fn target_items(
    alloc: Global,
    levels: u32,
    count: u16,
    reader: &mut Reader,
) -> Result<List<Target>, Fault>
    ensures { Reads result reader.new (items_read (target levels) count reader.old) }
{
    let mut targets = Vec::new(alloc);
    for _ in 0..count {
        let target = read_target(alloc, levels, reader)?;
        targets.push(target)?;
    }
    Ok(List::of(targets))
}

#[cycle(reading)]
#[tactic(auto, unfolding(tree_words::specs::Words::list))]
fn read_targets(alloc: Global, levels: u32, reader: &mut Reader) -> Result<List<Target>, Fault>
    ensures { Reads result reader.new ((list number16 (target levels)).read reader.old) }
{
    let count = <u16 as Spelling>::read(alloc, levels, reader)?;
    target_items(alloc, levels, count, reader)
}

#[cycle(reading)]
fn query_over(alloc: Global, levels: u32, reader: &mut Reader) -> Result<Query, Fault>
    ensures { Reads result reader.new ((query_over (term levels) (qual levels)).read reader.old) }
{
    let vars = <List<RelKeyTree> as Spelling>::read(alloc, levels, reader)?;
    let targets = read_targets(alloc, levels, reader)?;
    let qual = read_qual(alloc, levels, reader)?;
    Ok(Query {
        vars,
        targets,
        qual,
    })
}

#[cycle(reading)]
#[tactic(auto, unfolding(crate::specs::Queries::trees))]
pub(super) fn read_query(alloc: Global, levels: u32, reader: &mut Reader) -> Result<Query, Fault>
    ensures { Reads result reader.new ((query levels).read reader.old) }
{
    if levels == 0 {
        return Err(Fault::Wrong(reader.left()));
    }
    query_over(alloc, levels - 1, reader)
}
