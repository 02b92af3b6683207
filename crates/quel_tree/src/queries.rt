//! Terms, qualifications, aggregates and queries as bytes. They contain each other, so those inside
//! are read with one level less; with none left, none is read.

ghost use Rattle.std.specs.Prelude.{◌≤◌};
ghost use Rattle.quel_tree.specs.Queries.{agg, qual, query, source, target, term};
ghost use Rattle.quel_tree.specs.QueryLaws.{agg_exact, qual_exact, query_exact, source_exact, target_exact, term_exact};

mod reading;
mod writing;

use calculus::{AggSource, QAgg, QQual, QTerm, Query, Target};
use memory::OutOfMemory;
use std::alloc::Global;
use tree_words::{Fault, Reader, Spelled, Spelling};

/// The spelling of a term: 0 to 7 for a number, a text constant, an attribute, `-`, `abs`, an operation,
/// `concat` and an aggregate, and what it is made of.
pub struct TermTree;

impl Spelled for TermTree {
    type Value = QTerm;

    ghost codec = { term };

    ghost Enough = { λ n. 1 ≤ n };

    ghost exact = { term_exact };
}

impl Spelling for TermTree {
    fn read(alloc: Global, levels: u32, reader: &mut Reader) -> Result<QTerm, Fault> {
        reading::read_term(alloc, levels, reader)
    }

    fn write(value: &QTerm, out: &mut Vec<u8>) -> Result<(), OutOfMemory> {
        writing::write_term(value, out)
    }
}

/// The spelling of a qualification: 0 to 5 for the true one, a comparison, a pattern, `and`, `or` and
/// `not`, and what it is made of.
pub struct QualTree;

impl Spelled for QualTree {
    type Value = QQual;

    ghost codec = { qual };

    ghost Enough = { λ n. 1 ≤ n };

    ghost exact = { qual_exact };
}

impl Spelling for QualTree {
    fn read(alloc: Global, levels: u32, reader: &mut Reader) -> Result<QQual, Fault> {
        reading::read_qual(alloc, levels, reader)
    }

    fn write(value: &QQual, out: &mut Vec<u8>) -> Result<(), OutOfMemory> {
        writing::write_qual(value, out)
    }
}

/// The spelling of an aggregate, which only stands in terms.
pub(crate) struct AggTree;

impl Spelled for AggTree {
    type Value = QAgg;

    ghost codec = { agg };

    ghost Enough = { λ n. 2 ≤ n };

    ghost exact = { agg_exact };
}

/// The spelling of where an aggregate's rows come from.
pub(crate) struct SourceTree;

impl Spelled for SourceTree {
    type Value = AggSource;

    ghost codec = { source };

    ghost exact = { λ n _. source_exact n };
}

/// The spelling of a target, which only stands in queries.
pub(crate) struct TargetTree;

impl Spelled for TargetTree {
    type Value = Target;

    ghost codec = { target };

    ghost Enough = { λ n. 1 ≤ n };

    ghost exact = { target_exact };
}

/// The spelling of a query: what its variables range over, its targets, both behind a count of two
/// bytes, and its qualification.
pub struct QueryTree;

impl Spelled for QueryTree {
    type Value = Query;

    ghost codec = { query };

    ghost Enough = { λ n. 2 ≤ n };

    ghost exact = { query_exact };
}

impl Spelling for QueryTree {
    fn read(alloc: Global, levels: u32, reader: &mut Reader) -> Result<Query, Fault> {
        reading::read_query(alloc, levels, reader)
    }

    fn write(value: &Query, out: &mut Vec<u8>) -> Result<(), OutOfMemory> {
        writing::write_query(value, out)
    }
}
