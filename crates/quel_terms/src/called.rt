//! The names of functions and aggregates.

ghost use Rattle.std.specs.Prelude.{◌≡◌, option_map};
ghost use Rattle.quel_grammar.specs.Reading.{look_up};
ghost use Rattle.quel_grammar.specs.TermReaders.{calls};
ghost use Rattle.quel_terms.specs.Called.{call_of};

use crate::table::look_up;
use calculus::AggOp;

/// What is called by a name.
#[derive(Clone, Copy)]
pub enum Call {
    /// `abs`
    Abs,
    /// `mod`
    Mod,
    /// `concat`
    Concat,
    /// An aggregate.
    Aggregate(AggOp),
}

/// The names.
const CALLS: [(&[u8], Call); 12] = [
    (b"abs", Call::Abs),
    (b"mod", Call::Mod),
    (b"concat", Call::Concat),
    (b"count", Call::Aggregate(AggOp::Count)),
    (b"countu", Call::Aggregate(AggOp::Countu)),
    (b"sum", Call::Aggregate(AggOp::Sum)),
    (b"sumu", Call::Aggregate(AggOp::Sumu)),
    (b"avg", Call::Aggregate(AggOp::Avg)),
    (b"avgu", Call::Aggregate(AggOp::Avgu)),
    (b"min", Call::Aggregate(AggOp::Min)),
    (b"max", Call::Aggregate(AggOp::Max)),
    (b"any", Call::Aggregate(AggOp::Any)),
];

/// What a word calls.
pub fn call_of(word: &[u8]) -> Option<Call>
    ensures { option_map call_of result ≡ look_up calls word.now }
{
    let table = CALLS.as_slice();
    look_up(table, word)
}
