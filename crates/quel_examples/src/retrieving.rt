//! Tables that are printed.

ghost use Rattle.quel_grammar.specs.NextReader.{next_at};
ghost use Rattle.quel_examples.specs.Retrieving.{Retrieving};

/// Sessions print what is retrieved.
#[tactic(auto, using(crate::proofs::Computed::retrieving))]
pub fn sessions_print_tables()
    ensures { Retrieving next_at }
{}
