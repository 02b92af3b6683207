//! Views, permits, structures and catalogues.

ghost use Rattle.quel_grammar.specs.NextReader.{next_at};
ghost use Rattle.quel_examples.specs.Viewing.{Viewing};

/// Sessions define views and permits, and show catalogues.
#[tactic(auto, using(crate::proofs::Computed::viewing))]
pub fn sessions_define()
    ensures { Viewing next_at }
{}
