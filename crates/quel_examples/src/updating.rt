//! Rows that are put, replaced and deleted.

ghost use Rattle.quel_grammar.specs.NextReader.{next_at};
ghost use Rattle.quel_examples.specs.Updating.{Updating};

/// Sessions update relations.
#[tactic(auto, using(crate::proofs::Computed::updating))]
pub fn sessions_update()
    ensures { Updating next_at }
{}
