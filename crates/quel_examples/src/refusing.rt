//! What is refused, and at which line.

ghost use Rattle.quel_grammar.specs.NextReader.{next_at};
ghost use Rattle.quel_examples.specs.Refusing.{Refusing};

/// Sessions refuse what cannot be read, found or done.
#[tactic(auto, using(crate::proofs::Computed::refusing))]
pub fn sessions_refuse()
    ensures { Refusing next_at }
{}
