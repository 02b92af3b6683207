//! What is read of texts.

ghost use Rattle.quel_grammar.specs.Next.{IsNext};
ghost use Rattle.quel_examples.specs.Statements.{Statements};
ghost use Rattle.quel_examples.specs.Refusals.{Refusals};
ghost use Rattle.quel_examples.specs.Bounds.{Bounds};
ghost use Rattle.quel_examples.specs.Places.{Places};
ghost use Rattle.quel_examples.specs.Tokens.{Tokens};

/// Statements are read up to the end of their last token, with operators grouped and names found.
#[tactic(auto, using(crate::proofs::Statements::statements))]
pub fn statements_are_read()
    ensures { Statements IsNext }
{}

/// A refusal stands at the first token that no statement has there, or at the bad piece, or at the end.
#[tactic(auto, using(crate::proofs::Refusals::refusals))]
pub fn what_cannot_go_on_is_refused()
    ensures { Refusals IsNext }
{}

/// A token past a bound is refused, also where what stands before it is a whole statement.
#[tactic(auto, using(crate::proofs::Bounds::bounds))]
pub fn bounds_refuse()
    ensures { Bounds IsNext }
{}

/// Where the first tokens from a place on begin, and on which lines.
#[tactic(auto, using(crate::proofs::Places::places))]
pub fn tokens_have_places()
    ensures { Places }
{}

/// Text constants, names and numbers at the edge of what they may be.
#[tactic(auto, using(crate::proofs::Tokens::tokens))]
pub fn tokens_have_bounds()
    ensures { Tokens IsNext }
{}
