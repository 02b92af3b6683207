//! Values of terms, and texts that match.

ghost use Rattle.calculus_examples.specs.Arithmetic.{Values};
ghost use Rattle.calculus_examples.specs.Patterns.{Matching};

/// A quotient is cut toward zero, a remainder has the sign of the left side, and what leaves 64 bits has
/// no value.
#[tactic(auto, using(crate::proofs::Arithmetic::values))]
pub fn values_of_terms()
    ensures { Values }
{}

/// `*`, `?`, classes, ranges and backslashes in patterns.
#[tactic(auto, using(crate::proofs::Patterns::matching))]
pub fn texts_match_patterns()
    ensures { Matching }
{}
