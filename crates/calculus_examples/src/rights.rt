//! What users may do.

ghost use Rattle.calculus_examples.specs.Permits.{Rights};
ghost use Rattle.calculus_examples.specs.Permits.{Cuts};

/// Two permits for one attribute each permit no query of both; what an aggregate names counts.
#[tactic(auto, using(crate::proofs::Permits::rights))]
pub fn permits_are_not_joined()
    ensures { Rights }
{}

/// A new row that no permit lets through is left out, and only rows that a permit lets through are replaced.
#[tactic(auto, using(crate::proofs::Permits::cuts))]
pub fn permits_restrict_rows()
    ensures { Cuts }
{}
