//! What updates do.

ghost use Rattle.calculus_examples.specs.Replacing.{Outcomes as ReplacingOutcomes};
ghost use Rattle.calculus_examples.specs.Swapping.{Outcomes as SwappingOutcomes};
ghost use Rattle.calculus_examples.specs.Rules.{Outcomes as RulesOutcomes};
ghost use Rattle.calculus_examples.specs.Making.{Outcomes as MakingOutcomes};

/// New values are taken from the rows before; two values for one row, no value, and one that doesn't fit
/// refuse the update.
#[tactic(auto, using(crate::proofs::Replacing::outcomes))]
pub fn updates_are_deferred()
    ensures { ReplacingOutcomes }
{}

/// Rows that take each other's values leave the relation as it was; rows that become equal are one.
#[tactic(auto, using(crate::proofs::Swapping::outcomes))]
pub fn rows_are_a_set()
    ensures { SwappingOutcomes }
{}

/// A new row that breaks a rule isn't put, and the old one stays.
#[tactic(auto, using(crate::proofs::Rules::outcomes))]
pub fn rules_leave_rows_out()
    ensures { RulesOutcomes }
{}

/// A relation that is made of an answer has `i4` for a computed number, which must fit.
#[tactic(auto, using(crate::proofs::Making::outcomes))]
pub fn answers_make_relations()
    ensures { MakingOutcomes }
{}
