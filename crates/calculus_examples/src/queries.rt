//! What queries answer.

ghost use Rattle.calculus_examples.specs.Division.{Answers as DivisionAnswers};
ghost use Rattle.calculus_examples.specs.Components.{Answers as ComponentsAnswers};
ghost use Rattle.calculus_examples.specs.Groups.{Answers as GroupsAnswers};
ghost use Rattle.calculus_examples.specs.Folds.{Answers as FoldsAnswers};
ghost use Rattle.calculus_examples.specs.Views.{Shown};
ghost use Rattle.calculus_examples.specs.SelfJoin.{Answers as SelfJoinAnswers};

/// A comparison with a side without value is false, a target without value is lacking, and a variable over
/// no rows leaves no assignment.
#[tactic(auto, using(crate::proofs::Division::answers))]
pub fn division_by_zero_has_no_value()
    ensures { DivisionAnswers }
{}

/// A part of a query that shares no variable with the targets decides whether there is an answer, and a
/// target lacks a value only where the whole query qualifies.
#[tactic(auto, using(crate::proofs::Components::answers))]
pub fn parts_are_checked_together()
    ensures { ComponentsAnswers }
{}

/// An aggregate with `by` folds the rows of each group, and a group of no rows sums to 0.
#[tactic(auto, using(crate::proofs::Groups::answers))]
pub fn each_group_is_folded()
    ensures { GroupsAnswers }
{}

/// Each operation over all rows, over no rows, and over a row without a value.
#[tactic(auto, using(crate::proofs::Folds::answers))]
pub fn aggregates_fold_different_rows()
    ensures { FoldsAnswers }
{}

/// A view shows the set of its query's rows, to one who asks only what he may read below it; the catalogue
/// has it, and its variables, level and size are counted. A query over it reads what its query reads.
#[tactic(auto, using(crate::proofs::Views::shown))]
pub fn views_show_sets()
    ensures { Shown }
{}

/// A view that stands twice in a query has two rows of its own.
#[tactic(auto, using(crate::proofs::SelfJoin::answers))]
pub fn a_view_may_stand_twice()
    ensures { SelfJoinAnswers }
{}
