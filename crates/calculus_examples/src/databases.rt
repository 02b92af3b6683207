//! Databases and their changes.

ghost use Rattle.calculus_examples.specs.Views.{Lawful as ViewsLawful};
ghost use Rattle.calculus_examples.specs.Changes.{Outcomes as ChangesOutcomes};
ghost use Rattle.calculus_examples.specs.Changes.{Lawful as ChangesLawful};

/// A database with views is one; what a view names goes only with the view.
#[tactic(auto, using(crate::proofs::Views::lawful))]
pub fn views_hold_what_they_name()
    ensures { ViewsLawful }
{}

/// What changes leave: permits in order, no index under a new structure, nothing of a destroyed relation.
#[tactic(auto, using(crate::proofs::Changes::outcomes))]
pub fn changes_leave_lists_in_order()
    ensures { ChangesOutcomes }
{}

/// Which changes are lawful, and which fact others break.
#[tactic(auto, using(crate::proofs::Changes::lawful))]
pub fn lawful_changes_leave_databases()
    ensures { ChangesLawful }
{}
