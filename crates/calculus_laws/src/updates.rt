//! The rows after an update.

ghost use Rattle.std.specs.Prelude.{◌≡◌, ◌↔◌, ◌⊎◌, List, []};
ghost use Rattle.std.specs.List.{Contains};
ghost use Rattle.calculus.specs.declared.change.Pair.{Pair};
ghost use Rattle.calculus.specs.Rows.{Row, Ascends};
ghost use Rattle.calculus.specs.Replacement.{after};
ghost use Rattle.calculus_laws.specs.Updates.{IsOldInNone, IsNewInSome};

/// No pair changes nothing.
#[tactic(auto, using(crate::proofs::After::after_no_pairs))]
pub fn no_pair_changes_nothing()
    ensures { (rows : List Row) → after rows [] ≡ rows }
{}

/// What stands after an update is a set, where what stood before is one.
#[tactic(auto, using(crate::proofs::After::after_ascends))]
pub fn a_set_stays_a_set()
    ensures { (rows : List Row) (ps : List Pair) → Ascends rows → Ascends (after rows ps) }
{}

/// A row that is old in no pair stays.
#[tactic(auto, using(crate::proofs::After::old_in_no_pair_stays))]
pub fn old_in_no_pair_stays()
    ensures { (rows : List Row) (ps : List Pair) (row : Row) → Contains rows row → IsOldInNone ps row → Contains (after rows ps) row }
{}

/// After an update stand the rows that are old in no pair, those that are new in some pair, and no others.
pub fn what_stands_after()
    ensures { (rows : List Row) (ps : List Pair) (row : Row)
        → Contains (after rows ps) row ↔ ((Contains rows row × IsOldInNone ps row) ⊎ IsNewInSome ps row) }
{}
