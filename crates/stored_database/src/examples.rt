//! Small databases on disk, and what their pages stand for, computed.

ghost use Rattle.stored_database.specs.Tried.{LongView, Permits, TwoHeaps};

/// Two heaps, as they are made and with one byte changed.
#[tactic(auto, using(crate::proofs::Tried::two_heaps))]
pub fn pages_stand_for_two_heaps()
    ensures { TwoHeaps }
{}

/// A database with an index, rules and permits, also as a batch that waits.
#[tactic(auto, using(crate::proofs::Tried::permits))]
pub fn pages_stand_for_permits()
    ensures { Permits }
{}

/// A view whose tree has two parts.
#[tactic(auto, using(crate::proofs::Tried::long_view))]
pub fn pages_stand_for_a_long_view()
    ensures { LongView }
{}
