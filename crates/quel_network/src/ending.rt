//! The stages come to an end.

ghost use Rattle.std.specs.Prelude.{◌<◌, false};
ghost use Rattle.network_meaning.specs.MessageNetwork.{StageNumber};
ghost use Rattle.network_meaning.specs.Network.{Network, Orderly, StepsUnlessBlocked};
ghost use Rattle.network_meaning.specs.WorkLeft.{WorkLaws, work_left};
ghost use Rattle.quel_network.specs.Quel.{quel};
ghost use Rattle.quel_network.specs.Sorts.{User, quel_sorts};
ghost use Rattle.quel_network.specs.Work.{quel_work};

/// The work that is left of a session is a number: each next statement of a batch and each next read of
/// a script leave less of it, and so does each step of an orderly network that isn't blocked.
pub fn each_step_leaves_less_work()
    ensures laws { (user : User) → WorkLaws (quel user) (quel_work user) }
    ensures steps { (user : User) (k : StageNumber) (old new : Network quel_sorts) → Orderly (quel user) old → StepsUnlessBlocked (quel user) k old new false
        → work_left (quel user) (quel_work user) new < work_left (quel user) (quel_work user) old }
{}
