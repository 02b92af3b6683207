//! What holds of a network whose room is not told.

ghost use Rattle.frame_codec.specs.declared.frame.Frame.{Frame};
ghost use Rattle.std.specs.Prelude.{◌≡◌, ◌≤◌, ◌⊎◌, ℕ, Bool, List, Some};
ghost use Rattle.network_meaning.specs.Calls.{Moves, RunsTurns, Seen, Shape, join};
ghost use Rattle.network_meaning.specs.Going.{AllEnded, SomeGoes};
ghost use Rattle.network_meaning.specs.Lawful.{FitWork, Lawful, comes};
ghost use Rattle.network_meaning.specs.LocalSteps.{Act, Mode, Room, Works};
ghost use Rattle.network_meaning.specs.MessageNetwork.{StageNumber};
ghost use Rattle.network_meaning.specs.Network.{Network, NetworkStep, Orderly, StepsUnlessBlockedBy, as_messages, between, is_stuck, start};
ghost use Rattle.network_meaning.specs.OrderlyShape.{OrderlyShape, shape_of};
ghost use Rattle.network_meaning.specs.Sorts.{Sorts};
ghost use Rattle.network_meaning.specs.Turn.{also, has_turn, turns, turns_behind, worker};
ghost use Rattle.network_meaning.specs.WorkShape.{WorkShape, WorksInShape};

use crate::Spoken;

/// The shape of a network, all of it but the room, is orderly at the start, where the network is, and
/// behind each step in which a piece of work has its shape, whatever the room is; and so over a list of
/// steps. In each room, then, some stage isn't blocked, unless all four have ended; the turn is in one
/// place; and each frame that comes to a stage is lawful for it.
pub fn order_needs_no_room<T: Spoken>()
    ensures start { (user : T.User) (m : T.sorts.Monitor) (ranges : T.sorts.Ranges) (room : Room T.sorts) → OrderlyShape (T.language user) (shape_of (start m ranges room)) }
    ensures orderly { (user : T.User) (n : Network T.sorts) → Orderly (T.language user) n → OrderlyShape (T.language user) (shape_of n) }
    ensures step { (user : T.User) (capacity : ℕ) (k : StageNumber) (blocked : Bool) (old new : Seen T.sorts) → OrderlyShape (T.language user) old.shape → Moves (T.language user) capacity k blocked old new
        → OrderlyShape (T.language user) new.shape }
    ensures turns { (user : T.User) (capacity : ℕ) (turns : List ℕ) (old new : Seen T.sorts) → OrderlyShape (T.language user) old.shape → RunsTurns (T.language user) capacity turns old new
        → OrderlyShape (T.language user) new.shape }
    ensures goes { (user : T.User) (capacity : ℕ) (shape : Shape T.sorts) (room : Room T.sorts) → 1 ≤ capacity → OrderlyShape (T.language user) shape → SomeGoes capacity (join shape room) ⊎ AllEnded (join shape room) }
    ensures one { (user : T.User) (shape : Shape T.sorts) (room : Room T.sorts) → OrderlyShape (T.language user) shape → turns (as_messages (T.language user) (join shape room)) ≡ 1 }
    ensures takes { (user : T.User) (k : StageNumber) (shape : Shape T.sorts) (room : Room T.sorts) (frame : Frame) → OrderlyShape (T.language user) shape → comes (between (join shape room) k) ≡ Some frame
        → Lawful (T.language user) (between (join shape room) k).stage frame }
{}

/// What the network works on what is fit has the shape of its mode: which mode follows, which messages are
/// given in which order and to which side, each of them spelled, and rows that fit their heads. So a step
/// of an orderly network is one in which work has its shape, in each room: where a room is known, nothing is
/// asked beside the network's step. Work of its shape leaves the turn in one place, where it had it: at the
/// stage, or in one of the messages that it gives.
pub fn acts_have_their_shape<T: Spoken>()
    ensures works { (user : T.User) (mode : Mode T.sorts) (room new : Room T.sorts) (act : Act T.sorts) → FitWork (T.language user) mode room.db → Works (T.language user) mode room act new
        → WorkShape (T.language user) mode act }
    ensures turn { (user : T.User) (mode : Mode T.sorts) (act : Act T.sorts) → WorkShape (T.language user) mode act → turns_behind (worker mode) act ≡ also (has_turn (worker mode) mode) 0 }
    ensures step { (user : T.User) (capacity : ℕ) (k : StageNumber) (n new : Network T.sorts) (room : Room T.sorts) → Orderly (T.language user) n → NetworkStep (T.language user) capacity k n new
        → StepsUnlessBlockedBy (WorksInShape (T.language user)) (T.language user) k (join (shape_of n) room) (join (shape_of new) room) (is_stuck capacity k n) }
{}
