//! That nothing unlawful comes in a network of four stages, whatever language they speak.

ghost use Rattle.frame_codec.specs.declared.frame.Frame.{Frame};
ghost use Rattle.std.specs.Prelude.{◌≡◌, ◌≤◌, ◌∷◌, true, List, Some, length};
ghost use Rattle.network_meaning.specs.Frames.{may_be_cut, whole};
ghost use Rattle.network_meaning.specs.Lawful.{FitWork, Lawful, comes};
ghost use Rattle.network_meaning.specs.MessageNetwork.{StageNumber};
ghost use Rattle.network_meaning.specs.Network.{Network, Orderly, between};
ghost use Rattle.network_meaning.specs.Sorts.{Message, Sorts};

use crate::Spoken;

/// In an orderly network each frame that comes to a stage is lawful for it, and what a stage works on is
/// fit for the present database. Whatever comes, a message that begins with as many bytes as a More frame
/// has is no reply, end or quit: these are one frame each.
pub fn nothing_unlawful_comes<T: Spoken>()
    ensures takes { (user : T.User) (k : StageNumber) (n : Network T.sorts) (frame : Frame) → Orderly (T.language user) n → comes (between n k) ≡ Some frame
        → Lawful (T.language user) (between n k).stage frame }
    ensures long { (user : T.User) (first : Frame) (later : List Frame) (m : Message T.sorts) → 4096 ≤ length first.payload → whole (T.language user) (first ∷ later) ≡ Some m → may_be_cut m ≡ true }
    ensures works { (user : T.User) (k : StageNumber) (n : Network T.sorts) → Orderly (T.language user) n → FitWork (T.language user) (between n k).stage.mode n.room.db }
{}
