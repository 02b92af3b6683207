//! What the parser gives, and where it stands then.

ghost use Rattle.std.specs.Prelude.{◌≡◌, ◌++◌, [], true, IfOk, OnErr, OnOk};
ghost use Rattle.base_trait.specs.Causes.{HasCause};
ghost use Rattle.frame_codec.specs.Messages.{is_message_kind, message_frames};
ghost use Rattle.network_meaning.specs.Frames.{payloads};
ghost use Rattle.network_meaning.specs.Sorts.{Message.end};
ghost use Rattle.stage_parse.specs.Judging.{IsShaped, left_frames, right_frames};
ghost use Rattle.stage_parse.specs.Parsing.{Gives, at_behind};
ghost use Rattle.stage_parse.specs.Standing.{IsHanded};
ghost use Rattle.stage_parse.specs.declared.at.At.TheVariants.{Idle, Parsing};

use crate::at::At;
use crate::judged::Judged;
use crate::walk::Walk;
use base_trait::{Base, BaseFault};
use frame_codec::{Frame, Message};
use memory::OutOfMemory;
use message_codec::{Gathered, Outgoing, end_message};
use std::alloc::Global;

/// A message from the right whose last frame this is, given to the left as it came.
pub(crate) fn pass(
    alloc: Global,
    got: &mut Gathered,
    out: &mut Outgoing,
    frame: Frame,
) -> Result<(), OutOfMemory>
    requires { is_message_kind frame.kind ≡ true }
    ensures got { OnOk result (got.new ≡ []) }
    ensures out { OnOk result (out.new ≡ out.old ++ message_frames frame.kind (payloads got.old ++ frame.payload)) }
    ensures got_same { OnErr result (got.new ≡ got.old) }
    ensures out_same { OnErr result (out.new ≡ out.old) }
{
    let message = got.pass(alloc, frame)?;
    out.put(message)?;
    got.clear();
    Ok(())
}

/// The end of a batch is given to the left, and with it the turn: the base is handed over.
pub(crate) fn give_end<B: Base>(
    alloc: Global,
    base: &mut B,
    at: &mut At,
    walk: &mut Walk,
    out: &mut Outgoing,
) -> Result<(), BaseFault>
    ensures at { OnOk result (at.new ≡ Idle) }
    ensures out { OnOk result (Gives end out.old out.new) }
    ensures handed { OnOk result (IsHanded at.new (B.schema base.new) (B.database base.new)) }
    ensures kept { B.database base.new ≡ B.database base.old }
    ensures asked { (b : B) → B.asked b base.old → B.asked b base.new }
    ensures cause { HasCause (B.database base.old) (B.faults base.old) (B.faults base.new) result }
{
    out.put(end_message(alloc))?;
    *at = At::Idle;
    *walk = Walk::none(alloc);
    base.hand_over();
    Ok(())
}

/// What came of a statement of this line is given: a refusal to the left, a tree to the right, and with
/// the tree the turn: the base is handed over.
pub(crate) fn give_judged<B: Base>(
    base: &mut B,
    at: &mut At,
    left: &mut Outgoing,
    right: &mut Outgoing,
    judged: Judged,
    line: u32,
) -> Result<(), BaseFault>
    requires parsing { at.old ≡ Parsing }
    requires shaped { IsShaped line judged }
    ensures at { OnOk result (at.new ≡ at_behind line judged) }
    ensures left { OnOk result (left.new ≡ left.old ++ left_frames judged) }
    ensures right { OnOk result (right.new ≡ right.old ++ right_frames judged) }
    ensures handed { OnOk result (IsHanded at.new (B.schema base.new) (B.database base.new)) }
    ensures kept { B.database base.new ≡ B.database base.old }
    ensures asked { (b : B) → B.asked b base.old → B.asked b base.new }
    ensures cause { HasCause (B.database base.old) (B.faults base.old) (B.faults base.new) result }
{
    match judged {
        Judged::Declared => Ok(()),
        Judged::Refused(message) => {
            left.put(message)?;
            Ok(())
        }
        Judged::Asks(message) => {
            right.put(message)?;
            *at = At::Passing(line);
            base.hand_over();
            Ok(())
        }
    }
}
