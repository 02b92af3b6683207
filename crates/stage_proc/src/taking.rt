//! Trees that the query processor takes, and replies that it passes on.

ghost use Rattle.std.specs.Prelude.{◌≡◌, ◌++◌, [], OnErr, OnOk, IsErrOf};
ghost use Rattle.frame_codec.specs.Messages.{message_frames};
ghost use Rattle.message_codec.specs.Coming.{HasCome};
ghost use Rattle.message_codec.specs.declared.gathered.Came.TheVariants as came;
ghost use Rattle.message_codec.specs.declared.messages.StageMessage.TheVariants as stage;
ghost use Rattle.net_core.specs.Causes.{MayNotTake};
ghost use Rattle.network_meaning.specs.Calls.{Taken};
ghost use Rattle.network_meaning.specs.Frames.{payloads};
ghost use Rattle.network_meaning.specs.LocalSteps.{Want.take_left, Want.take_right};
ghost use Rattle.network_meaning.specs.Network.{want};
ghost use Rattle.quel_network.specs.Quel.{quel};
ghost use Rattle.quel_network.specs.Sorts.{User};
ghost use Rattle.stage_proc.specs.Standing.{standing};
ghost use Rattle.stage_proc.specs.Taking.{IsWhole, is_reply};

use crate::at::At;
use crate::held::HeldTree;
use crate::processor::Processor;
use calculus::{Boxed, Checked};
use frame_codec::{Frame, Message};
use memory::OutOfMemory;
use message_codec::{Came, Gathered, Outgoing, StageMessage};
use net_core::TakeFault;
use std::alloc::Global;

/// Whether the message is a reply.
fn is_reply(message: &StageMessage) -> bool
    ensures { result ≡ is_reply message.now }
{
    match message {
        StageMessage::Refused(_) => true,
        StageMessage::Done => true,
        StageMessage::Text(_) => false,
        StageMessage::Tree(_) => false,
        StageMessage::Head(_) => false,
        StageMessage::Row(_) => false,
        StageMessage::Change(_) => false,
        StageMessage::End => false,
        StageMessage::Quit => false,
    }
}

/// Passes a message on as it came, whose last frame this is, behind those that came before.
fn pass_on(
    alloc: Global,
    got: &Gathered,
    frame: Frame,
    out: &mut Outgoing,
) -> Result<(), OutOfMemory>
    requires { IsWhole got.now frame }
    ensures ok { OnOk result (out.new ≡ out.old ++ message_frames frame.kind (payloads got.now ++ frame.payload)) }
    ensures err { OnErr result (out.new ≡ out.old) }
{
    match got.pass(alloc, frame) {
        Ok(message) => out.put(message),
        Err(error) => Err(error),
    }
}

impl Processor {
    /// Takes a tree whose last frame this is, with its bytes as they came.
    fn hold(&mut self, alloc: Global, tree: Boxed<Checked>, frame: Frame) -> Result<(), TakeFault>
        requires waits { want (standing self.old.at self.old.got self.old.left self.old.right) ≡ take_left }
        requires came { HasCome self.old.got frame (came.Whole (stage.Tree tree)) }
        ensures taken { (user : User) → OnOk result (Taken (quel user) (standing self.old.at self.old.got self.old.left self.old.right) frame (standing self.new.at self.new.got self.new.left self.new.right)) }
        ensures lawful { IsErrOf result TakeFault.Unlawful → ⊥ }
        ensures kept { OnErr result (standing self.new.at self.new.got self.new.left self.new.right ≡ standing self.old.at self.old.got self.old.left self.old.right) }
        ensures same { self.new.user ≡ self.old.user }
    {
        match self.got.pass(alloc, frame) {
            Ok(message) => {
                let Message { kind: _, bytes } = message;
                self.got.clear();
                self.at = At::Working(HeldTree::of(tree, bytes));
                Ok(())
            }
            Err(OutOfMemory) => Err(TakeFault::OutOfMemory),
        }
    }

    /// Takes the end of all, whose frame this is, and passes it on.
    fn leave(&mut self, alloc: Global, frame: Frame) -> Result<(), TakeFault>
        requires waits { want (standing self.old.at self.old.got self.old.left self.old.right) ≡ take_left }
        requires came { HasCome self.old.got frame (came.Whole stage.Quit) }
        ensures taken { (user : User) → OnOk result (Taken (quel user) (standing self.old.at self.old.got self.old.left self.old.right) frame (standing self.new.at self.new.got self.new.left self.new.right)) }
        ensures lawful { IsErrOf result TakeFault.Unlawful → ⊥ }
        ensures kept { OnErr result (standing self.new.at self.new.got self.new.left self.new.right ≡ standing self.old.at self.old.got self.old.left self.old.right) }
        ensures same { self.new.user ≡ self.old.user }
    {
        match pass_on(alloc, &self.got, frame, &mut self.right) {
            Ok(()) => {
                self.got.clear();
                self.at = At::Ended;
                Ok(())
            }
            Err(OutOfMemory) => Err(TakeFault::OutOfMemory),
        }
    }

    /// Takes a message from the left, whose last frame this is: a tree, or the end of all.
    fn take_whole(
        &mut self,
        alloc: Global,
        message: StageMessage,
        frame: Frame,
    ) -> Result<(), TakeFault>
        requires waits { want (standing self.old.at self.old.got self.old.left self.old.right) ≡ take_left }
        requires came { HasCome self.old.got frame (came.Whole message) }
        ensures taken { (user : User) → OnOk result (Taken (quel user) (standing self.old.at self.old.got self.old.left self.old.right) frame (standing self.new.at self.new.got self.new.left self.new.right)) }
        ensures unlawful { (user : User) → IsErrOf result TakeFault.Unlawful → MayNotTake (quel user) (standing self.old.at self.old.got self.old.left self.old.right) frame }
        ensures kept { OnErr result (standing self.new.at self.new.got self.new.left self.new.right ≡ standing self.old.at self.old.got self.old.left self.old.right) }
        ensures same { self.new.user ≡ self.old.user }
    {
        match message {
            StageMessage::Tree(tree) => self.hold(alloc, tree, frame),
            StageMessage::Quit => self.leave(alloc, frame),
            _ => Err(TakeFault::Unlawful),
        }
    }

    /// Takes a frame from the left.
    pub(crate) fn take_tree(&mut self, alloc: Global, frame: Frame) -> Result<(), TakeFault>
        requires { want (standing self.old.at self.old.got self.old.left self.old.right) ≡ take_left }
        ensures taken { (user : User) → OnOk result (Taken (quel user) (standing self.old.at self.old.got self.old.left self.old.right) frame (standing self.new.at self.new.got self.new.left self.new.right)) }
        ensures unlawful { (user : User) → IsErrOf result TakeFault.Unlawful → MayNotTake (quel user) (standing self.old.at self.old.got self.old.left self.old.right) frame }
        ensures kept { OnErr result (standing self.new.at self.new.got self.new.left self.new.right ≡ standing self.old.at self.old.got self.old.left self.old.right) }
        ensures same { self.new.user ≡ self.old.user }
    {
        match self.got.read(alloc, &frame)? {
            Came::Part => {
                self.got.push(frame)?;
                Ok(())
            }
            Came::Whole(message) => self.take_whole(alloc, message, frame),
            Came::Unlawful => Err(TakeFault::Unlawful),
        }
    }

    /// Passes a reply on, whose frame this is, and waits for the next tree.
    fn pass_reply(
        &mut self,
        alloc: Global,
        none: &Gathered,
        message: StageMessage,
        frame: Frame,
    ) -> Result<(), TakeFault>
        requires waits { want (standing self.old.at self.old.got self.old.left self.old.right) ≡ take_right }
        requires nothing { none.now ≡ [] }
        requires came { HasCome none.now frame (came.Whole message) }
        ensures taken { (user : User) → OnOk result (Taken (quel user) (standing self.old.at self.old.got self.old.left self.old.right) frame (standing self.new.at self.new.got self.new.left self.new.right)) }
        ensures unlawful { (user : User) → IsErrOf result TakeFault.Unlawful → MayNotTake (quel user) (standing self.old.at self.old.got self.old.left self.old.right) frame }
        ensures kept { OnErr result (standing self.new.at self.new.got self.new.left self.new.right ≡ standing self.old.at self.old.got self.old.left self.old.right) }
        ensures same { self.new.user ≡ self.old.user }
    {
        let may_come = is_reply(&message);
        drop(message);
        if !may_come {
            return Err(TakeFault::Unlawful);
        }
        match pass_on(alloc, none, frame, &mut self.left) {
            Ok(()) => {
                self.at = At::Idle;
                Ok(())
            }
            Err(OutOfMemory) => Err(TakeFault::OutOfMemory),
        }
    }

    /// Takes a frame from the right, which has to be a reply.
    pub(crate) fn take_reply(&mut self, alloc: Global, frame: Frame) -> Result<(), TakeFault>
        requires { want (standing self.old.at self.old.got self.old.left self.old.right) ≡ take_right }
        ensures taken { (user : User) → OnOk result (Taken (quel user) (standing self.old.at self.old.got self.old.left self.old.right) frame (standing self.new.at self.new.got self.new.left self.new.right)) }
        ensures unlawful { (user : User) → IsErrOf result TakeFault.Unlawful → MayNotTake (quel user) (standing self.old.at self.old.got self.old.left self.old.right) frame }
        ensures kept { OnErr result (standing self.new.at self.new.got self.new.left self.new.right ≡ standing self.old.at self.old.got self.old.left self.old.right) }
        ensures same { self.new.user ≡ self.old.user }
    {
        let none = Gathered::new(alloc);
        match none.read(alloc, &frame)? {
            Came::Whole(message) => self.pass_reply(alloc, &none, message, frame),
            Came::Part => Err(TakeFault::Unlawful),
            Came::Unlawful => Err(TakeFault::Unlawful),
        }
    }
}
