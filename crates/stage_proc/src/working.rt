//! A piece of work of the query processor.

ghost use Rattle.std.specs.Prelude.{◌≡◌, ◌++◌, true, Some, IfErr, IsErrOf, OnOk};
ghost use Rattle.calculus.specs.Database.{Db};
ghost use Rattle.frame_codec.specs.Messages.{is_message_kind, message_frames};
ghost use Rattle.net_core.specs.Crashes.{IsForgotten};
ghost use Rattle.net_core.specs.declared.fault.WorkFault.TheVariants.{OutOfMemory as no_memory};
ghost use Rattle.network_meaning.specs.LocalSteps.{Want.work};
ghost use Rattle.network_meaning.specs.Network.{want};
ghost use Rattle.quel_network.specs.Sorts.{User};
ghost use Rattle.stage_proc.specs.Standing.{HasSettled, IsWorking, standing};
ghost use Rattle.stage_proc.specs.Stopping.{HasWorkCause};
ghost use Rattle.stage_proc.specs.Worked.{HasWorked, MayNotBeWorkedOn};
ghost use Rattle.stage_proc.specs.declared.at.At.TheVariants.{Passing};

use crate::at::At;
use crate::processed::Processed;
use crate::processing::process_and_hand_over;
use crate::processor::Processor;
use base_trait::Base;
use calculus::{List, OutOfMemory};
use frame_codec::Message;
use net_core::WorkFault;
use std::alloc::Global;
use std::mem::replace;

/// The kind of a tree.
const TREE: u8 = 2;

/// The kind of a change.
const CHANGE: u8 = 5;

impl Processor {
    /// A message is to be given to the right, and the reply to it to be passed on.
    fn hand_on(&mut self, kind: u8, bytes: List<u8>) -> Result<(), WorkFault>
        requires { is_message_kind kind ≡ true }
        ensures right { OnOk result (self.new.right ≡ self.old.right ++ message_frames kind bytes) }
        ensures at { OnOk result (self.new.at ≡ Passing) }
        ensures memory { IfErr result (λ fault. fault ≡ no_memory) }
        ensures left { self.new.left ≡ self.old.left }
        ensures got { self.new.got ≡ self.old.got }
        ensures same { self.new.user ≡ self.old.user }
    {
        match self.right.put(Message { kind, bytes }) {
            Ok(()) => {
                self.at = At::Passing;
                Ok(())
            }
            Err(OutOfMemory) => Err(WorkFault::OutOfMemory),
        }
    }

    /// What the tree came to is to be given.
    fn settle(&mut self, made: Processed) -> Result<(), WorkFault>
        requires { IsWorking self.old.at }
        ensures settled { OnOk result (HasSettled self.old.at self.old.left self.old.right made self.new.at self.new.left self.new.right) }
        ensures memory { IfErr result (λ fault. fault ≡ no_memory) }
        ensures got { self.new.got ≡ self.old.got }
        ensures same { self.new.user ≡ self.old.user }
    {
        match made {
            Processed::Shows(frames) => {
                self.left = frames;
                self.at = At::Idle;
                Ok(())
            }
            Processed::Changes(bytes) => self.hand_on(CHANGE, bytes),
            Processed::HandsOn => {
                let here = replace(&mut self.at, At::Idle);
                self.hand_on(TREE, here.into_bytes())
            }
        }
    }

    /// Works on the tree: what it comes to is to be given then, and the base is handed over. The base is
    /// asked and not changed.
    pub(crate) fn work_on<B: Base>(&mut self, alloc: Global, base: &mut B) -> Result<(), WorkFault>
        requires { want (standing self.old.at self.old.got self.old.left self.old.right) ≡ work }
        ensures works { (user : User) → user.asker.user ≡ self.old.user → OnOk result (HasWorked user (standing self.old.at self.old.got self.old.left self.old.right) (standing self.new.at self.new.got self.new.left self.new.right) (B.database base.old)) }
        ensures unlawful { (user : User) → user.asker.user ≡ self.old.user → IsErrOf result WorkFault.Unlawful → MayNotBeWorkedOn user (standing self.old.at self.old.got self.old.left self.old.right) (B.database base.old) }
        ensures kept { B.database base.new ≡ B.database base.old }
        ensures asked { (b : B) → B.asked b base.old → B.asked b base.new }
        ensures handed { OnOk result (IsForgotten (B.schema base.new) (B.database base.new)) }
        ensures cause { HasWorkCause (B.database base.old) (B.faults base.old) (B.faults base.new) result }
        ensures same { self.new.user ≡ self.old.user }
    {
        match process_and_hand_over(alloc, self.at.tree(), &self.user, base) {
            Ok(made) => self.settle(made),
            Err(fault) => Err(fault),
        }
    }
}
