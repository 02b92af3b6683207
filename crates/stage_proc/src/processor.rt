//! The query processor as the third stage.

ghost use Rattle.std.specs.Prelude.{◌≡◌};
ghost use Rattle.calculus.specs.Who.{asker_of};
ghost use Rattle.network_meaning.specs.LocalSteps.{Mode.idle3};
ghost use Rattle.network_meaning.specs.Network.{quiet_at};
ghost use Rattle.quel_network.specs.Sorts.{User};

use crate::at::At;
use base_trait::Base;
use calculus::Name;
use fault_io::{Shelf, Sink, Source};
use frame_codec::Frame;
use memory::OutOfMemory;
use message_codec::{Gathered, Outgoing};
use net_core::{Room, Stage, TakeFault, Want, WorkFault};
use std::alloc::Global;

/// The query processor: it answers queries, has the change of an update made, and hands on what the
/// utilities are asked for.
pub struct Processor {
    pub(crate) user: Name,
    pub(crate) at: At,
    pub(crate) got: Gathered,
    pub(crate) left: Outgoing,
    pub(crate) right: Outgoing,
}

impl Drop for Processor {
    fn drop(self) {
        let Self {
            user: _,
            at: _,
            got: _,
            left: _,
            right: _,
        } = self;
    }
}

impl Processor {
    /// The query processor of a user, which waits for a tree. Takes no memory.
    pub fn new(alloc: Global, user: Name) -> Processor
        ensures state { ⟦<Processor as Stage>⟧.state result ≡ quiet_at idle3 }
        ensures serves { (whom : User) → whom.asker ≡ asker_of user → ⟦<Processor as Stage>⟧.serves result whom }
        ensures place { ⟦<Processor as Stage>⟧.place result ≡ 3 }
        ensures heard { ⟦<Processor as Stage>⟧.heard result ≡ 0 }
    {
        Processor {
            user,
            at: At::Idle,
            got: Gathered::new(alloc),
            left: Outgoing::new(alloc),
            right: Outgoing::new(alloc),
        }
    }
}

impl Stage for Processor {
    ghost use Rattle.std.specs.Prelude.{◌≡◌};
    ghost use Rattle.stage_proc.specs.Standing.{standing};

    ghost state = { λ s. standing s.at s.got s.left s.right };

    ghost serves = { λ s whom. whom.asker.user ≡ s.user };

    ghost place = { λ _. 3 };

    ghost heard = { λ _. 0 };

    fn number(&self) -> u8 {
        3
    }

    fn want(&self) -> Want {
        if !self.left.is_empty() {
            return Want::GiveLeft;
        }
        if !self.right.is_empty() {
            return Want::GiveRight;
        }
        match &self.at {
            At::Idle => Want::TakeLeft,
            At::Working(_) => Want::Work,
            At::Passing => Want::TakeRight,
            At::Ended => Want::Ended,
        }
    }

    fn take(&mut self, alloc: Global, frame: Frame) -> Result<(), TakeFault> {
        match self.want() {
            Want::TakeLeft => self.take_tree(alloc, frame),
            Want::TakeRight => self.take_reply(alloc, frame),
            _ => unreachable!(),
        }
    }

    fn give(&mut self, _alloc: Global) -> Result<Frame, OutOfMemory> {
        if self.left.is_empty() {
            return self.right.give();
        }
        self.left.give()
    }

    fn work<B: Base, H: Shelf, S: Source, K: Sink>(
        &mut self,
        alloc: Global,
        room: &mut Room<B, H, S, K>,
    ) -> Result<(), WorkFault> {
        self.work_on(alloc, &mut room.base)
    }
}
