//! The fourth stage.

ghost use Rattle.std.specs.Prelude.{◌≡◌};
ghost use Rattle.calculus.specs.Who.{asker_of};
ghost use Rattle.network_meaning.specs.LocalSteps.{Mode.idle4};
ghost use Rattle.network_meaning.specs.Network.{quiet_at};
ghost use Rattle.quel_network.specs.Sorts.{User};

use crate::at::{At, at_taking};
use crate::carrying::carry_out;
use base_trait::Base;
use calculus::Name;
use fault_io::{Shelf, Sink, Source};
use frame_codec::Frame;
use memory::OutOfMemory;
use message_codec::{Came, Gathered, Outgoing};
use net_core::{Room, Stage, TakeFault, Want, WorkFault};
use std::alloc::Global;

/// The utilities: they lay changes, and do the work that their user asks them for.
pub struct Utilities {
    user: Name,
    at: At,
    got: Gathered,
    out: Outgoing,
}

impl Drop for Utilities {
    fn drop(self) {
        let Self {
            user: _,
            at: _,
            got: _,
            out: _,
        } = self;
    }
}

impl Utilities {
    /// The utilities of a user, with nothing to carry out.
    pub fn new(alloc: Global, user: Name) -> Utilities
        ensures state { ⟦<Utilities as Stage>⟧.state result ≡ quiet_at idle4 }
        ensures serves { (whom : User) → whom.asker ≡ asker_of user → ⟦<Utilities as Stage>⟧.serves result whom }
        ensures place { ⟦<Utilities as Stage>⟧.place result ≡ 4 }
        ensures heard { ⟦<Utilities as Stage>⟧.heard result ≡ 0 }
    {
        Utilities {
            user,
            at: At::Idle,
            got: Gathered::new(alloc),
            out: Outgoing::new(alloc),
        }
    }
}

impl Stage for Utilities {
    ghost use Rattle.stage_util.specs.Standing.{Serves, standing};

    ghost state = { λ s. standing s.at s.got s.out };

    ghost serves = { λ s user. Serves s.user s.at user };

    ghost place = { λ _. 4 };

    ghost heard = { λ _. 0 };

    fn number(&self) -> u8 {
        4
    }

    fn want(&self) -> Want {
        if !self.out.is_empty() {
            return Want::GiveLeft;
        }
        match &self.at {
            At::Idle => Want::TakeLeft,
            At::Tree(_) => Want::Work,
            At::Change(_) => Want::Work,
            At::Ended => Want::Ended,
        }
    }

    fn take(&mut self, alloc: Global, frame: Frame) -> Result<(), TakeFault> {
        match self.got.read(alloc, &frame)? {
            Came::Part => {
                self.got.push(frame)?;
                Ok(())
            }
            Came::Whole(told) => match at_taking(told) {
                Some(at) => {
                    self.at = at;
                    self.got.clear();
                    Ok(())
                }
                None => Err(TakeFault::Unlawful),
            },
            Came::Unlawful => Err(TakeFault::Unlawful),
        }
    }

    fn give(&mut self, _alloc: Global) -> Result<Frame, OutOfMemory> {
        self.out.give()
    }

    fn work<B: Base, H: Shelf, S: Source, K: Sink>(
        &mut self,
        alloc: Global,
        room: &mut Room<B, H, S, K>,
    ) -> Result<(), WorkFault> {
        let mut out = Outgoing::new(alloc);
        match carry_out(
            alloc,
            &mut room.base,
            &mut room.shelf,
            &self.user,
            &self.at,
            &mut out,
        ) {
            Ok(_answer) => {
                self.at = At::Idle;
                self.out = out;
                Ok(())
            }
            Err(fault) => Err(fault),
        }
    }
}
