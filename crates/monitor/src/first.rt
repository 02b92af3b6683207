//! The first stage.

ghost use Rattle.std.specs.Prelude.{◌≡◌};
ghost use Rattle.network_meaning.specs.LocalSteps.{Mode.reading};
ghost use Rattle.network_meaning.specs.Network.{quiet_at};
ghost use Rattle.quel_network.specs.Sorts.{User, first_monitor};

use crate::at::At;
use crate::printing::print;
use crate::reader::Reader;
use crate::working::{give_turn, read};
use base_trait::Base;
use calculus::OutOfMemory;
use fault_io::{Shelf, Sink, Source};
use frame_codec::Frame;
use message_codec::{Came, Gathered, Outgoing};
use net_core::{Room, Stage, TakeFault, Want, WorkFault};
use std::alloc::Global;

/// The monitor. It keeps no bytes of the script: what it has read is handled, or is what is left of the
/// present line.
pub struct Monitor {
    reader: Reader,
    heard: usize,
    at: At,
    got: Gathered,
    out: Outgoing,
}

impl Drop for Monitor {
    fn drop(self) {
        let Self {
            reader: _,
            heard: _,
            at: _,
            got: _,
            out: _,
        } = self;
    }
}

impl Monitor {
    /// The monitor at the start of a script. It serves everyone.
    pub fn new(alloc: Global) -> Monitor
        ensures state { ⟦<Monitor as Stage>⟧.state result ≡ quiet_at (reading first_monitor) }
        ensures serves { (user : User) → ⟦<Monitor as Stage>⟧.serves result user }
        ensures number { ⟦<Monitor as Stage>⟧.place result ≡ 1 }
        ensures heard { ⟦<Monitor as Stage>⟧.heard result ≡ 0 }
    {
        Monitor {
            reader: Reader::new(alloc),
            heard: 0,
            at: At::Reading,
            got: Gathered::new(alloc),
            out: Outgoing::new(alloc),
        }
    }
}

impl Stage for Monitor {
    ghost use Rattle.monitor.specs.Standing.{IsDueAt, standing};

    ghost state = { λ s. standing s.reader s.at s.got s.out };

    ghost serves = { λ s _. IsDueAt s.at };

    ghost place = { λ _. 1 };

    ghost heard = { λ s. s.heard };

    fn number(&self) -> u8 {
        1
    }

    fn want(&self) -> Want {
        if !self.out.is_empty() {
            return Want::GiveRight;
        }
        match &self.at {
            At::Reading => Want::Work,
            At::Waiting(_) => Want::TakeRight,
            At::Printing(_, _) => Want::Work,
            At::Ended => Want::Ended,
        }
    }

    fn take(&mut self, alloc: Global, frame: Frame) -> Result<(), TakeFault> {
        let came = self.got.read(alloc, &frame)?;
        match came {
            Came::Part => {
                self.got.push(frame)?;
                Ok(())
            }
            Came::Unlawful => Err(TakeFault::Unlawful),
            Came::Whole(said) => {
                if !self.at.is_due(&said) {
                    return Err(TakeFault::Unlawful);
                }
                self.at.takes(said);
                self.got.clear();
                Ok(())
            }
        }
    }

    fn give(&mut self, _alloc: Global) -> Result<Frame, OutOfMemory> {
        self.out.give()
    }

    fn work<B: Base, H: Shelf, S: Source, K: Sink>(
        &mut self,
        alloc: Global,
        room: &mut Room<B, H, S, K>,
    ) -> Result<(), WorkFault> {
        match &self.at {
            At::Printing(begun, said) => {
                print(alloc, begun, said, &mut room.sink)?;
                self.at.printed();
                Ok(())
            }
            At::Reading => {
                read(
                    alloc,
                    &mut self.reader,
                    &mut self.heard,
                    &mut self.at,
                    &mut self.out,
                    &mut room.shelf,
                    &mut room.source,
                    &mut room.sink,
                )?;
                give_turn(&self.at, &mut room.base);
                Ok(())
            }
            At::Waiting(_) => unreachable!(),
            At::Ended => unreachable!(),
        }
    }
}
