// A fourth stage that serves everyone: it carries out one change, answers that this is done, and takes nothing more.
ghost use Rattle.std.specs.Prelude.{◌≡◌};
ghost use Rattle.base_trait.specs.Causes.{HasCause};
ghost use Rattle.net_tests.specs.Carrying.{CarriedOut, of_base};

use base_trait::{Base, BaseFault};
use calculus::DbChange;
use fault_io::{Shelf, Sink, Source};
use frame_codec::Frame;
use memory::{List, OutOfMemory};
use net_core::{Room, Stage, TakeFault, Want, WorkFault};
use std::alloc::Global;

/// Where the carrier stands.
#[derive(Clone, Copy)]
pub(crate) enum Stand {
    /// It has a change to carry out.
    Holds,
    /// It has to answer that it was carried out.
    Answers,
    /// It has answered.
    Rests,
}

/// A fourth stage that was given a change to carry out: that no relation goes, which any database takes.
pub(crate) struct Carrier {
    stand: Stand,
}

impl Drop for Carrier {
    fn drop(self) {
        let Self { stand: _ } = self;
    }
}

impl Carrier {
    /// A carrier that holds the change.
    pub(crate) fn new() -> Carrier {
        Carrier {
            stand: Stand::Holds,
        }
    }
}

/// The fault of a call of the database, as one of a piece of work.
fn of_base(fault: BaseFault) -> WorkFault
    ensures { result ≡ of_base fault }
{
    match fault {
        BaseFault::Disk => WorkFault::Disk,
        BaseFault::Damaged { file, page } => WorkFault::Damaged { file, page },
        BaseFault::OutOfMemory => WorkFault::OutOfMemory,
    }
}

/// Carries the change out, and hands the database over.
fn carry_out<B: Base>(alloc: Global, base: &mut B) -> Result<(), WorkFault>
    ensures done { CarriedOut (B.database base.old) (B.database base.new) (B.schema base.new) (B.faults base.old) (B.faults base.new) (B.clock base.old) (B.clock base.new) (B.left_since base.old) (B.left_since base.new) result }
{
    let change = DbChange::Destroy {
        rels: List::of(Vec::new(alloc)),
    };
    match base.apply(alloc, &change) {
        Ok(()) => {
            base.hand_over();
            Ok(())
        }
        Err(fault) => Err(of_base(fault)),
    }
}

impl Stage for Carrier {
    ghost use Rattle.std.specs.Prelude.{⊤};
    ghost use Rattle.net_tests.specs.Carrying.{carrying};

    ghost state = { λ s. carrying s.stand };

    ghost serves = { λ _ _. ⊤ };

    ghost place = { λ _. 4 };

    ghost heard = { λ _. 0 };

    fn number(&self) -> u8 {
        4
    }

    fn want(&self) -> Want {
        match self.stand {
            Stand::Holds => Want::Work,
            Stand::Answers => Want::GiveLeft,
            Stand::Rests => Want::TakeLeft,
        }
    }

    fn take(&mut self, _alloc: Global, _frame: Frame) -> Result<(), TakeFault> {
        Err(TakeFault::OutOfMemory)
    }

    fn give(&mut self, alloc: Global) -> Result<Frame, OutOfMemory> {
        self.stand = Stand::Rests;
        Ok(Frame {
            kind: 8,
            payload: List::of(Vec::new(alloc)),
        })
    }

    fn work<B: Base, H: Shelf, S: Source, K: Sink>(
        &mut self,
        alloc: Global,
        room: &mut Room<B, H, S, K>,
    ) -> Result<(), WorkFault> {
        match carry_out(alloc, &mut room.base) {
            Ok(()) => {
                self.stand = Stand::Answers;
                Ok(())
            }
            Err(fault) => Err(fault),
        }
    }
}
