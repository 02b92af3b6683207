//! The four stages of the program.

ghost use Rattle.std.specs.Prelude.{◌≡◌, ◌+◌, ◌%◌, IfOk};
ghost use Rattle.calculus.specs.Who.{asker_of};
ghost use Rattle.net_core.specs.Whole.{AllServe, AreNumbered, shape, start_shape};
ghost use Rattle.net_session.specs.Rounds.{capacity_of};
ghost use Rattle.quel_network.specs.Sorts.{User};

use calculus::Name;
use memory::OutOfMemory;
use monitor::Monitor;
use net_core::{Net, Stage};
use stage_parse::Parser;
use stage_proc::Processor;
use stage_util::Utilities;
use std::alloc::Global;

/// The four stages of the program, and the pipes between them.
pub(crate) type Stages = Net<Monitor, Parser, Processor, Utilities>;

/// How many frames a pipe holds, by the number of the turns: 1 to 8.
fn capacity_of(number: u32) -> usize
    ensures { result ≡ capacity_of number }
{
    1 + (number % 8) as usize
}

/// The four stages of a user at the start, with empty pipes.
pub(crate) fn stages(alloc: Global, user: Name, number: u32) -> Result<Stages, OutOfMemory>
    ensures start { IfOk result (λ net. shape ⟦<Monitor as Stage>⟧.state ⟦<Parser as Stage>⟧.state ⟦<Processor as Stage>⟧.state ⟦<Utilities as Stage>⟧.state net ≡ start_shape) }
    ensures serve { IfOk result (λ net. (who : User) → who.asker ≡ asker_of user → AllServe ⟦<Monitor as Stage>⟧.serves ⟦<Parser as Stage>⟧.serves ⟦<Processor as Stage>⟧.serves ⟦<Utilities as Stage>⟧.serves net who) }
    ensures numbers { IfOk result (λ net. AreNumbered ⟦<Monitor as Stage>⟧.place ⟦<Parser as Stage>⟧.place ⟦<Processor as Stage>⟧.place ⟦<Utilities as Stage>⟧.place net) }
    ensures heard { IfOk result (λ net. ⟦<Monitor as Stage>⟧.heard net.one ≡ 0) }
    ensures capacity { IfOk result (λ net. net.capacity ≡ capacity_of number) }
{
    let second = user.copy(alloc)?;
    let third = user.copy(alloc)?;
    Net::new(
        alloc,
        Monitor::new(alloc),
        Parser::new(alloc, second),
        Processor::new(alloc, third),
        Utilities::new(alloc, user),
        capacity_of(number),
    )
}
