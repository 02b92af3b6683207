//! How a stage's process ended is told to its left.

ghost use Rattle.std.specs.Prelude.{Err};
ghost use Rattle.net_core.specs.LoopFaults.{fault_bytes};
ghost use Rattle.net_core.specs.Sides.{OutletLater, Wrote, outlet};

use crate::loop_fault::LoopFault;
use fault_io::{Sink, write_all};

/// Tells the left of a fault, by one Fault frame: not by the first stage, and not where the left can't be
/// read or written. A fault of this write is not answered. Takes no memory.
pub(crate) fn tell<O: Sink>(left_out: &mut O, number: u8, fault: LoopFault)
    ensures wrote { Wrote (outlet O.written O.faults O.stalls left_out.old) (outlet O.written O.faults O.stalls left_out.new) (fault_bytes number (Err fault)) }
    ensures later { OutletLater (outlet O.written O.faults O.stalls left_out.old) (outlet O.written O.faults O.stalls left_out.new) }
{
    let status = fault.status();
    if number == 1 || status == 3 || status == 4 {
        return;
    }
    let _known = write_all(left_out, &[9, 0, 1, status]);
}
