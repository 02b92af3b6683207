ghost use Rattle.std.specs.Prelude.{◌≡◌, ◌<◌, ◌≤◌, ℕ, Option, List, IfOk, IsErrOf, OnOk, OnErr, length};
ghost use Rattle.std.specs.Io.{ReadsAtMost, WritesAtMost};
ghost use Rattle.std.specs.Io.KnownBytes.{Appends, ReadConsumes, WriteAppends};
ghost use Rattle.fault_io.specs.Causes.{CountsStall, HasCause, Rose};
ghost use Rattle.fault_io.specs.Links.{CountsStart};
ghost use Rattle.fault_io.specs.Known.{GrewBy, IsFront};

use crate::traits::{Failed, SinkFault};

/// Both ends of a talk with a child: its bytes are read, it is written to, and it is waited for.
///
/// What is left to read and what was written is known or not, as with a `Source` and a `Sink`.
pub trait Link {
    /// The bytes that are left to read, where they are known.
    ghost left: { Self → Option (List ℕ) };

    /// The bytes that were written, where they are known.
    ghost written: { Self → Option (List ℕ) };

    /// How often a call has failed. The count stands still at 2^64 - 1.
    ghost faults: { Self → ℕ };

    /// How often no byte was taken of a piece that isn't empty. The count stands still at 2^64 - 1.
    ghost stalls: { Self → ℕ };

    /// Gives the next bytes, as a `Source` does.
    fn read(&mut self, buf: &mut [u8]) -> Result<usize, Failed>
        ensures bound { ReadsAtMost result buf.new }
        ensures bytes { ReadConsumes (left self.old) (left self.new) result buf.new }
        ensures written { written self.new ≡ written self.old }
        ensures cause { HasCause (faults self.old) (faults self.new) result }
        ensures stalls { stalls self.new ≡ stalls self.old };

    /// Takes bytes from the front of the piece, as a `Sink` does.
    fn write(&mut self, buf: &[u8]) -> Result<usize, Failed>
        ensures bound { WritesAtMost result buf.now }
        ensures bytes { WriteAppends (written self.old) (written self.new) result buf.now }
        ensures left { left self.new ≡ left self.old }
        ensures cause { HasCause (faults self.old) (faults self.new) result }
        ensures stall { CountsStall (stalls self.old) (stalls self.new) result (length buf.now) };

    /// Closes the side that is written to, waits for the child and answers its status. What is known
    /// stays.
    fn finish(&mut self) -> Result<i32, Failed>
        ensures left { left self.new ≡ left self.old }
        ensures written { written self.new ≡ written self.old }
        ensures cause { HasCause (faults self.old) (faults self.new) result }
        ensures stalls { stalls self.new ≡ stalls self.old };
}

/// Starts children, which are talked with by a link each.
pub trait Spawner {
    /// What a child is talked with by.
    type Link: Link;

    /// How many children were started, where it is known.
    ghost started: { Self → Option ℕ };

    /// How often a call has failed. The count stands still at 2^64 - 1.
    ghost faults: { Self → ℕ };

    /// Starts a child for this stage. Its link has had no fault and no stall.
    fn start(&mut self, stage: u8) -> Result<Self::Link, Failed>
        ensures fresh { IfOk result (λ link. (Self.Link.faults link ≡ 0) × (Self.Link.stalls link ≡ 0)) }
        ensures count { CountsStart (started self.old) (started self.new) result }
        ensures cause { HasCause (faults self.old) (faults self.new) result };
}

/// Gives a whole piece to a link, in as many calls as that needs, as `write_all` does to a sink. It ends
/// at the first call that fails or takes nothing; a part of the piece was then written, from its front,
/// and not the whole.
pub fn write_all_to_link<L: Link>(link: &mut L, bytes: &[u8]) -> Result<(), SinkFault>
    ensures whole { OnOk result (Appends (L.written link.old) (L.written link.new) bytes.now) }
    ensures front { GrewBy (L.written link.old) (L.written link.new)
        (λ more. IsFront more bytes.now) }
    ensures part { OnErr result (GrewBy (L.written link.old) (L.written link.new)
        (λ more. length more < length bytes.now)) }
    ensures left { L.left link.new ≡ L.left link.old }

    ensures faults { L.faults link.old ≤ L.faults link.new }
    ensures stalls { L.stalls link.old ≤ L.stalls link.new }
    ensures failed { IsErrOf result SinkFault.Failed
        → Rose (L.faults link.old) (L.faults link.new) }
    ensures stalled { IsErrOf result SinkFault.Stalled
        → Rose (L.stalls link.old) (L.stalls link.new) }
    ensures no_fault { OnOk result (L.faults link.new ≡ L.faults link.old) }
    ensures no_stall { OnOk result (L.stalls link.new ≡ L.stalls link.old) }
{
    let mut rest = bytes;
    while !rest.is_empty() {
        let taken = write_some_to_link(link, rest)?;
        rest = rest.split_at(taken).1;
    }
    Ok(())
}

/// Gives bytes to a link in one call, which is to take some of them.
fn write_some_to_link<L: Link>(link: &mut L, bytes: &[u8]) -> Result<usize, SinkFault>
    requires { 0 < length bytes.now }
    ensures some { IfOk result (λ n. 0 < n) }
    ensures bound { WritesAtMost result bytes.now }
    ensures bytes { WriteAppends (L.written link.old) (L.written link.new) result bytes.now }
    ensures left { L.left link.new ≡ L.left link.old }

    ensures faults { L.faults link.old ≤ L.faults link.new }
    ensures stalls { L.stalls link.old ≤ L.stalls link.new }
    ensures failed { IsErrOf result SinkFault.Failed
        → Rose (L.faults link.old) (L.faults link.new) }
    ensures stalled { IsErrOf result SinkFault.Stalled
        → Rose (L.stalls link.old) (L.stalls link.new) }
    ensures no_fault { OnOk result (L.faults link.new ≡ L.faults link.old) }
    ensures no_stall { OnOk result (L.stalls link.new ≡ L.stalls link.old) }
{
    match link.write(bytes) {
        Err(_) => Err(SinkFault::Failed),
        Ok(0) => Err(SinkFault::Stalled),
        Ok(taken) => Ok(taken),
    }
}
