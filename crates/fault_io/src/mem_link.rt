ghost use Rattle.std.specs.Prelude.{◌≡◌, ◌↔◌, ◌++◌, ◌⊎◌, ◌<◌, ℕ, [], Contains, IfOk, IsErr, OnErr, Some, drop, length, min, take};
ghost use Rattle.std.specs.Io.{ReadsAtMost, WritesAtMost};
ghost use Rattle.std.specs.Io.KnownBytes.{ReadConsumes, WriteAppends};
ghost use Rattle.fault_io.specs.Causes.{CountsStall, HasCause, one_more};

use crate::calls::Calls;
use crate::link::Link;
use crate::mem_source::give;
use crate::traits::Failed;
use std::alloc::Global;
use std::marker::Model;

/// A link in memory. Contracts see the bytes that are left to read, those that were written, the
/// status of the child, the number of the next call, the numbers of the calls that are to fail, and
/// the count of faults. Calls of all three kinds are numbered together, from 0; that number and the
/// count of faults stand still at 2^64 - 1.
pub struct MemLink {
    bytes: Vec<u8>,
    at: usize,
    written: Vec<u8>,
    status: i32,
    calls: Calls,
}

impl Drop for MemLink {
    fn drop(self) {
        let Self {
            bytes: _,
            at: _,
            written: _,
            status: _,
            calls: _,
        } = self;
    }
}

impl Model for MemLink {
    ghost use Rattle.std.specs.Prelude.{◌≤◌, drop, vec_len};
    ghost use Rattle.fault_io.specs.InMemory.{LinkInMemory};

    ghost Value = { LinkInMemory };

    ghost view = { λ s. record {
      bytes = drop s.at s.bytes.items;
      written = s.written.items;
      status = s.status;
      next_call = s.calls.next;
      failing = s.calls.failing.items;
      faults = s.calls.faults;
    } };

    ghost invariant = { λ s. s.at ≤ vec_len s.bytes };
}

impl MemLink {
    /// A link from which these bytes are read, to a child that ends with this status; the calls with
    /// the numbers in `failing` fail. Takes no memory yet.
    pub fn new(alloc: Global, bytes: Vec<u8>, status: i32, failing: Vec<u64>) -> MemLink
        ensures { result ≡ record {
          bytes = bytes.items;
          written = [];
          status = status;
          next_call = 0;
          failing = failing.items;
          faults = 0;
        } }
    {
        MemLink {
            bytes,
            at: 0,
            written: Vec::new(alloc),
            status,
            calls: Calls::new(failing),
        }
    }

    /// The bytes that were written to it, in order.
    pub fn written(&self) -> &[u8]
        ensures { result.now ≡ self.now.written }
    {
        self.written.as_slice()
    }
}

impl Link for MemLink {
    ghost left = { λ s. Some s.bytes };

    ghost written = { λ s. Some s.written };

    ghost faults = { λ s. s.faults };

    ghost stalls = { λ _. 0 };

    /// Gives the next bytes, as many as are left and fit into the buffer. Takes no memory.
    fn read(&mut self, buf: &mut [u8]) -> Result<usize, Failed>
        // As every link.
        ensures bound { ReadsAtMost result buf.new }
        ensures bytes { ReadConsumes (Some self.old.bytes) (Some self.new.bytes) result buf.new }
        ensures written { Some self.new.written ≡ Some self.old.written }
        ensures cause { HasCause self.old.faults self.new.faults result }
        ensures stalls { ◌≡◌ {A = ℕ} 0 0 }

        // The listed calls fail, and no other.
        ensures fails { IsErr result ↔ Contains self.old.failing self.old.next_call }
        ensures after_failure { OnErr result (self.new ≡ record self.old {
          next_call = one_more self.old.next_call;
          faults = one_more self.old.faults;
        }) }
        ensures buffer_kept { OnErr result (buf.new ≡ buf.old) }

        // Any other call gives as many bytes as are left and fit, and leaves the rest.
        ensures count { IfOk result (λ n. n ≡ min (length self.old.bytes) (length buf.old)) }
        ensures given { IfOk result (λ n. buf.new ≡ take n self.old.bytes ++ drop n buf.old) }
        ensures rest { IfOk result (λ n. self.new ≡ record self.old {
          bytes = drop n self.old.bytes;
          next_call = one_more self.old.next_call;
        }) }
    {
        self.calls.begin()?;
        let count = give(self.bytes.split_at(self.at).1, buf);
        self.at += count;
        Ok(count)
    }

    /// Takes the whole piece. A call that finds no memory fails, counted, and takes nothing.
    fn write(&mut self, buf: &[u8]) -> Result<usize, Failed>
        // As every link. A link in memory never stalls.
        ensures bound { WritesAtMost result buf.now }
        ensures bytes { WriteAppends (Some self.old.written) (Some self.new.written) result buf.now }
        ensures left { Some self.new.bytes ≡ Some self.old.bytes }
        ensures cause { HasCause self.old.faults self.new.faults result }
        ensures stall { CountsStall 0 0 result (length buf.now) }

        // The listed calls fail. Any other fails for want of memory alone, which an empty piece
        // doesn't need.
        ensures listed { Contains self.old.failing self.old.next_call → IsErr result }
        ensures empty { OnErr result
            (Contains self.old.failing self.old.next_call ⊎ (0 < length buf.now)) }
        ensures after_failure { OnErr result (self.new ≡ record self.old {
          next_call = one_more self.old.next_call;
          faults = one_more self.old.faults;
        }) }

        // A call that doesn't fail takes the whole piece.
        ensures count { IfOk result (λ n. n ≡ length buf.now) }
        ensures taken { IfOk result (λ n. self.new ≡ record self.old {
          written = self.old.written ++ buf.now;
          next_call = one_more self.old.next_call;
        }) }
    {
        self.calls.begin()?;
        if self.written.extend_from_slice(buf).is_err() {
            return Err(self.calls.fail());
        }
        Ok(buf.len())
    }

    /// Answers the child's status.
    fn finish(&mut self) -> Result<i32, Failed>
        // As every link.
        ensures left { Some self.new.bytes ≡ Some self.old.bytes }
        ensures written { Some self.new.written ≡ Some self.old.written }
        ensures cause { HasCause self.old.faults self.new.faults result }
        ensures stalls { ◌≡◌ {A = ℕ} 0 0 }

        // The listed calls fail, and no other.
        ensures fails { IsErr result ↔ Contains self.old.failing self.old.next_call }
        ensures after_failure { OnErr result (self.new ≡ record self.old {
          next_call = one_more self.old.next_call;
          faults = one_more self.old.faults;
        }) }
        ensures status { IfOk result (λ status. status ≡ self.old.status) }
        ensures kept { IfOk result (λ _. self.new ≡ record self.old {
          next_call = one_more self.old.next_call;
        }) }
    {
        self.calls.begin()?;
        Ok(self.status)
    }
}
