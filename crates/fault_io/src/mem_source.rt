ghost use Rattle.std.specs.Prelude.{◌≡◌, ◌↔◌, ◌++◌, ◌<◌, ◌+◌, ◌⊎◌, [], false, Contains, IfOk, IsErr, IsTrue, OnErr, Some, drop, length, min, take};
ghost use Rattle.std.specs.Io.{ReadsAtMost};
ghost use Rattle.std.specs.Io.KnownBytes.{ReadConsumes};
ghost use Rattle.fault_io.specs.Causes.{CountsGiven, HasCause, RemembersEnd, one_more};
ghost use Rattle.fault_io.specs.InMemory.{called_next};

use crate::calls::Calls;
use crate::traits::{Failed, Source};
use std::marker::Model;

/// A source in memory. Contracts see the bytes that are left, how many it has given, the number of
/// the next call, the numbers of the calls that are to fail, the count of faults, and whether it has answered that
/// it has ended. Calls are numbered from 0; that number and the count of faults stand still at 2^64 - 1.
pub struct MemSource {
    bytes: Vec<u8>,
    at: usize,
    calls: Calls,
    ended: bool,
}

impl Drop for MemSource {
    fn drop(self) {
        let Self {
            bytes: _,
            at: _,
            calls: _,
            ended: _,
        } = self;
    }
}

impl Model for MemSource {
    ghost use Rattle.std.specs.Prelude.{◌≤◌, drop, vec_len};
    ghost use Rattle.fault_io.specs.InMemory.{SourceInMemory};

    ghost Value = { SourceInMemory };

    ghost view = { λ s. record {
      bytes = drop s.at s.bytes.items;
      given = s.at;
      next_call = s.calls.next;
      failing = s.calls.failing.items;
      faults = s.calls.faults;
      ended = s.ended;
    } };

    ghost invariant = { λ s. s.at ≤ vec_len s.bytes };
}

impl MemSource {
    /// A source of these bytes, whose calls with the numbers in `failing` fail. Takes no memory.
    pub fn new(bytes: Vec<u8>, failing: Vec<u64>) -> MemSource
        ensures { result ≡ record {
          bytes = bytes.items;
          given = 0;
          next_call = 0;
          failing = failing.items;
          faults = 0;
          ended = false;
        } }
    {
        MemSource {
            bytes,
            at: 0,
            calls: Calls::new(failing),
            ended: false,
        }
    }
}

/// Copies as many bytes as there are and as the buffer holds to its front.
pub(crate) fn give(bytes: &[u8], buf: &mut [u8]) -> usize
    ensures count { result ≡ min (length bytes.now) (length buf.old) }
    ensures given { buf.new ≡ take result bytes.now ++ drop result buf.old }
    ensures taken { bytes.now ≡ take result buf.new ++ drop result bytes.now }
    ensures end { result ≡ 0 → 0 < length buf.new → drop result bytes.now ≡ [] }
{
    let count = bytes.len().min(buf.len());
    buf[..count].copy_from_slice(&bytes[..count]);
    count
}

impl Source for MemSource {
    ghost left = { λ s. Some s.bytes };

    ghost given = { λ s. s.given };

    ghost faults = { λ s. s.faults };

    ghost ended = { λ s. s.ended };

    /// Gives the next bytes, as many as are left and fit into the buffer. Takes no memory.
    fn read(&mut self, buf: &mut [u8]) -> Result<usize, Failed>
        // As every source.
        ensures bound { ReadsAtMost result buf.new }
        ensures bytes { ReadConsumes (Some self.old.bytes) (Some self.new.bytes) result buf.new }
        ensures given { CountsGiven self.old.given self.new.given result }
        ensures end { RemembersEnd self.old.ended self.new.ended (length buf.old) result }
        ensures cause { HasCause self.old.faults self.new.faults result }

        // The listed calls fail, and no other; none where it has ended.
        ensures fails { IsErr result ↔ ((self.old.ended ≡ false) × Contains self.old.failing self.old.next_call) }
        ensures after_failure { OnErr result (self.new ≡ record self.old {
          next_call = one_more self.old.next_call;
          faults = one_more self.old.faults;
        }) }
        ensures buffer_kept { OnErr result (buf.new ≡ buf.old) }

        // Any other call gives as many bytes as are left and fit, and leaves the rest.
        ensures count { IfOk result (λ n. n ≡ min (length self.old.bytes) (length buf.old)) }
        ensures put { IfOk result (λ n. buf.new ≡ take n self.old.bytes ++ drop n buf.old) }
        ensures rest { IfOk result (λ n. self.new ≡ record self.old {
          bytes = drop n self.old.bytes;
          given = self.old.given + n;
          next_call = called_next self.old.ended self.old.next_call;
          ended = self.new.ended;
        }) }
        ensures ended { IfOk result (λ n. IsTrue self.new.ended ↔ (IsTrue self.old.ended ⊎ ((n ≡ 0) × (0 < length buf.old)))) }
    {
        if !self.ended {
            self.calls.begin()?;
        }
        let count = give(self.bytes.split_at(self.at).1, buf);
        self.at += count;
        self.ended = self.ended || (count == 0 && !buf.is_empty());
        Ok(count)
    }

    /// How many calls have failed. Takes no memory.
    fn fault_count(&self) -> u64
        ensures { result ≡ self.now.faults }
    {
        self.calls.faults
    }
}
