ghost use Rattle.std.specs.Prelude.{◌≡◌, ◌⊎◌, ◌<◌, ◌≤◌, ◌++◌, Contains, IfOk, IsErr, None, OnErr, Some, [], length, take};
ghost use Rattle.std.specs.Io.{WritesAtMost};
ghost use Rattle.std.specs.Io.KnownBytes.{WriteAppends};
ghost use Rattle.fault_io.specs.Causes.{CountsStall, HasCause, one_more};
ghost use Rattle.fault_io.specs.InMemory.{fitting_count, room_after};

use crate::calls::Calls;
use crate::traits::{Failed, Sink};
use std::alloc::Global;
use std::marker::Model;

/// A sink in memory. Contracts see the bytes that it took, how many more it takes (`None`: there is
/// no bound), the number of the next call, the numbers of the calls that are to fail, and the count
/// of faults. Calls are numbered from 0; that number and the count of faults stand still at
/// 2^64 - 1.
pub struct MemSink {
    bytes: Vec<u8>,
    room: Option<u64>,
    calls: Calls,
}

impl Drop for MemSink {
    fn drop(self) {
        let Self {
            bytes: _,
            room: _,
            calls: _,
        } = self;
    }
}

impl Model for MemSink {
    ghost use Rattle.fault_io.specs.InMemory.{SinkInMemory};

    ghost Value = { SinkInMemory };

    ghost view = { λ s. record {
      bytes = s.bytes.items;
      room = s.room;
      next_call = s.calls.next;
      failing = s.calls.failing.items;
      faults = s.calls.faults;
    } };
}

impl MemSink {
    /// A sink without a bound, whose calls with the numbers in `failing` fail. Takes no memory yet.
    pub fn new(alloc: Global, failing: Vec<u64>) -> MemSink
        ensures { result ≡ record {
          bytes = [];
          room = None;
          next_call = 0;
          failing = failing.items;
          faults = 0;
        } }
    {
        MemSink {
            bytes: Vec::new(alloc),
            room: None,
            calls: Calls::new(failing),
        }
    }

    /// A sink that takes `room` bytes altogether: of a longer piece the part that still fits, and
    /// after that each call with a piece that isn't empty fails. Takes no memory yet.
    pub fn upto(alloc: Global, room: u64) -> MemSink
        ensures { result ≡ record {
          bytes = [];
          room = Some room;
          next_call = 0;
          failing = [];
          faults = 0;
        } }
    {
        MemSink {
            bytes: Vec::new(alloc),
            room: Some(room),
            calls: Calls::new(Vec::new(alloc)),
        }
    }

    /// The bytes that it took, in order.
    pub fn bytes(&self) -> &[u8]
        ensures { result.now ≡ self.now.bytes }
    {
        self.bytes.as_slice()
    }
}

/// How many of `len` bytes fit into the room.
fn fitting(room: Option<u64>, len: usize) -> usize
    ensures { result ≡ fitting_count room len }
{
    match room {
        None => len,
        Some(room) => len.min(room as usize),
    }
}

/// The room after `count` bytes more.
fn less(room: Option<u64>, count: usize) -> Option<u64>
    ensures { result ≡ room_after room count }
{
    room.map(|room| room.saturating_sub(count as u64))
}

impl Sink for MemSink {
    ghost written = { λ s. Some s.bytes };

    ghost faults = { λ s. s.faults };

    ghost stalls = { λ _. 0 };

    /// Takes the part of the piece that fits. A call that finds no memory fails, counted, and takes
    /// nothing.
    fn write(&mut self, buf: &[u8]) -> Result<usize, Failed>
        // As every sink. A sink in memory never stalls.
        ensures bound { WritesAtMost result buf.now }
        ensures bytes { WriteAppends (Some self.old.bytes) (Some self.new.bytes) result buf.now }
        ensures cause { HasCause self.old.faults self.new.faults result }
        ensures stall { CountsStall 0 0 result (length buf.now) }

        // The listed calls fail, and a call without room. Any other fails for want of memory alone,
        // which an empty piece doesn't need.
        ensures listed { Contains self.old.failing self.old.next_call → IsErr result }
        ensures full { self.old.room ≡ Some 0 → 0 < length buf.now → IsErr result }
        ensures empty { OnErr result
            (Contains self.old.failing self.old.next_call ⊎ (0 < length buf.now)) }
        ensures after_failure { OnErr result (self.new ≡ record self.old {
          next_call = one_more self.old.next_call;
          faults = one_more self.old.faults;
        }) }

        // A call that doesn't fail takes exactly the part that fits.
        ensures count { IfOk result (λ n. n ≡ fitting_count self.old.room (length buf.now)) }
        ensures taken { IfOk result (λ n. self.new ≡ record self.old {
          bytes = self.old.bytes ++ take n buf.now;
          room = room_after self.old.room n;
          next_call = one_more self.old.next_call;
        }) }
    {
        self.calls.begin()?;
        let count = fitting(self.room, buf.len());
        if count == 0 && !buf.is_empty() {
            return Err(self.calls.fail());
        }
        if self.bytes.extend_from_slice(&buf[..count]).is_err() {
            return Err(self.calls.fail());
        }
        self.room = less(self.room, count);
        Ok(count)
    }
}
