//! What comes from one side.

ghost use Rattle.std.specs.Prelude.{◌≡◌, ◌≤◌, ◌<◌, ◌+◌, ◌-◌, ◌^◌, ◌++◌, ◌∷◌, [], ℕ, List, None, IfErr, IfNone, IfSome, IsErrOf, OnErr, OnOk, length};
ghost use Rattle.fault_io.specs.Causes.{Rose};
ghost use Rattle.frame_codec.specs.declared.frame.Frame.{Frame as FrameOf};
ghost use Rattle.net_core.specs.Incoming.{Asked, Holds, IsHalted, IsHeld, PieceDone, most_read};
ghost use Rattle.net_core.specs.declared.loop_fault.LoopFault.TheVariants.{LeftRead as left_failed, OutOfMemory as no_memory, Right as right_failed};

use crate::loop_fault::LoopFault;
use fault_io::{Link, Source};
use frame_codec::{Frame, FrameFault, FrameReader};
use std::alloc::Global;

/// The bytes of one piece, at most.
pub(crate) const PIECE: usize = 4096;

/// From so many bytes on no more are read.
const MOST_READ: u64 = u64::MAX - 65_535;

/// The bytes of a frame before its payload.
const HEADER: u64 = 3;

/// What comes from one side: the frames that are whole, in a reader; where its fault stands, if it has one;
/// how many bytes were read; and the place in the stream behind the frames that were taken.
#[derive(Drop)]
pub(crate) struct Incoming {
    pub(crate) reader: FrameReader,
    pub(crate) fault: Option<u64>,
    pub(crate) read: u64,
    pub(crate) place: u64,
}

impl Incoming {
    /// Nothing was read yet. Takes no memory.
    pub(crate) fn new(alloc: Global) -> Incoming
        ensures { Holds [] [] result }
    {
        Incoming {
            reader: FrameReader::new(alloc),
            fault: None,
            read: 0,
            place: 0,
        }
    }

    /// The next frame of those that are whole.
    fn take_ready(&mut self) -> Option<Frame>
        requires { IsHeld self.old }
        ensures given { (taken : List FrameOf) (bytes : List ℕ) → Holds taken bytes self.old → IfSome result (λ frame. Holds (taken ++ frame ∷ []) bytes self.new) }
        ensures none { IfNone result (self.old.reader.frames ≡ []) }
        ensures stays { IfNone result (self.new ≡ self.old) }
    {
        match self.reader.next() {
            None => None,
            Some(frame) => {
                let size = frame.payload.items().len() as u64;
                self.place += HEADER + size;
                Some(frame)
            }
        }
    }

    /// Whether more may be read, where no frame is whole.
    fn may_read(&self) -> Result<(), LoopFault>
        ensures unbroken { OnOk result (self.now.fault ≡ None) }
        ensures few { OnOk result (self.now.read < most_read) }
        ensures halted { IfErr result (λ fault. IsHalted self.now fault) }
    {
        if let Some(at) = self.fault {
            return Err(LoopFault::BadFrame { at });
        }
        if self.read >= MOST_READ {
            return Err(LoopFault::Spent);
        }
        Ok(())
    }

    /// Reads on with a piece. A fault that stands in it is kept.
    fn feed(&mut self, piece: &[u8]) -> Result<(), LoopFault>
        requires held { IsHeld self.old }
        requires unbroken { self.old.fault ≡ None }
        requires counted { self.old.read + length piece.now < 2 ^ 64 }
        ensures held { (taken : List FrameOf) (bytes : List ℕ) → Holds taken bytes self.old → OnOk result (Holds taken (bytes ++ piece.now) self.new) }
        ensures read { OnOk result (self.new.read ≡ self.old.read + length piece.now) }
        ensures err { IfErr result (λ fault. fault ≡ no_memory) }
    {
        self.read += piece.len() as u64;
        match self.reader.feed(piece) {
            Ok(()) => Ok(()),
            Err(FrameFault::OutOfMemory) => Err(LoopFault::OutOfMemory),
            Err(FrameFault::BadKind { at }) => {
                self.fault = Some(at);
                Ok(())
            }
            Err(FrameFault::TooLong { at }) => {
                self.fault = Some(at);
                Ok(())
            }
        }
    }

    /// Reads a piece of the stream from the left, where no frame is whole.
    fn read_left<I: Source>(&mut self, source: &mut I, buf: &mut [u8]) -> Result<(), LoopFault>
        requires held { IsHeld self.old }
        requires none { self.old.reader.frames ≡ [] }
        requires size { length buf.old ≡ 4096 }
        ensures done { (taken : List FrameOf) (bytes : List ℕ) → Holds taken bytes self.old → PieceDone taken bytes (I.left source.old) (I.left source.new) left_failed self.new result }
        ensures more { OnOk result (self.old.read < self.new.read) }
        ensures few { OnOk result (self.new.read < 2 ^ 64) }
        ensures later { I.faults source.old ≤ I.faults source.new }
        ensures failed { IsErrOf result LoopFault.LeftRead → Rose (I.faults source.old) (I.faults source.new) }
        ensures answered { OnOk result (I.faults source.new ≡ I.faults source.old) }
    {
        self.may_read()?;
        match source.read(buf) {
            Err(_) => Err(LoopFault::LeftRead),
            Ok(0) => Err(LoopFault::EndedEarly),
            Ok(count) => self.feed(&buf[..count]),
        }
    }

    /// Reads a piece of the stream from the right, where no frame is whole.
    fn read_right<L: Link>(&mut self, link: &mut L, buf: &mut [u8]) -> Result<(), LoopFault>
        requires held { IsHeld self.old }
        requires none { self.old.reader.frames ≡ [] }
        requires size { length buf.old ≡ 4096 }
        ensures done { (taken : List FrameOf) (bytes : List ℕ) → Holds taken bytes self.old → PieceDone taken bytes (L.left link.old) (L.left link.new) right_failed self.new result }
        ensures more { OnOk result (self.old.read < self.new.read) }
        ensures few { OnOk result (self.new.read < 2 ^ 64) }
        ensures written { L.written link.new ≡ L.written link.old }
        ensures stalls { L.stalls link.new ≡ L.stalls link.old }
        ensures later { L.faults link.old ≤ L.faults link.new }
        ensures failed { IsErrOf result LoopFault.Right → Rose (L.faults link.old) (L.faults link.new) }
        ensures answered { OnOk result (L.faults link.new ≡ L.faults link.old) }
    {
        self.may_read()?;
        match link.read(buf) {
            Err(_) => Err(LoopFault::Right),
            Ok(0) => Err(LoopFault::EndedEarly),
            Ok(count) => self.feed(&buf[..count]),
        }
    }

    /// The next frame from the left. Pieces are read only while none is whole.
    pub(crate) fn next_left<I: Source>(
        &mut self,
        source: &mut I,
        buf: &mut [u8],
    ) -> Result<Frame, LoopFault>
        requires held { IsHeld self.old }
        requires size { length buf.old ≡ 4096 }
        ensures asked { (taken : List FrameOf) (bytes : List ℕ) → Holds taken bytes self.old → Asked taken bytes (I.left source.old) (I.left source.new) left_failed self.new result }
        ensures later { I.faults source.old ≤ I.faults source.new }
        ensures failed { IsErrOf result LoopFault.LeftRead → Rose (I.faults source.old) (I.faults source.new) }
        ensures answered { OnOk result (I.faults source.new ≡ I.faults source.old) }
    {
        'frames: loop {
            match self.take_ready() {
                Some(frame) => return Ok(frame),
                None => self.read_left(source, buf)?,
            }
        }
    }

    /// The next frame from the right. Pieces are read only while none is whole.
    pub(crate) fn next_right<L: Link>(
        &mut self,
        link: &mut L,
        buf: &mut [u8],
    ) -> Result<Frame, LoopFault>
        requires held { IsHeld self.old }
        requires size { length buf.old ≡ 4096 }
        ensures asked { (taken : List FrameOf) (bytes : List ℕ) → Holds taken bytes self.old → Asked taken bytes (L.left link.old) (L.left link.new) right_failed self.new result }
        ensures written { L.written link.new ≡ L.written link.old }
        ensures stalls { L.stalls link.new ≡ L.stalls link.old }
        ensures later { L.faults link.old ≤ L.faults link.new }
        ensures failed { IsErrOf result LoopFault.Right → Rose (L.faults link.old) (L.faults link.new) }
        ensures answered { OnOk result (L.faults link.new ≡ L.faults link.old) }
    {
        'frames: loop {
            match self.take_ready() {
                Some(frame) => return Ok(frame),
                None => self.read_right(link, buf)?,
            }
        }
    }
}
