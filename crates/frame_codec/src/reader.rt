//! A reader of frames.

ghost use Rattle.std.specs.Prelude.{◌≡◌, ◌≢◌, ◌+◌, ◌<◌, ◌≤◌, ◌^◌, ◌++◌, ◌∷◌, [], Some, None, Ok, Err, IfOk, IfSome, IfNone, IfErr, OnOk, OnErr, IsErrOf, length};
ghost use Rattle.frame_codec.specs.Reading.{IsFed, answer_of, behind_frames, front_of, left_at, read, read_on};
ghost use Rattle.frame_codec.specs.declared.fault.FrameFault.{FrameFault};
ghost use Rattle.frame_codec.specs.declared.fault.FrameFault.TheVariants.{OutOfMemory as no_memory};
ghost use Rattle.frame_codec.specs.declared.fronts.Front.TheVariants.{Part, Whole};

use crate::FrameFault;
use crate::frame::{FULL, Frame, HEADER};
use crate::fronts::{Front, front_of};
use crate::taking::take_all;
use memory::OutOfMemory;
use std::alloc::Global;
use std::collections::VecDeque;
use std::marker::Model;

/// Reads frames from a stream that comes in pieces. Contracts see what the pieces were read as: the
/// frames that haven't been given yet, the bytes behind the last whole frame, their place in the stream,
/// and the fault that stands there, if one does.
pub struct FrameReader {
    alloc: Global,
    frames: VecDeque<Frame>,
    left: Vec<u8>,
    place: u64,
    fault: Option<FrameFault>,
}

impl Drop for FrameReader {
    fn drop(self) {
        let Self {
            alloc: _,
            frames: _,
            left: _,
            place: _,
            fault: _,
        } = self;
    }
}

impl Model for FrameReader {
    ghost use Rattle.std.specs.Prelude.{◌≡◌};
    ghost use Rattle.frame_codec.specs.Reading.{Reading, front_of};
    ghost use Rattle.frame_codec.specs.declared.fronts.Front.TheVariants.{Part};

    ghost Value = { Reading };

    ghost view = { λ r. record {
      frames = r.frames.items;
      left = r.left.items;
      place = r.place;
      fault = r.fault;
    } };

    ghost invariant = { λ r. front_of r.left.items ≡ Part };
}

/// Adds a piece to bytes that are kept of a frame.
fn keep(left: &mut Vec<u8>, piece: &[u8]) -> Result<(), OutOfMemory>
    ensures kept { OnOk result (left.new.items ≡ left.old.items ++ piece.now) }
    ensures err { OnErr result (left.new.items ≡ left.old.items) }
{
    if piece.is_empty() {
        return Ok(());
    }
    left.reserve((HEADER + FULL).saturating_sub(left.len()))?;
    left.extend_from_slice(piece)?;
    Ok(())
}

/// What bytes left and a piece are read as that begin with a whole frame of a kind and a size.
fn reading_of(
    alloc: Global,
    left: &[u8],
    piece: &[u8],
    kind: u8,
    size: usize,
    at: u64,
) -> Result<FrameReader, OutOfMemory>
    requires whole { front_of (left.now ++ piece.now) ≡ Whole kind size }
    requires ends { length left.now < 3 + size }
    requires within { 3 + size ≤ length left.now + length piece.now }
    requires short { size ≤ 4096 }
    requires counted { at + length left.now + length piece.now < 2 ^ 64 }
    ensures { IfOk result (λ reading. reading ≡ read at (left.now ++ piece.now)) }
{
    let mut frames = VecDeque::new(alloc);
    let stop = take_all(alloc, &mut frames, left, piece, kind, size, at)?;
    let mut left = Vec::new(alloc);
    keep(&mut left, piece.split_at(stop.from).1)?;
    Ok(FrameReader {
        alloc,
        frames,
        left,
        place: stop.place,
        fault: stop.fault,
    })
}

impl FrameReader {
    /// A reader that was fed nothing yet. Takes no memory.
    #[tactic(auto, unfolding(crate::specs::Reading::front_of))]
    pub fn new(alloc: Global) -> FrameReader
        ensures { result ≡ left_at 0 [] }
    {
        FrameReader {
            alloc,
            frames: VecDeque::new(alloc),
            left: Vec::new(alloc),
            place: 0,
            fault: None,
        }
    }

    /// Takes over what was read behind its own frames.
    fn go_on(&mut self, more: FrameReader) -> Result<(), OutOfMemory>
        ensures ok { OnOk result (self.new ≡ behind_frames self.old.frames more) }
        ensures err { OnErr result (self.new ≡ self.old) }
    {
        let FrameReader {
            alloc: _,
            mut frames,
            left,
            place,
            fault,
        } = more;
        match self.frames.append(&mut frames) {
            Ok(()) => {
                self.left = left;
                self.place = place;
                self.fault = fault;
                Ok(())
            }
            Err(_) => Err(OutOfMemory),
        }
    }

    /// Keeps a piece behind the bytes left, where no frame is whole with it.
    fn keep_on(&mut self, piece: &[u8]) -> Result<(), FrameFault>
        requires { front_of (self.old.left ++ piece.now) ≡ Part }
        ensures ok { OnOk result (self.new ≡ record self.old { left = self.old.left ++ piece.now }) }
        ensures err { OnErr result (self.new ≡ self.old) }
        ensures memory { IfErr result (λ fault. fault ≡ no_memory) }
    {
        match keep(&mut self.left, piece) {
            Ok(()) => Ok(()),
            Err(want) => Err(want.into()),
        }
    }

    /// Nothing is read any more.
    #[tactic(auto, unfolding(crate::specs::Reading::front_of))]
    fn break_off(&mut self, fault: FrameFault) -> Result<(), FrameFault>
        ensures answer { result ≡ Err fault }
        ensures broken { self.new ≡ record self.old { left = []; fault = Some fault } }
    {
        self.left.clear();
        self.fault = Some(fault);
        Err(fault)
    }

    /// Reads on with a piece that makes a frame of a kind and a size whole.
    fn take(&mut self, piece: &[u8], kind: u8, size: usize) -> Result<(), FrameFault>
        requires unbroken { self.old.fault ≡ None }
        requires whole { front_of (self.old.left ++ piece.now) ≡ Whole kind size }
        requires ends { length self.old.left < 3 + size }
        requires within { 3 + size ≤ length self.old.left + length piece.now }
        requires short { size ≤ 4096 }
        requires counted { self.old.place + length self.old.left + length piece.now < 2 ^ 64 }
        ensures { IsFed self.old piece.now result self.new }
    {
        let more = match reading_of(self.alloc, &self.left, piece, kind, size, self.place) {
            Ok(more) => more,
            Err(want) => return Err(want.into()),
        };
        match self.go_on(more) {
            Ok(()) => self.answer(),
            Err(want) => Err(want.into()),
        }
    }

    /// The fault, if there is one.
    fn answer(&self) -> Result<(), FrameFault>
        ensures { result ≡ answer_of self.now.fault }
    {
        match self.fault {
            None => Ok(()),
            Some(fault) => Err(fault),
        }
    }

    /// Reads on with a piece.
    fn read_piece(&mut self, piece: &[u8]) -> Result<(), FrameFault>
        requires unbroken { self.old.fault ≡ None }
        requires counted { self.old.place + length self.old.left + length piece.now < 2 ^ 64 }
        ensures { IsFed self.old piece.now result self.new }
    {
        match front_of(&self.left, piece) {
            Front::Whole { kind, size } => self.take(piece, kind, size),
            Front::Part => self.keep_on(piece),
            Front::BadKind => self.break_off(FrameFault::BadKind { at: self.place }),
            Front::TooLong => self.break_off(FrameFault::TooLong { at: self.place + 1 }),
        }
    }

    /// Reads on with a piece of the stream. After an error other than want of memory nothing is read any
    /// more, and every later call answers the same; after want of memory the reader is as it was.
    pub fn feed(&mut self, piece: &[u8]) -> Result<(), FrameFault>
        requires { self.old.place + length self.old.left + length piece.now < 2 ^ 64 }
        ensures ok { OnOk result (self.new ≡ read_on self.old piece.now) }
        ensures whole { OnOk result (self.new.fault ≡ None) }
        ensures broken { IfErr result (λ fault. fault ≢ no_memory → self.new ≡ read_on self.old piece.now) }
        ensures fault { IfErr result (λ fault. fault ≢ no_memory → self.new.fault ≡ Some fault) }
        ensures memory { IsErrOf result FrameFault.OutOfMemory → self.new ≡ self.old }
        ensures again { (fault : FrameFault) → self.old.fault ≡ Some fault → result ≡ Err fault }
        ensures stays { (fault : FrameFault) → self.old.fault ≡ Some fault → self.new ≡ self.old }
        ensures counted { self.new.place + length self.new.left ≤ self.old.place + length self.old.left + length piece.now }
    {
        if let Some(fault) = self.fault {
            return Err(fault);
        }
        self.read_piece(piece)
    }

    /// Gives the next frame of those that are whole; `None` where all were given. Takes no memory.
    pub fn next(&mut self) -> Option<Frame>
        ensures given { IfSome result (λ frame. self.old ≡ behind_frames (frame ∷ []) self.new) }
        ensures none { IfNone result (self.old.frames ≡ []) }
        ensures stays { IfNone result (self.new ≡ self.old) }
        ensures left { self.new.left ≡ self.old.left }
        ensures place { self.new.place ≡ self.old.place }
    {
        self.frames.pop_front()
    }
}
