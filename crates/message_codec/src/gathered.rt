//! Frames of a message that has come in part.

ghost use Rattle.std.specs.Prelude.{◌≡◌, ◌++◌, ◌∷◌, [], IfOk, OnErr, OnOk};
ghost use Rattle.frame_codec.specs.Frames.{has_length, is_kind, is_lawful};
ghost use Rattle.message_codec.specs.Coming.{HasCome, IsCome};
ghost use Rattle.network_meaning.specs.Frames.{payloads};

use crate::messages::{StageMessage, message_of};
use frame_codec::{Frame, Message};
use memory::{List, OutOfMemory, push};
use std::alloc::Global;
use std::marker::Model;

/// The kind of a frame behind which its message goes on.
const MORE: u8 = 11;

/// The length of such a frame; every other is shorter.
const FULL: usize = 4096;

/// What comes with a frame.
#[derive(Drop)]
pub enum Came {
    /// A part of a message, which goes on.
    Part,
    /// The message whose last frame it is.
    Whole(StageMessage),
    /// No frame that the protocol allows, or the last one of what is no message.
    Unlawful,
}

/// Whether the number is that of a kind.
fn is_kind(kind: u8) -> bool
    ensures { result ≡ is_kind kind }
{
    1 <= kind && kind <= MORE
}

/// Whether a frame of the kind may have so many bytes.
fn has_length(kind: u8, size: usize) -> bool
    ensures { result ≡ has_length kind size }
{
    if kind == MORE {
        size == FULL
    } else {
        size < FULL
    }
}

/// Whether the frame has a kind, and a length that the kind may have.
fn is_lawful(frame: &Frame) -> bool
    ensures { result ≡ is_lawful frame.now }
{
    is_kind(frame.kind) && has_length(frame.kind, frame.payload.items().len())
}

/// The payloads of frames, one behind the other.
fn payloads_of(alloc: Global, frames: &[Frame]) -> Result<Vec<u8>, OutOfMemory>
    ensures { IfOk result (λ bytes. bytes.items ≡ payloads frames.now) }
{
    let mut bytes = Vec::new(alloc);
    for part in frames {
        bytes.extend_from_slice(part.payload.items())?;
    }
    Ok(bytes)
}

/// The payloads of frames, and these bytes behind them.
fn joined_bytes(alloc: Global, frames: &[Frame], last: &[u8]) -> Result<Vec<u8>, OutOfMemory>
    ensures { IfOk result (λ bytes. bytes.items ≡ payloads frames.now ++ last.now) }
{
    let mut bytes = payloads_of(alloc, frames)?;
    bytes.extend_from_slice(last)?;
    Ok(bytes)
}

/// What these bytes come to, by the kind of the last frame.
fn came_of(alloc: Global, kind: u8, bytes: &[u8]) -> Result<Came, OutOfMemory>
    ensures { IfOk result (IsCome kind bytes.now) }
{
    match message_of(alloc, kind, bytes)? {
        Some(found) => Ok(Came::Whole(found)),
        None => Ok(Came::Unlawful),
    }
}

/// What the last frame of a message comes to, behind these.
fn read_last(alloc: Global, frames: &[Frame], last: &Frame) -> Result<Came, OutOfMemory>
    ensures { IfOk result (IsCome last.now.kind (payloads frames.now ++ last.now.payload)) }
{
    if frames.is_empty() {
        return came_of(alloc, last.kind, last.payload.items());
    }
    let bytes = joined_bytes(alloc, frames, last.payload.items())?;
    came_of(alloc, last.kind, &bytes)
}

/// The bytes behind those of these frames, which are moved where there are none.
fn pass_behind(alloc: Global, frames: &[Frame], last: List<u8>) -> Result<List<u8>, OutOfMemory>
    ensures { IfOk result (λ bytes. bytes ≡ payloads frames.now ++ last) }
{
    if frames.is_empty() {
        return Ok(last);
    }
    let bytes = joined_bytes(alloc, frames, last.items())?;
    Ok(List::of(bytes))
}

/// Frames of a message that has come in part. Contracts see the frames.
pub struct Gathered {
    frames: Vec<Frame>,
}

impl Drop for Gathered {
    fn drop(self) {
        let Self { frames: _ } = self;
    }
}

impl Model for Gathered {
    ghost use Rattle.std.specs.Prelude.{List};
    ghost use Rattle.frame_codec.specs.declared.frame.Frame.{Frame};

    ghost Value = { List Frame };

    ghost view = { λ g. g.frames.items };
}

impl Gathered {
    /// No frames. Takes no memory.
    pub fn new(alloc: Global) -> Gathered
        ensures { result ≡ [] }
    {
        Gathered {
            frames: Vec::new(alloc),
        }
    }

    /// What comes with a frame behind these. They stay as they are: a part is to be pushed, and where
    /// the message is whole they are to be cleared.
    #[tactic(auto, using(crate::proofs::Come::come_unlawful, crate::proofs::Come::come_part, crate::proofs::Come::comes_last))]
    pub fn read(&self, alloc: Global, frame: &Frame) -> Result<Came, OutOfMemory>
        ensures { IfOk result (HasCome self.now frame.now) }
    {
        if !is_lawful(frame) {
            return Ok(Came::Unlawful);
        }
        if frame.kind == MORE {
            return Ok(Came::Part);
        }
        read_last(alloc, &self.frames, frame)
    }

    /// A frame behind these.
    pub fn push(&mut self, frame: Frame) -> Result<(), OutOfMemory>
        ensures ok { OnOk result (self.new ≡ self.old ++ frame ∷ []) }
        ensures err { OnErr result (self.new ≡ self.old) }
    {
        push(&mut self.frames, frame)
    }

    /// The message whose last frame this is, as it came: its kind, and all bytes behind each other. A
    /// message of one frame isn't copied. They stay as they are, and are to be cleared.
    pub fn pass(&self, alloc: Global, frame: Frame) -> Result<Message, OutOfMemory>
        ensures kind { IfOk result (λ m. m.kind ≡ frame.kind) }
        ensures bytes { IfOk result (λ m. m.bytes ≡ payloads self.now ++ frame.payload) }
    {
        let Frame { kind, payload } = frame;
        let bytes = pass_behind(alloc, &self.frames, payload)?;
        Ok(Message { kind, bytes })
    }

    /// No frames any more.
    pub fn clear(&mut self)
        ensures { self.new ≡ [] }
    {
        self.frames.clear();
    }
}
