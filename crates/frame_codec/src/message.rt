//! Messages: cut into frames, and joined from frames.

ghost use Rattle.std.specs.Prelude.{◌≡◌, ◌∷◌, ◌<◌, ◌++◌, [], IfOk, IfErr, IfSome, IfNone, drop, length};
ghost use Rattle.std.specs.List.{flat_map};
ghost use Rattle.frame_codec.specs.Messages.{frame, joined, listed, message_frames};

use crate::frame::{FULL, Frame, MORE};
use memory::{List, OutOfMemory};
use std::alloc::Global;
use std::marker::Model;
use std::mem::replace;

/// What one process tells another, in as many frames as it fills.
#[derive(Drop)]
pub struct Message {
    /// Its kind, 1 to 10: that of the last of its frames.
    pub kind: u8,
    /// Its bytes.
    pub bytes: List<u8>,
}

/// The frames of a message, which are made one by one. Contracts see those that weren't given yet.
pub struct MessageFrames {
    alloc: Global,
    kind: u8,
    bytes: Vec<u8>,
    given: usize,
    ended: bool,
}

impl Drop for MessageFrames {
    fn drop(self) {
        let Self {
            alloc: _,
            kind: _,
            bytes: _,
            given: _,
            ended: _,
        } = self;
    }
}

impl Model for MessageFrames {
    ghost use Rattle.std.specs.Prelude.{◌≤◌, List, [], drop, length, if◌then◌else◌};
    ghost use Rattle.frame_codec.specs.Messages.{message_frames};
    ghost use Rattle.frame_codec.specs.declared.frame.Frame.{Frame};

    ghost Value = { List Frame };

    ghost view = { λ m. if m.ended then [] else message_frames m.kind (drop m.given m.bytes.items) };

    ghost invariant = { λ m. m.given ≤ length m.bytes.items };
}

impl MessageFrames {
    /// The frames of a message. Takes no memory.
    pub fn of(alloc: Global, message: Message) -> MessageFrames
        ensures { result ≡ message_frames message.kind message.bytes }
    {
        let Message { kind, bytes } = message;
        MessageFrames {
            alloc,
            kind,
            bytes: bytes.into_items(),
            given: 0,
            ended: false,
        }
    }

    /// The next frame; `None` where all were given. A message that fits into one frame isn't copied; of
    /// others each byte is copied once. After want of memory the frames are as they were.
    #[tactic(auto, using(crate::proofs::Joined::more_given, crate::proofs::Joined::last_given))]
    pub fn next(&mut self) -> Result<Option<Frame>, OutOfMemory>
        ensures given { IfOk result (λ next. IfSome next (λ frame. self.old ≡ frame ∷ self.new)) }
        ensures none { IfOk result (λ next. IfNone next (self.old ≡ [])) }
        ensures stays { IfOk result (λ next. IfNone next (self.new ≡ [])) }
        ensures err { IfErr result (λ _. self.new ≡ self.old) }
    {
        if self.ended {
            return Ok(None);
        }
        let rest = self.bytes.split_at(self.given).1;
        if rest.len() >= FULL {
            let payload = rest.split_at(FULL).0.to_vec(self.alloc)?;
            self.given += FULL;
            return Ok(Some(Frame {
                kind: MORE,
                payload: List::of(payload),
            }));
        }
        if self.given == 0 {
            self.ended = true;
            let payload = replace(&mut self.bytes, Vec::new(self.alloc));
            return Ok(Some(Frame {
                kind: self.kind,
                payload: List::of(payload),
            }));
        }
        let payload = rest.to_vec(self.alloc)?;
        self.ended = true;
        Ok(Some(Frame {
            kind: self.kind,
            payload: List::of(payload),
        }))
    }
}

/// Joins frames to messages. Contracts see the bytes of the message that isn't whole yet.
pub struct MessageJoiner {
    alloc: Global,
    parts: Vec<Frame>,
}

impl Drop for MessageJoiner {
    fn drop(self) {
        let Self { alloc: _, parts: _ } = self;
    }
}

impl Model for MessageJoiner {
    ghost use Rattle.std.specs.Prelude.{List, ℕ};
    ghost use Rattle.std.specs.List.{flat_map};

    ghost Value = { List ℕ };

    ghost view = { λ j. flat_map (λ part. part.payload) j.parts.items };
}

/// The payloads of frames, one behind the other, and behind them these bytes.
fn joined_bytes(alloc: Global, parts: &[Frame], last: &[u8]) -> Result<Vec<u8>, OutOfMemory>
    ensures { IfOk result (λ bytes. bytes.items ≡ flat_map (λ part. part.payload) parts.now ++ last.now) }
{
    let size = parts.len().saturating_mul(FULL).saturating_add(last.len());
    let mut bytes = Vec::with_capacity(alloc, size)?;
    for part in parts {
        bytes.extend_from_slice(part.payload.items())?;
    }
    bytes.extend_from_slice(last)?;
    Ok(bytes)
}

impl MessageJoiner {
    /// A joiner that no frame came to yet. Takes no memory.
    pub fn new(alloc: Global) -> MessageJoiner
        ensures { result ≡ [] }
    {
        MessageJoiner {
            alloc,
            parts: Vec::new(alloc),
        }
    }

    /// Takes the next frame; gives the message whose last frame it is, if it is one's. A message of one
    /// frame isn't copied; of others each byte is copied once. After want of memory the frame is gone,
    /// and the joiner is as it was.
    pub fn take(&mut self, frame: Frame) -> Result<Option<Message>, OutOfMemory>
        ensures ok { IfOk result (λ message. joined self.old (frame ∷ []) ≡ (listed message, self.new)) }
        ensures err { IfErr result (λ _. self.new ≡ self.old) }
    {
        let Frame { kind, payload } = frame;
        if kind == MORE {
            self.parts.push(Frame { kind, payload })?;
            return Ok(None);
        }
        if self.parts.is_empty() {
            return Ok(Some(Message {
                kind,
                bytes: payload,
            }));
        }
        let bytes = joined_bytes(self.alloc, &self.parts, payload.items())?;
        self.parts.clear();
        Ok(Some(Message {
            kind,
            bytes: List::of(bytes),
        }))
    }
}
