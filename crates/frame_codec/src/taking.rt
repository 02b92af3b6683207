//! The whole frames of a piece.

ghost use Rattle.std.specs.Prelude.{◌≡◌, ◌+◌, ◌<◌, ◌≤◌, ◌^◌, ◌++◌, IfOk, Some, drop, length, take};
ghost use Rattle.frame_codec.specs.Messages.{frame};
ghost use Rattle.frame_codec.specs.Reading.{behind_frames, front_of, read};
ghost use Rattle.frame_codec.specs.declared.fronts.Front.TheVariants.{Part, Whole};

use crate::FrameFault;
use crate::frame::{Frame, HEADER};
use crate::fronts::{Front, front_of};
use memory::{List, OutOfMemory};
use std::alloc::Global;
use std::collections::VecDeque;

/// Where the frames of a piece end: from where on its bytes are left, the place in the stream behind
/// the last frame, and the fault that stands there.
#[derive(Clone, Copy)]
pub(crate) struct Stop {
    pub(crate) from: usize,
    pub(crate) place: u64,
    pub(crate) fault: Option<FrameFault>,
}

/// Nothing is left behind a fault.
fn break_at(piece: &[u8], place: u64, fault: FrameFault) -> Stop
    ensures from { result.from ≡ length piece.now }
    ensures place { result.place ≡ place }
    ensures fault { result.fault ≡ Some fault }
{
    Stop {
        from: piece.len(),
        place,
        fault: Some(fault),
    }
}

/// What stands behind the header of a frame that has begun.
fn behind_header(first: &[u8]) -> &[u8]
    ensures { result.now ≡ drop 3 first.now }
{
    if first.len() < HEADER {
        return &[];
    }
    first.split_at(HEADER).1
}

/// The frame of a kind and a size that begins in the first piece and ends in the other.
#[tactic(auto, using(crate::proofs::Payloads::payload_of))]
fn frame_of(
    alloc: Global,
    first: &[u8],
    then: &[u8],
    kind: u8,
    size: usize,
) -> Result<Frame, OutOfMemory>
    requires ends { length first.now < 3 + size }
    requires whole { 3 + size ≤ length first.now + length then.now }
    requires short { size ≤ 4096 }
    ensures { IfOk result (λ made. made ≡ frame kind (take size (drop 3 (first.now ++ then.now)))) }
{
    let begin = HEADER.saturating_sub(first.len());
    let end = HEADER + size - first.len();
    let mut payload = Vec::with_capacity(alloc, size)?;
    payload.extend_from_slice(behind_header(first))?;
    payload.extend_from_slice(&then[begin..end])?;
    Ok(Frame {
        kind,
        payload: List::of(payload),
    })
}

/// Adds the whole frames that stand in a piece from a byte on, whose place in the stream is `at`.
fn take_frames(
    alloc: Global,
    frames: &mut VecDeque<Frame>,
    piece: &[u8],
    begin: usize,
    at: u64,
) -> Result<Stop, OutOfMemory>
    requires begin { begin ≤ length piece.now }
    requires counted { at + length piece.now < 2 ^ 64 + begin }
    ensures read { IfOk result (λ stop. behind_frames frames.old.items (read at (drop begin piece.now))
        ≡ record { frames = frames.new.items; left = drop stop.from piece.now; place = stop.place; fault = stop.fault }) }
    ensures within { IfOk result (λ stop. stop.from ≤ length piece.now) }
    ensures part { IfOk result (λ stop. front_of (drop stop.from piece.now) ≡ Part) }
{
    let mut from = begin;
    let mut place = at;
    'each: loop {
        let rest = piece.split_at(from).1;
        match front_of(&[], rest) {
            Front::Whole { kind, size } => {
                frames.push_back(frame_of(alloc, &[], rest, kind, size)?)?;
                from += HEADER + size;
                place += (HEADER + size) as u64;
            }
            Front::Part => return Ok(Stop {
                from,
                place,
                fault: None,
            }),
            Front::BadKind => return Ok(break_at(piece, place, FrameFault::BadKind { at: place })),
            Front::TooLong => {
                return Ok(break_at(piece, place, FrameFault::TooLong { at: place + 1 }));
            }
        }
    }
}

/// Adds the frame of a kind and a size that stands at the front of the bytes left and the piece, and
/// the whole frames behind it. The bytes left are a part of it, and their place in the stream is `at`.
pub(crate) fn take_all(
    alloc: Global,
    frames: &mut VecDeque<Frame>,
    left: &[u8],
    piece: &[u8],
    kind: u8,
    size: usize,
    at: u64,
) -> Result<Stop, OutOfMemory>
    requires whole { front_of (left.now ++ piece.now) ≡ Whole kind size }
    requires ends { length left.now < 3 + size }
    requires within { 3 + size ≤ length left.now + length piece.now }
    requires short { size ≤ 4096 }
    requires counted { at + length left.now + length piece.now < 2 ^ 64 }
    ensures read { IfOk result (λ stop. behind_frames frames.old.items (read at (left.now ++ piece.now))
        ≡ record { frames = frames.new.items; left = drop stop.from piece.now; place = stop.place; fault = stop.fault }) }
    ensures within { IfOk result (λ stop. stop.from ≤ length piece.now) }
    ensures part { IfOk result (λ stop. front_of (drop stop.from piece.now) ≡ Part) }
{
    frames.push_back(frame_of(alloc, left, piece, kind, size)?)?;
    let begin = HEADER + size - left.len();
    take_frames(alloc, frames, piece, begin, at + (HEADER + size) as u64)
}
