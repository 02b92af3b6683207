// What a reader hears of a stream.
ghost use Rattle.std.specs.Prelude.{◌≡◌, ◌+◌, ◌<◌, ◌≤◌, ◌^◌, [], length};
ghost use Rattle.frame_codec.specs.Reading.{left_at};

use frame_codec::{FrameFault, FrameReader};
use std::alloc::Global;
use std::process::Abort;
use std::test::*;

/// Whether a reader that is fed this piece gives that answer.
pub fn is_fed(reader: &mut FrameReader, piece: &[u8], answer: Result<(), FrameFault>) -> bool
    requires { reader.old.place + length reader.old.left + length piece.now < 2 ^ 64 }
    ensures { reader.new.place + length reader.new.left ≤ reader.old.place + length reader.old.left + length piece.now }
{
    reader.feed(piece) == answer
}

/// Feeds a stream in pieces of so many bytes, up to the first fault.
pub fn feed_in(reader: &mut FrameReader, stream: &[u8], size: usize) -> Result<(), FrameFault>
    requires fresh { reader.old ≡ left_at 0 [] }
    requires size { 0 < size }
{
    let mut rest = stream;
    'pieces: while !rest.is_empty() {
        let (piece, behind) = rest.split_at(rest.len().min(size));
        reader.feed(piece)?;
        rest = behind;
    }
    Ok(())
}

/// The frames that a reader gives: of each its kind, its payload, and a semicolon.
pub fn given(alloc: Global, rt: &impl Abort, reader: &mut FrameReader) -> Vec<u8> {
    let mut bytes = Vec::new(alloc);
    'frames: while let Some(frame) = reader.next() {
        bytes.push(frame.kind).expect(rt, "memory");
        bytes
            .extend_from_slice(frame.payload.items())
            .expect(rt, "memory");
        bytes.push(b';').expect(rt, "memory");
    }
    bytes
}

/// What a stream in pieces of so many bytes gives, and what the last feed answers.
fn heard(
    alloc: Global,
    rt: &impl Abort,
    stream: &[u8],
    size: usize,
) -> (Vec<u8>, Result<(), FrameFault>)
    requires { 0 < size }
{
    let mut reader = FrameReader::new(alloc);
    let answer = feed_in(&mut reader, stream, size);
    let bytes = given(alloc, rt, &mut reader);
    drop(reader);
    (bytes, answer)
}

/// Whether a stream gives these frames and that answer, in pieces of each of these sizes.
pub fn hears(
    alloc: Global,
    rt: &impl Abort,
    stream: &[u8],
    sizes: &[usize],
    (frames, answer): (&[u8], Result<(), FrameFault>),
) -> bool {
    for size in sizes {
        if !hears_so(alloc, rt, stream, *size, (frames, answer)) {
            return false;
        }
    }
    true
}

/// Whether it does in pieces of this size, which isn't 0.
fn hears_so(
    alloc: Global,
    rt: &impl Abort,
    stream: &[u8],
    size: usize,
    (frames, answer): (&[u8], Result<(), FrameFault>),
) -> bool {
    if size == 0 {
        return false;
    }
    let (bytes, answered) = heard(alloc, rt, stream, size);
    let same = answered == answer && bytes.as_slice() == frames;
    drop(bytes);
    same
}
