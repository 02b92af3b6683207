// Messages that are cut into frames and joined again.
ghost use Rattle.std.specs.Prelude.{◌≡◌};

use frame_codec::{Message, MessageFrames, MessageJoiner};
use memory::List;
use std::alloc::Global;
use std::process::Abort;
use std::test::*;

/// So many bytes, of which two that stand near each other differ.
fn bytes_of(alloc: Global, rt: &impl Abort, size: usize) -> Vec<u8> {
    let mut bytes = Vec::new(alloc);
    for place in 0..size {
        bytes.push((place % 251) as u8).expect(rt, "memory");
    }
    bytes
}

fn message(alloc: Global, rt: &impl Abort, kind: u8, size: usize) -> Message {
    Message {
        kind,
        bytes: List::of(bytes_of(alloc, rt, size)),
    }
}

/// The kinds and the sizes of a message's frames.
fn cut(alloc: Global, rt: &impl Abort, kind: u8, size: usize) -> Vec<(u8, usize)> {
    let mut frames = MessageFrames::of(alloc, message(alloc, rt, kind, size));
    let mut cut = Vec::new(alloc);
    'frames: while let Some(frame) = frames.next().expect(rt, "memory") {
        cut.push((frame.kind, frame.payload.items().len()))
            .expect(rt, "memory");
    }
    cut
}

/// Whether a message of kind 2 and so many bytes is cut so.
fn is_cut(alloc: Global, rt: &impl Abort, size: usize, frames: &[(u8, usize)]) -> bool {
    let found = cut(alloc, rt, 2, size);
    let same = found.as_slice() == frames;
    drop(found);
    same
}

const CUT: [(usize, &[(u8, usize)]); 8] = [
    (0, &[(2, 0)]),
    (1, &[(2, 1)]),
    (4_095, &[(2, 4_095)]),
    (4_096, &[(11, 4_096), (2, 0)]),
    (4_097, &[(11, 4_096), (2, 1)]),
    (8_191, &[(11, 4_096), (2, 4_095)]),
    (8_192, &[(11, 4_096), (11, 4_096), (2, 0)]),
    (12_298, &[(11, 4_096), (11, 4_096), (11, 4_096), (2, 10)]),
];

#[test]
fn a_message_is_cut_into_full_frames_and_one_of_its_kind(rt: HostRuntime) {
    for (size, frames) in &CUT {
        assert!(rt; is_cut(rt.alloc(), &rt, *size, frames));
    }
}

/// Whether this is a message of this kind and of so many bytes.
fn is_message(
    alloc: Global,
    rt: &impl Abort,
    whole: &Option<Message>,
    kind: u8,
    size: usize,
) -> bool {
    match whole {
        Some(message) => {
            let bytes = bytes_of(alloc, rt, size);
            let same = message.kind == kind && message.bytes.items() == bytes.as_slice();
            drop(bytes);
            same
        }
        None => false,
    }
}

/// Whether the frames of a message, taken one by one, give nothing before the last, and then a message
/// of this kind and of so many bytes.
fn is_joined(
    alloc: Global,
    rt: &impl Abort,
    joiner: &mut MessageJoiner,
    kind: u8,
    size: usize,
) -> bool {
    let mut frames = MessageFrames::of(alloc, message(alloc, rt, kind, size));
    let mut whole = None;
    let mut early = false;
    'frames: while let Some(frame) = frames.next().expect(rt, "memory") {
        early = early || whole.is_some();
        whole = joiner.take(frame).expect(rt, "memory");
    }
    drop(frames);
    let same = is_message(alloc, rt, &whole, kind, size);
    drop(whole);
    same && !early
}

#[test]
fn what_is_cut_is_joined(rt: HostRuntime) {
    let mut joiner = MessageJoiner::new(rt.alloc());
    for (size, _) in &CUT {
        assert!(rt; is_joined(rt.alloc(), &rt, &mut joiner, 5, *size));
    }
    drop(joiner);
}
