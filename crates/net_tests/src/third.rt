// The query processor as a process of its own, between streams in memory.
use crate::sessions::{name, room_with};
use fault_io::{MemLink, MemSink, MemSource};
use frame_codec::{Message, frame_bytes};
use memory::List;
use message_codec::Outgoing;
use net_core::{LoopFault, stage_loop};
use stage_proc::Processor;
use std::alloc::Global;
use std::process::Abort;
use std::test::*;

/// What comes of a run: how it ended, its status, what was written to the left, and what to the link.
#[derive(Clone, Copy)]
struct Came {
    ended: Result<(), LoopFault>,
    status: u8,
    to_left: &'static [u8],
    to_right: &'static [u8],
}

/// The end of all.
const QUIT: &[u8] = b"\x0a\0\0";

/// What comes of a tree that can be worked on, and the end of all: a table with one row, in which x is 3.
const ANSWERED: Came = Came {
    ended: Ok(()),
    status: 0,
    to_left: b"\x03\0\x05\0\x01\x01x\x01\x04\0\x0b\0\x01\0\0\0\0\0\0\0\0\x03\x06\0\0",
    to_right: QUIT,
};

/// What comes of a first frame that may not come.
const REFUSED: Came = Came {
    ended: Err(LoopFault::BadFrame { at: 0 }),
    status: 10,
    to_left: b"\x09\0\x01\x0a",
    to_right: b"",
};

/// What comes where the stream ends behind a tree.
const EARLY: Came = Came {
    ended: Err(LoopFault::EndedEarly),
    status: 9,
    to_left: b"\x03\0\x05\0\x01\x01x\x01\x04\0\x0b\0\x01\0\0\0\0\0\0\0\0\x03\x06\0\0\x09\0\x01\x09",
    to_right: b"",
};

/// Streams, and what comes of them: a tree and the end of all; these without the last byte; what begins
/// no frame; a tree that names a variable that it hasn't.
const STREAMS: [(&[u8], Came); 4] = [
    (
        b"\x02\0\x16\0\0\x01\0\0\0\x01\x01x\x01\0\0\0\0\0\0\0\0\x03\0\0\0\x0a\0\0",
        ANSWERED,
    ),
    (
        b"\x02\0\x16\0\0\x01\0\0\0\x01\x01x\x01\0\0\0\0\0\0\0\0\x03\0\0\0\x0a\0",
        EARLY,
    ),
    (b"\x0c", REFUSED),
    (
        b"\x02\0\x10\0\0\x01\0\0\0\x01\x01x\x01\x02\0\0\0\0\0",
        REFUSED,
    ),
];

/// Bytes that are no tree: one behind its end, none at its end, a sort of request that there isn't, none
/// at all, a name with a blank, and a text of no byte.
const NO_TREES: [&[u8]; 6] = [
    b"\0\0\x01\0\0\0\x01\x01x\x01\0\0\0\0\0\0\0\0\x03\0\0\0\0",
    b"\0\0\x01\0\0\0\x01\x01x\x01\0\0\0\0\0\0\0\0\x03\0\0",
    b"\x0a",
    b"",
    b"\0\0\x01\0\0\0\x01\x01 ",
    b"\0\0\x01\0\0\0\x01\x01x\0\x03\0",
];

/// The front of a tree whose only target is x; behind it its term is to follow.
const FRONT: &[u8] = b"\0\0\x01\0\0\0\x01\x01x\x01";

/// The integer 3 as a term, and the end of the tree.
const REST: &[u8] = b"\0\0\0\0\0\0\0\0\x03\0\0\0";

fn bytes<R: Abort>(rt: &R, alloc: Global, bytes: &[u8]) -> Vec<u8> {
    bytes.to_vec(alloc).expect(rt, "memory")
}

/// Whether the query processor, over a new database and fed so, does what is to come of it.
fn comes_so<R: Abort>(rt: &R, alloc: Global, from_left: &[u8], came: Came) -> bool {
    let mut stage = Processor::new(alloc, name(rt, alloc, b"ann"));
    let mut left_in = MemSource::new(bytes(rt, alloc, from_left), Vec::new(alloc));
    let mut left_out = MemSink::new(alloc, Vec::new(alloc));
    let mut right = MemLink::new(alloc, Vec::new(alloc), 0, Vec::new(alloc));
    let mut room = room_with(rt, alloc, &[]);
    let ended = stage_loop(
        alloc,
        &mut stage,
        &mut left_in,
        &mut left_out,
        &mut right,
        &mut room,
    );
    ended == came.ended
        && status(ended) == came.status
        && left_out.bytes() == came.to_left
        && right.written() == came.to_right
        && room.sink.bytes().is_empty()
}

/// The status of a process that ended so.
fn status(ended: Result<(), LoopFault>) -> u8 {
    match ended {
        Ok(()) => 0,
        Err(fault) => fault.status(),
    }
}

/// The bytes of the frames of a tree, and of the end of all.
fn framed<R: Abort>(rt: &R, alloc: Global, tree: Vec<u8>) -> Vec<u8> {
    let message = Message {
        kind: 2,
        bytes: List::of(tree),
    };
    let mut frames = Outgoing::new(alloc);
    frames.put(message).expect(rt, "memory");
    let mut stream = Vec::new(alloc);
    'frames: while let Some(frame) = frames.pop().expect(rt, "memory") {
        let spelled = frame_bytes(alloc, &frame).expect(rt, "memory");
        stream.extend_from_slice(&spelled).expect(rt, "memory");
    }
    stream.extend_from_slice(QUIT).expect(rt, "memory");
    stream
}

/// A tree whose term is so many bytes 3, of which each changes the sign of what follows, and the rest.
fn deep<R: Abort>(rt: &R, alloc: Global, levels: usize, rest: &[u8]) -> Vec<u8> {
    let mut tree = bytes(rt, alloc, FRONT);
    for _ in 0..levels {
        tree.push(3).expect(rt, "memory");
    }
    tree.extend_from_slice(rest).expect(rt, "memory");
    tree
}

#[test]
fn streams_are_answered(rt: HostRuntime) {
    for (stream, came) in STREAMS {
        assert!(rt; comes_so(&rt, rt.alloc(), stream, came));
    }
}

#[test]
fn what_is_no_tree_is_refused(rt: HostRuntime) {
    for tree in NO_TREES {
        let stream = framed(&rt, rt.alloc(), bytes(&rt, rt.alloc(), tree));
        assert!(rt; comes_so(&rt, rt.alloc(), &stream, REFUSED));
        drop(stream);
    }
}

/// What comes of a tree of more levels than a tree may have, whose last frame stands behind two others.
const TOO_DEEP: Came = Came {
    ended: Err(LoopFault::BadFrame { at: 8_198 }),
    status: 10,
    to_left: b"\x09\0\x01\x0a",
    to_right: b"",
};

#[test]
fn a_tree_has_at_most_3000_levels(rt: HostRuntime) {
    let endless = framed(&rt, rt.alloc(), deep(&rt, rt.alloc(), 10_000, b""));
    assert!(rt; comes_so(&rt, rt.alloc(), &endless, TOO_DEEP));
    drop(endless);
    let deepest = framed(&rt, rt.alloc(), deep(&rt, rt.alloc(), 2_998, REST));
    assert!(rt; comes_so(&rt, rt.alloc(), &deepest, ANSWERED));
    drop(deepest);
    let deeper = framed(&rt, rt.alloc(), deep(&rt, rt.alloc(), 2_999, REST));
    assert!(rt; comes_so(&rt, rt.alloc(), &deeper, REFUSED));
    drop(deeper);
}
