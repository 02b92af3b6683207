// A player as a process of its own, between streams in memory.
use crate::orders::{ONE, THREE, room};
use crate::players::Player;
use fault_io::{MemLink, MemSink, MemSource};
use net_core::{LoopFault, WorkFault, stage_loop};
use std::alloc::Global;
use std::process::Abort;
use std::test::*;

/// What the third player takes from its left: a frame of kind 1 for each letter.
const FROM_LEFT: &[u8] = b"\x01\0\x01d\x01\0\x01e";

/// What it takes from its right.
const FROM_RIGHT: &[u8] = b"\x01\0\x01h\x01\0\x01i";

/// What it gives to its left, and to its right.
const TO_LEFT: &[u8] = b"\x01\0\x01o\x01\0\x01p";

const TO_RIGHT: &[u8] = b"\x01\0\x01f\x01\0\x01g";

/// A run of the third player: what comes from both sides, and the numbers of the calls that fail, of the
/// source, the sink to the left, the link and the sink of the room.
#[derive(Clone, Copy)]
struct Case {
    from_left: &'static [u8],
    from_right: &'static [u8],
    failing: [&'static [u64]; 4],
}

/// What comes of it: how it ended, what was written to both sides, and what was printed: nothing, since
/// it isn't the first stage.
#[derive(Clone, Copy)]
struct Came {
    ended: Result<(), LoopFault>,
    to_left: &'static [u8],
    to_right: &'static [u8],
    printed: &'static [u8],
}

/// What comes of calls that fail, one after the other.
static FAILING: [([&[u64]; 4], Came); 9] = [
    (
        [&[0], &[], &[], &[]],
        Came {
            ended: Err(LoopFault::LeftRead),
            to_left: b"",
            to_right: b"",
            printed: b"",
        },
    ),
    (
        [&[1], &[], &[], &[]],
        Came {
            ended: Ok(()),
            to_left: TO_LEFT,
            to_right: TO_RIGHT,
            printed: b"",
        },
    ),
    (
        [&[], &[0], &[], &[]],
        Came {
            ended: Err(LoopFault::LeftWrite),
            to_left: b"",
            to_right: TO_RIGHT,
            printed: b"",
        },
    ),
    (
        [&[], &[1], &[], &[]],
        Came {
            ended: Err(LoopFault::LeftWrite),
            to_left: b"\x01\0\x01o",
            to_right: TO_RIGHT,
            printed: b"",
        },
    ),
    (
        [&[], &[], &[0], &[]],
        Came {
            ended: Err(LoopFault::Right),
            to_left: b"\x09\0\x01\x09",
            to_right: b"",
            printed: b"",
        },
    ),
    (
        [&[], &[], &[1], &[]],
        Came {
            ended: Err(LoopFault::Right),
            to_left: b"\x09\0\x01\x09",
            to_right: b"\x01\0\x01f",
            printed: b"",
        },
    ),
    (
        [&[], &[], &[2], &[]],
        Came {
            ended: Err(LoopFault::Right),
            to_left: b"\x09\0\x01\x09",
            to_right: TO_RIGHT,
            printed: b"",
        },
    ),
    (
        [&[], &[], &[3], &[]],
        Came {
            ended: Ok(()),
            to_left: TO_LEFT,
            to_right: TO_RIGHT,
            printed: b"",
        },
    ),
    (
        [&[], &[], &[], &[0]],
        Came {
            ended: Ok(()),
            to_left: TO_LEFT,
            to_right: TO_RIGHT,
            printed: b"",
        },
    ),
];

/// What comes of streams that end early, that hold what is no frame, and of a Fault frame.
const COMING: [(&[u8], &[u8], Came); 7] = [
    (
        b"",
        b"",
        Came {
            ended: Err(LoopFault::EndedEarly),
            to_left: b"\x09\0\x01\x09",
            to_right: b"",
            printed: b"",
        },
    ),
    (
        b"\x01\0\x01d\x01\0",
        b"",
        Came {
            ended: Err(LoopFault::EndedEarly),
            to_left: b"\x09\0\x01\x09",
            to_right: b"",
            printed: b"",
        },
    ),
    (
        FROM_LEFT,
        b"\x01\0\x01h",
        Came {
            ended: Err(LoopFault::EndedEarly),
            to_left: b"\x01\0\x01o\x09\0\x01\x09",
            to_right: TO_RIGHT,
            printed: b"",
        },
    ),
    (
        b"\x01\0\x01d\0",
        b"",
        Came {
            ended: Err(LoopFault::BadFrame { at: 4 }),
            to_left: b"\x09\0\x01\x0a",
            to_right: b"",
            printed: b"",
        },
    ),
    (
        FROM_LEFT,
        b"\x01\x10\0",
        Came {
            ended: Err(LoopFault::BadFrame { at: 1 }),
            to_left: b"\x09\0\x01\x0a",
            to_right: TO_RIGHT,
            printed: b"",
        },
    ),
    (
        FROM_LEFT,
        b"\x01\0\x01h\x09\0\x01\x05",
        Came {
            ended: Err(LoopFault::Told(5)),
            to_left: b"\x01\0\x01o\x09\0\x01\x05",
            to_right: TO_RIGHT,
            printed: b"",
        },
    ),
    (
        FROM_LEFT,
        b"\x01\0\x01h\x01\0\x01i\0",
        Came {
            ended: Ok(()),
            to_left: TO_LEFT,
            to_right: TO_RIGHT,
            printed: b"",
        },
    ),
];

fn bytes<R: Abort>(rt: &R, alloc: Global, bytes: &[u8]) -> Vec<u8> {
    bytes.to_vec(alloc).expect(rt, "memory")
}

fn numbers<R: Abort>(rt: &R, alloc: Global, numbers: &[u64]) -> Vec<u64> {
    numbers.to_vec(alloc).expect(rt, "memory")
}

/// Whether the third player, fed so, does what is to come of it.
fn comes_so<R: Abort>(rt: &R, alloc: Global, case: Case, came: Came) -> bool {
    let [read_fails, write_fails, link_fails, sink_fails] = case.failing;
    let mut stage = Player::new(alloc, 3, &THREE);
    let mut left_in = MemSource::new(
        bytes(rt, alloc, case.from_left),
        numbers(rt, alloc, read_fails),
    );
    let mut left_out = MemSink::new(alloc, numbers(rt, alloc, write_fails));
    let mut right = MemLink::new(
        alloc,
        bytes(rt, alloc, case.from_right),
        0,
        numbers(rt, alloc, link_fails),
    );
    let mut room = room(rt, alloc, sink_fails);
    let ended = stage_loop(
        alloc,
        &mut stage,
        &mut left_in,
        &mut left_out,
        &mut right,
        &mut room,
    );
    ended == came.ended
        && left_out.bytes() == came.to_left
        && right.written() == came.to_right
        && room.sink.bytes() == came.printed
}

#[test]
fn each_call_that_fails_has_its_fault(rt: HostRuntime) {
    for (failing, came) in &FAILING {
        let case = Case {
            from_left: FROM_LEFT,
            from_right: FROM_RIGHT,
            failing: *failing,
        };
        assert!(rt; comes_so(&rt, rt.alloc(), case, *came));
    }
}

#[test]
fn what_comes_is_taken_up_to_its_fault(rt: HostRuntime) {
    for (from_left, from_right, came) in &COMING {
        let case = Case {
            from_left,
            from_right,
            failing: [&[], &[], &[], &[]],
        };
        assert!(rt; comes_so(&rt, rt.alloc(), case, *came));
    }
}

/// How the first player ends where this comes from its right and these calls of the sink of the room fail,
/// and whether it told nothing to its left.
fn first_ends<R: Abort>(
    rt: &R,
    alloc: Global,
    from_right: &[u8],
    sink_fails: &[u64],
) -> (Result<(), LoopFault>, bool) {
    let mut stage = Player::new(alloc, 1, &ONE);
    let mut left_in = MemSource::new(bytes(rt, alloc, b""), numbers(rt, alloc, &[]));
    let mut left_out = MemSink::new(alloc, numbers(rt, alloc, &[]));
    let mut right = MemLink::new(
        alloc,
        bytes(rt, alloc, from_right),
        0,
        numbers(rt, alloc, &[]),
    );
    let mut room = room(rt, alloc, sink_fails);
    let ended = stage_loop(
        alloc,
        &mut stage,
        &mut left_in,
        &mut left_out,
        &mut right,
        &mut room,
    );
    (ended, left_out.bytes() == b"".as_slice())
}

#[test]
fn the_first_stage_tells_no_fault(rt: HostRuntime) {
    let four = b"\x01\0\x01k\x01\0\x01l\x01\0\x01m\x01\0\x01n";
    let early = Err(LoopFault::EndedEarly);
    let failed = Err(LoopFault::Work(WorkFault::Sink));
    assert!(rt; first_ends(&rt, rt.alloc(), b"\x01\0\x01k", &[]) == (early, true));
    assert!(rt; first_ends(&rt, rt.alloc(), four, &[]) == (Ok(()), true));
    assert!(rt; first_ends(&rt, rt.alloc(), four, &[0]) == (failed, true));
}
