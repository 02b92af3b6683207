// The first stage over scripts in memory: what it prints, and which frames it gives, where each batch is answered.
use crate::orders::{Memory, room};
use fault_io::MemSource;
use frame_codec::Frame;
use memory::List;
use monitor::Monitor;
use net_core::{Stage, Want, WorkFault};
use std::alloc::Global;
use std::process::Abort;
use std::test::*;

/// A script, the frames that are given, each as a letter from its kind and then its bytes, and what is
/// printed.
const SCRIPTS: [(&[u8], &[u8], &[u8]); 3] = [
    (
        b"abc\n\\p\n\\g\nde\\p f \\x\n\\q\nrest",
        b"1abc\n:",
        b"abc\ndone\nde\nrefused 2 line 0: monitor command\n",
    ),
    (
        b"\\i none\nab\n\\w kept\n\\r\n\\i kept\n\\p\n\\q\n",
        b":",
        b"refused 32 line 0: no such file\nab\n",
    ),
    (b"ab\\g cd\\p\\g", b"1ab\n1 cd\n:", b"done\n cd\ndone\n"),
];

/// The room, with a source of this script, whose calls with these numbers fail.
fn room_of<R: Abort>(rt: &R, alloc: Global, script: &[u8], failing: &[u64]) -> Memory {
    let mut room = room(rt, alloc, &[]);
    room.source = MemSource::new(
        script.to_vec(alloc).expect(rt, "memory"),
        failing.to_vec(alloc).expect(rt, "memory"),
    );
    room
}

/// The frame of a kind that has no bytes.
fn empty(alloc: Global, kind: u8) -> Frame {
    Frame {
        kind,
        payload: List::of(Vec::new(alloc)),
    }
}

/// What the monitor gives in so many steps where each batch is answered by done and an end.
fn given<R: Abort>(rt: &R, alloc: Global, room: &mut Memory, steps: usize) -> Vec<u8> {
    let mut stage = Monitor::new(alloc);
    let mut given = Vec::new(alloc);
    let mut answered = false;
    for _ in 0..steps {
        match stage.want() {
            Want::Work => stage.work(alloc, room).expect(rt, "work"),
            Want::GiveRight => {
                let frame = stage.give(alloc).expect(rt, "memory");
                given
                    .push(frame.kind.wrapping_add(b'0'))
                    .expect(rt, "memory");
                given
                    .extend_from_slice(frame.payload.items())
                    .expect(rt, "memory");
            }
            Want::TakeRight => {
                let kind = if answered { 6 } else { 8 };
                stage.take(alloc, empty(alloc, kind)).expect(rt, "lawful");
                answered = !answered;
            }
            Want::TakeLeft => {}
            Want::GiveLeft => {}
            Want::Ended => {}
        }
    }
    given
}

#[test]
fn scripts_are_read_and_answers_printed(rt: HostRuntime) {
    for (script, frames, printed) in SCRIPTS {
        let mut room = room_of(&rt, rt.alloc(), script, &[]);
        let given = given(&rt, rt.alloc(), &mut room, 40);
        assert!(rt; given.as_slice() == frames);
        assert!(rt; room.sink.bytes() == printed);
    }
}

/// A piece of work, where the monitor wants to work.
fn step(alloc: Global, stage: &mut Monitor, room: &mut Memory) -> Result<(), WorkFault> {
    match stage.want() {
        Want::Work => stage.work(alloc, room),
        Want::TakeLeft => Ok(()),
        Want::TakeRight => Ok(()),
        Want::GiveLeft => Ok(()),
        Want::GiveRight => Ok(()),
        Want::Ended => Ok(()),
    }
}

#[test]
fn where_the_source_fails_nothing_is_printed(rt: HostRuntime) {
    let mut room = room_of(&rt, rt.alloc(), b"ab\n\\p\n", &[4]);
    let mut stage = Monitor::new(rt.alloc());
    let first = step(rt.alloc(), &mut stage, &mut room);
    let second = step(rt.alloc(), &mut stage, &mut room);
    assert!(rt; first == Ok(()));
    assert!(rt; second == Err(WorkFault::Source));
    assert!(rt; room.sink.bytes().is_empty());
}
