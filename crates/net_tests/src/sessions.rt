// Sessions of a user: the four real stages over a room in memory, by rounds of turns, until all have ended.
use crate::orders::{Memory, are_stages, round};
use calculus::Name;
use fault_io::{MemShelf, MemSink, MemSource, Shelf};
use monitor::Monitor;
use net_core::{Net, Room, net_ended, net_turns};
use plain_base::DbPlain;
use stage_parse::Parser;
use stage_proc::Processor;
use stage_util::Utilities;
use std::alloc::Global;
use std::collections::VecDeque;
use std::process::Abort;

type Real = Net<Monitor, Parser, Processor, Utilities>;

/// A file: its name and its bytes.
pub(crate) type File = (&'static [u8], &'static [u8]);

/// A session: whose it is, its script, and what it prints.
pub(crate) type Session<'a> = (&'a [u8], &'a [u8], &'a [u8]);

/// How the turns are taken: in each round each stage of the order takes so many steps, and a pipe holds so
/// many frames.
#[derive(Clone, Copy)]
pub(crate) struct Turns {
    pub order: [u8; 4],
    pub times: usize,
    pub capacity: usize,
}

/// The name that has these bytes.
pub(crate) fn name<R: Abort>(rt: &R, alloc: Global, bytes: &[u8]) -> Name {
    Name::of(alloc, bytes)
        .expect(rt, "memory")
        .expect(rt, "a name")
}

/// The four stages of a user at the start.
fn stages<R: Abort>(rt: &R, alloc: Global, user: &[u8], capacity: usize) -> Real {
    Net {
        one: Monitor::new(alloc),
        two: Parser::new(alloc, name(rt, alloc, user)),
        three: Processor::new(alloc, name(rt, alloc, user)),
        four: Utilities::new(alloc, name(rt, alloc, user)),
        a: VecDeque::new(alloc),
        b: VecDeque::new(alloc),
        c: VecDeque::new(alloc),
        d: VecDeque::new(alloc),
        e: VecDeque::new(alloc),
        f: VecDeque::new(alloc),
        capacity,
    }
}

/// These files, as a shelf takes them.
fn listed<R: Abort>(rt: &R, alloc: Global, files: &[File]) -> Vec<(Vec<u8>, Vec<u8>)> {
    let mut listed = Vec::new(alloc);
    for (name, bytes) in files {
        let name = name.to_vec(alloc).expect(rt, "memory");
        let bytes = bytes.to_vec(alloc).expect(rt, "memory");
        listed.push((name, bytes)).expect(rt, "memory");
    }
    listed
}

/// An empty database of ann, these files, and no script.
pub(crate) fn room_with<R: Abort>(rt: &R, alloc: Global, files: &[File]) -> Memory {
    let files = listed(rt, alloc, files);
    Room {
        base: DbPlain::new(alloc, name(rt, alloc, b"ann")),
        shelf: MemShelf::new(alloc, files, Vec::new(alloc)).expect(rt, "memory"),
        source: MemSource::new(Vec::new(alloc), Vec::new(alloc)),
        sink: MemSink::new(alloc, Vec::new(alloc)),
    }
}

/// The room has this script to be read, and nothing was printed yet.
pub(crate) fn begin<R: Abort>(rt: &R, alloc: Global, room: &mut Memory, script: &[u8]) {
    let script = script.to_vec(alloc).expect(rt, "memory");
    room.source = MemSource::new(script, Vec::new(alloc));
    room.sink = MemSink::new(alloc, Vec::new(alloc));
}

/// Steps the stages of a user round by round until they have ended, at most ten thousand times; whether
/// they have, without a fault.
fn ends<R: Abort>(rt: &R, alloc: Global, turns: Turns, user: &[u8], room: &mut Memory) -> bool {
    let mut net = stages(rt, alloc, user, turns.capacity);
    let list = round(rt, alloc, turns.order, turns.times);
    if !are_stages(&list) {
        return false;
    }
    for _ in 0..10_000 {
        if net_ended(&net) {
            break;
        }
        if net_turns(alloc, &mut net, room, &list) != Ok(()) {
            return false;
        }
    }
    net_ended(&net)
}

/// Whether a session over the room ends and prints what it is to.
pub(crate) fn prints<R: Abort>(
    rt: &R,
    alloc: Global,
    turns: Turns,
    room: &mut Memory,
    session: Session<'_>,
) -> bool {
    let (user, script, printed) = session;
    begin(rt, alloc, room, script);
    ends(rt, alloc, turns, user, room) && room.sink.bytes() == printed
}

/// Whether the room has this file.
fn has<R: Abort>(rt: &R, alloc: Global, room: &mut Memory, file: File) -> bool {
    let (name, bytes) = file;
    match room.shelf.fetch(alloc, name).expect(rt, "a shelf") {
        Some(found) => found.as_slice() == bytes,
        None => false,
    }
}

/// Whether sessions, one after the other over a new database and these files, end and print what they are
/// to, and leave those files.
pub(crate) fn come_so<R: Abort>(
    rt: &R,
    alloc: Global,
    turns: Turns,
    files: &[File],
    sessions: &[Session<'_>],
    left: &[File],
) -> bool {
    let mut room = room_with(rt, alloc, files);
    for session in sessions {
        if !prints(rt, alloc, turns, &mut room, *session) {
            return false;
        }
    }
    for file in left {
        if !has(rt, alloc, &mut room, *file) {
            return false;
        }
    }
    true
}
