// Each real stage refuses each message that may not come, and is as it was.
use crate::driven::{Sent, frame, gives, led, refuses, takes};
use crate::orders::Memory;
use crate::sessions::{begin, name, room_with};
use frame_codec::Frame;
use monitor::Monitor;
use net_core::{Stage, Want};
use stage_parse::Parser;
use stage_proc::Processor;
use stage_util::Utilities;
use std::alloc::Global;
use std::process::Abort;
use std::test::*;

/// A batch with a query for one row, in which x is 3.
const TEXT: Sent = (1, b"retrieve (x = 3)\n");

/// The tree of that query.
const ANSWER: Sent = (2, b"\0\0\x01\0\0\0\x01\x01x\x01\0\0\0\0\0\0\0\0\x03\0\0\0");

/// The tree of an append to p of ann.
const UPDATE: Sent = (
    2,
    b"\x01\0\x03ann\x01p\xff\0\x01\0\0\0\0\x01\x01a\x01\0\0\0\0\0\0\0\0\x01\0\0\0\0",
);

/// The tree by which ann makes p.
const WORK: Sent = (2, b"\x02\0\x03ann\x01p\0\x01\x01a\0\0");

/// A head with one column x, of any integers.
const HEAD: Sent = (3, b"\0\x01\x01x\x01");

/// A head with one column a, of integers of one byte.
const NARROW: Sent = (3, b"\0\x01\x01a\0\0");

/// The row of 3.
const ROW: Sent = (4, b"\0\x01\0\0\0\0\0\0\0\0\x03");

/// No row of p of ann goes, and none comes.
const CHANGE: Sent = (5, b"\0\x03ann\x01p\0\0\0\0\0\0\0\0");

const END: Sent = (6, b"");

/// A rule doesn't hold.
const REFUSED: Sent = (7, b"\x1b\0\0\0\0\0\0\0\0");

const DONE: Sent = (8, b"");

/// A process told that memory was wanting.
const FAULT: Sent = (9, b"\x06");

const QUIT: Sent = (10, b"");

/// What no stage takes: kinds that there aren't, bytes that spell nothing of their kind, a refusal with a
/// number that none has, and a short frame behind which a message would go on.
const UNFORMED: [Sent; 20] = [
    (0, b""),
    (12, b""),
    (255, b""),
    (2, b""),
    (2, b"\x0a"),
    (3, b""),
    (3, b"\0"),
    (3, b"\0\x01\x01x\x01\0"),
    (4, b""),
    (4, b"\0\x01\x02"),
    (5, b""),
    (5, b"\x0a"),
    (6, b"e"),
    (7, b""),
    (7, b"\x1e\0\0\0\0\0\0\0\0"),
    (8, b"d"),
    FAULT,
    (9, b""),
    (10, b"q"),
    (11, b"m"),
];

/// A mode of a stage: what it takes before, what it then wants, which messages may not come, what it takes
/// then, and what it gives and prints of that.
#[derive(Clone, Copy)]
struct Mode {
    before: &'static [Sent],
    wants: Want,
    unlawful: &'static [Sent],
    next: Sent,
    gives: &'static [u8],
    prints: &'static [u8],
}

/// The modes of the monitor, which has given a batch: no table is begun, and one is.
const MONITOR: [Mode; 2] = [
    Mode {
        before: &[],
        wants: Want::TakeRight,
        unlawful: &[TEXT, ANSWER, UPDATE, WORK, ROW, CHANGE, QUIT],
        next: DONE,
        gives: b"",
        prints: b"done\n",
    },
    Mode {
        before: &[NARROW],
        wants: Want::TakeRight,
        unlawful: &[
            TEXT,
            ANSWER,
            UPDATE,
            WORK,
            CHANGE,
            QUIT,
            (4, b"\0\0"),
            (4, b"\0\x02\0\0\0\0\0\0\0\0\x03\0\0\0\0\0\0\0\0\x03"),
            (4, b"\0\x01\0\0\0\0\0\0\0\0\x80"),
            (4, b"\0\x01\x01\x01a"),
        ],
        next: ROW,
        gives: b"",
        prints: b"|a   |\n|----|\n|   3|\n",
    },
];

/// The modes of the parser: it waits for a batch, waits for what a statement is answered, and has had the
/// head of a table.
const PARSER: [Mode; 3] = [
    Mode {
        before: &[],
        wants: Want::TakeLeft,
        unlawful: &[ANSWER, UPDATE, WORK, HEAD, ROW, CHANGE, END, REFUSED, DONE],
        next: TEXT,
        gives: b"\x02\0\0\x01\0\0\0\x01\x01x\x01\0\0\0\0\0\0\0\0\x03\0\0\0;",
        prints: b"",
    },
    Mode {
        before: &[TEXT],
        wants: Want::TakeRight,
        unlawful: &[TEXT, ANSWER, UPDATE, WORK, CHANGE, QUIT],
        next: REFUSED,
        gives: b"\x07\x1b\0\0\0\x01\0\0\0\0;\x06;",
        prints: b"",
    },
    Mode {
        before: &[TEXT, HEAD],
        wants: Want::TakeRight,
        unlawful: &[TEXT, ANSWER, UPDATE, WORK, CHANGE, QUIT],
        next: END,
        gives: b"\x06;",
        prints: b"",
    },
];

/// The modes of the query processor: it waits for a tree, at first and later, and for a reply.
const PROCESSOR: [Mode; 3] = [
    Mode {
        before: &[],
        wants: Want::TakeLeft,
        unlawful: &[TEXT, HEAD, ROW, CHANGE, END, REFUSED, DONE],
        next: ANSWER,
        gives: b"\x03\0\x01\x01x\x01;\x04\0\x01\0\0\0\0\0\0\0\0\x03;\x06;",
        prints: b"",
    },
    Mode {
        before: &[ANSWER],
        wants: Want::TakeLeft,
        unlawful: &[TEXT, HEAD, ROW, CHANGE, END, REFUSED, DONE],
        next: QUIT,
        gives: b"\x0a;",
        prints: b"",
    },
    Mode {
        before: &[WORK],
        wants: Want::TakeRight,
        unlawful: &[TEXT, ANSWER, UPDATE, WORK, HEAD, ROW, CHANGE, END, QUIT],
        next: DONE,
        gives: b"\x08;",
        prints: b"",
    },
];

/// The modes of the utilities: they wait for what they are to do, at first and later.
const UTILITIES: [Mode; 2] = [
    Mode {
        before: &[],
        wants: Want::TakeLeft,
        unlawful: &[TEXT, ANSWER, UPDATE, HEAD, ROW, END, REFUSED, DONE],
        next: WORK,
        gives: b"\x08;",
        prints: b"",
    },
    Mode {
        before: &[WORK],
        wants: Want::TakeLeft,
        unlawful: &[TEXT, ANSWER, UPDATE, HEAD, ROW, END, REFUSED, DONE],
        next: CHANGE,
        gives: b"\x08;",
        prints: b"",
    },
];

/// Whether a stage refuses each of these.
fn refuses_all<R: Abort, A: Stage>(rt: &R, alloc: Global, stage: &mut A, sent: &[Sent]) -> bool {
    for (kind, payload) in sent {
        if !refuses(alloc, stage, frame(rt, alloc, *kind, payload)) {
            return false;
        }
    }
    true
}

/// A frame of this kind and so many bytes 0.
fn zeros<R: Abort>(rt: &R, alloc: Global, kind: u8, size: usize) -> Frame {
    let mut payload = Vec::new(alloc);
    payload.resize(size, 0).expect(rt, "memory");
    frame(rt, alloc, kind, &payload)
}

/// Frames of a kind and a length that the kind may not have.
const LENGTHS: [(u8, usize); 4] = [(1, 4_096), (4, 4_096), (11, 4_095), (11, 4_097)];

/// Whether a stage refuses each of them.
fn refuses_lengths<R: Abort, A: Stage>(rt: &R, alloc: Global, stage: &mut A) -> bool {
    for (kind, size) in LENGTHS {
        if !refuses(alloc, stage, zeros(rt, alloc, kind, size)) {
            return false;
        }
    }
    true
}

/// A room of a new database, in which a batch is to be read.
fn room<R: Abort>(rt: &R, alloc: Global) -> Memory {
    let mut room = room_with(rt, alloc, &[]);
    begin(rt, alloc, &mut room, b"retrieve (x = 3)\n\\g\n");
    room
}

/// Leads a stage to a mode; whether it then wants what it is to.
fn comes_to<R: Abort, A: Stage>(
    rt: &R,
    alloc: Global,
    stage: &mut A,
    room: &mut Memory,
    mode: &Mode,
) -> bool {
    drop(led(rt, alloc, stage, room));
    for (kind, payload) in mode.before {
        if takes(alloc, stage, frame(rt, alloc, *kind, payload)) != Some(Ok(())) {
            return false;
        }
        drop(led(rt, alloc, stage, room));
    }
    stage.want() == mode.wants
}

/// Whether a stage comes to a mode, refuses in it what may not come, and goes on as if that hadn't come.
fn stands_firm<R: Abort, A: Stage>(rt: &R, alloc: Global, stage: &mut A, mode: &Mode) -> bool {
    let mut room = room(rt, alloc);
    comes_to(rt, alloc, stage, &mut room, mode)
        && refuses_all(rt, alloc, stage, mode.unlawful)
        && refuses_all(rt, alloc, stage, &UNFORMED)
        && refuses_lengths(rt, alloc, stage)
        && gives(rt, alloc, stage, &mut room, mode.next, mode.gives)
        && room.sink.bytes() == mode.prints
}

#[test]
fn the_monitor_refuses_what_may_not_come(rt: HostRuntime) {
    for mode in &MONITOR {
        let mut stage = Monitor::new(rt.alloc());
        assert!(rt; stands_firm(&rt, rt.alloc(), &mut stage, mode));
        drop(stage);
    }
}

#[test]
fn the_parser_refuses_what_may_not_come(rt: HostRuntime) {
    for mode in &PARSER {
        let mut stage = Parser::new(rt.alloc(), name(&rt, rt.alloc(), b"ann"));
        assert!(rt; stands_firm(&rt, rt.alloc(), &mut stage, mode));
        drop(stage);
    }
}

#[test]
fn the_query_processor_refuses_what_may_not_come(rt: HostRuntime) {
    for mode in &PROCESSOR {
        let mut stage = Processor::new(rt.alloc(), name(&rt, rt.alloc(), b"ann"));
        assert!(rt; stands_firm(&rt, rt.alloc(), &mut stage, mode));
        drop(stage);
    }
}

#[test]
fn the_utilities_refuse_what_may_not_come(rt: HostRuntime) {
    for mode in &UTILITIES {
        let mut stage = Utilities::new(rt.alloc(), name(&rt, rt.alloc(), b"ann"));
        assert!(rt; stands_firm(&rt, rt.alloc(), &mut stage, mode));
        drop(stage);
    }
}

/// What may not come behind a frame of 4,096 bytes 0 whose message goes on: what has no bytes there, and
/// what these bytes don't spell.
const BEHIND: [Sent; 10] = [
    (2, b""),
    (3, b""),
    (4, b""),
    (5, b""),
    (6, b""),
    (7, b""),
    (8, b""),
    (9, b""),
    (10, b""),
    (11, b""),
];

/// Whether a stage takes such a frame, and refuses what may not come behind it.
fn stands_within<R: Abort, A: Stage>(
    rt: &R,
    alloc: Global,
    stage: &mut A,
    room: &mut Memory,
) -> bool {
    drop(led(rt, alloc, stage, room));
    takes(alloc, stage, zeros(rt, alloc, 11, 4_096)) == Some(Ok(()))
        && refuses_all(rt, alloc, stage, &BEHIND)
}

#[test]
fn what_may_not_come_within_a_message_is_refused(rt: HostRuntime) {
    let mut room = room(&rt, rt.alloc());
    let mut one = Monitor::new(rt.alloc());
    assert!(rt; stands_within(&rt, rt.alloc(), &mut one, &mut room));
    drop(one);
    let mut three = Processor::new(rt.alloc(), name(&rt, rt.alloc(), b"ann"));
    assert!(rt; stands_within(&rt, rt.alloc(), &mut three, &mut room));
    drop(three);
    let mut four = Utilities::new(rt.alloc(), name(&rt, rt.alloc(), b"ann"));
    assert!(rt; stands_within(&rt, rt.alloc(), &mut four, &mut room));
    drop(four);
    drop(room);
}

/// What the parser gives of a batch of 4,096 bytes 0: a refusal, and the end.
const NO_STATEMENT: &[u8] = b"\x07\x01\0\0\0\x01\0\0\0\0;\x06;";

#[test]
fn a_batch_goes_on_behind_what_may_not_come(rt: HostRuntime) {
    let mut room = room(&rt, rt.alloc());
    let mut two = Parser::new(rt.alloc(), name(&rt, rt.alloc(), b"ann"));
    assert!(rt; stands_within(&rt, rt.alloc(), &mut two, &mut room));
    assert!(rt; gives(&rt, rt.alloc(), &mut two, &mut room, (1, b""), NO_STATEMENT));
    drop(two);
    drop(room);
}

#[test]
fn a_reply_of_the_utilities_has_one_frame(rt: HostRuntime) {
    let mut room = room(&rt, rt.alloc());
    let mut three = Processor::new(rt.alloc(), name(&rt, rt.alloc(), b"ann"));
    assert!(rt; comes_to(&rt, rt.alloc(), &mut three, &mut room, &PROCESSOR[2]));
    assert!(rt; refuses(rt.alloc(), &mut three, zeros(&rt, rt.alloc(), 11, 4_096)));
    assert!(rt;
        gives(
            &rt,
            rt.alloc(),
            &mut three,
            &mut room,
            REFUSED,
            b"\x07\x1b\0\0\0\0\0\0\0\0;"
        )
    );
    drop(three);
    drop(room);
}
