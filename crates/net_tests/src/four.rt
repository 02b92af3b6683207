// The four real stages print the same, whatever the order of their turns and the room in the pipes.
use crate::orders::orders;
use crate::scripts::{
    ALLOWED, ALLOWED_PRINTED, BAD, DEEP, DEPARTMENTS, FORBIDDEN, FORBIDDEN_PRINTED, KEPT, MADE,
    MADE_PRINTED, MIXED, MIXED_PRINTED, PART, REFUSED, REFUSED_PRINTED, SHOWN, SHOWN_PRINTED,
    STAFF, UPDATES, UPDATES_PRINTED,
};
use crate::sessions::{File, Session, Turns, come_so};
use std::alloc::Global;
use std::process::Abort;
use std::test::*;

/// Some of the ways in which turns are taken.
const SOME: [Turns; 6] = [
    Turns {
        order: [4, 3, 2, 1],
        times: 1,
        capacity: 1,
    },
    Turns {
        order: [1, 2, 3, 4],
        times: 1,
        capacity: 2,
    },
    Turns {
        order: [1, 2, 3, 4],
        times: 4,
        capacity: 8,
    },
    Turns {
        order: [3, 1, 4, 2],
        times: 2,
        capacity: 1,
    },
    Turns {
        order: [2, 4, 1, 3],
        times: 3,
        capacity: 2,
    },
    Turns {
        order: [4, 1, 3, 2],
        times: 1,
        capacity: 8,
    },
];

const UPDATING: [Session<'static>; 1] = [(b"ann", UPDATES, UPDATES_PRINTED)];

#[test]
fn all_orders_print_the_same(rt: HostRuntime) {
    let orders = orders(&rt, rt.alloc());
    assert!(rt; orders.len() == 24);
    assert!(rt; orders.contains(&[4, 3, 2, 1]));
    for order in &orders {
        for capacity in [1, 2, 8] {
            let turns = Turns {
                order: *order,
                times: 1,
                capacity,
            };
            assert!(rt; come_so(&rt, rt.alloc(), turns, &[], &UPDATING, &[]));
        }
    }
    drop(orders);
}

const FILES: [File; 2] = [(b"part", PART), (b"more", DEPARTMENTS)];

const LEFT: [File; 4] = [
    (b"part", PART),
    (b"more", DEPARTMENTS),
    (b"out", STAFF),
    (b"kept", KEPT),
];

const MIXING: [Session<'static>; 1] = [(b"ann", MIXED, MIXED_PRINTED)];

#[test]
fn statements_and_commands_of_all_kinds_come_through(rt: HostRuntime) {
    for turns in SOME {
        assert!(rt; come_so(&rt, rt.alloc(), turns, &FILES, &MIXING, &LEFT));
    }
}

const BAD_FILES: [File; 2] = [(b"deep", DEEP), (b"bad", BAD)];

/// What is shown before and behind statements that are refused.
const REFUSING: [Session<'static>; 7] = [
    (b"ann", MADE, MADE_PRINTED),
    (b"ann", SHOWN, SHOWN_PRINTED),
    (b"bob", ALLOWED, ALLOWED_PRINTED),
    (b"ann", REFUSED, REFUSED_PRINTED),
    (b"bob", FORBIDDEN, FORBIDDEN_PRINTED),
    (b"ann", SHOWN, SHOWN_PRINTED),
    (b"bob", ALLOWED, ALLOWED_PRINTED),
];

#[test]
fn what_is_refused_changes_nothing(rt: HostRuntime) {
    for turns in SOME {
        assert!(rt; come_so(&rt, rt.alloc(), turns, &BAD_FILES, &REFUSING, &BAD_FILES));
    }
}

/// Makes a relation of a hundred rows with one long text each, of which a batch, a tree and a change have
/// more than 4,096 bytes.
const LONG: &[u8] = b"create dig (x = i1)\n\
    append to dig (x = 0) append to dig (x = 1) append to dig (x = 2) append to dig (x = 3)\n\
    append to dig (x = 4) append to dig (x = 5) append to dig (x = 6) append to dig (x = 7)\n\
    append to dig (x = 8) append to dig (x = 9)\n\
    create big (k = i2, t = c240)\n\
    range of a is dig range of b is dig range of e is big\n\
    append to big (k = 10 * a.x + b.x, t = \"";

const ASKED: &[u8] = b"\")\n\
    retrieve (n = count(e.k where e.t = \"y\"";

const SUMMED: &[u8] = b"), s = sum(e.k))\n\
    \\g\n";

const LONG_PRINTED: &[u8] =
    b"done\ndone\ndone\ndone\ndone\ndone\ndone\ndone\ndone\ndone\ndone\ndone\ndone\n\
    |n                   |s                   |\n\
    |--------------------|--------------------|\n\
    |                 100|                4950|\n\
    |--------------------|--------------------|\n";

/// The script of long messages.
fn long<R: Abort>(rt: &R, alloc: Global) -> Vec<u8> {
    let text = [b'x'; 240];
    let mut script = LONG.to_vec(alloc).expect(rt, "memory");
    script.extend_from_slice(&text).expect(rt, "memory");
    script.extend_from_slice(ASKED).expect(rt, "memory");
    for _ in 0..20 {
        script
            .extend_from_slice(b" or e.t = \"")
            .expect(rt, "memory");
        script.extend_from_slice(&text).expect(rt, "memory");
        script.extend_from_slice(b"\"").expect(rt, "memory");
    }
    script.extend_from_slice(SUMMED).expect(rt, "memory");
    script
}

#[test]
fn messages_of_many_frames_come_through(rt: HostRuntime) {
    let script = long(&rt, rt.alloc());
    for turns in SOME {
        let session = (b"ann".as_slice(), script.as_slice(), LONG_PRINTED);
        assert!(rt; come_so(&rt, rt.alloc(), turns, &[], &[session], &[]));
    }
    drop(script);
}
