// Trees and changes that aren't fit for the database are refused as unlawful, and it stays as it was.
use crate::driven::{Sent, frame, takes, works};
use crate::orders::Memory;
use crate::sessions::{Session, Turns, name, prints, room_with};
use net_core::{Stage, WorkFault};
use stage_proc::Processor;
use stage_util::Utilities;
use std::alloc::Global;
use std::process::Abort;
use std::test::*;

/// Makes p with one row, and a view of it.
const MADE: Session<'static> = (
    b"ann",
    b"create p (a = i1)\n\
        append to p (a = 5)\n\
        range of x is p\n\
        define view v (n = x.a)\n\
        \\g\n",
    b"done\ndone\ndone\n",
);

/// Shows what stands in the database.
const SHOWN: Session<'static> = (
    b"ann",
    b"range of r is relation\n\
        retrieve (r.relid, r.relspec, r.relatts)\n\
        print p, v\n\
        \\g\n",
    b"|relid       |relspec|relatts|\n\
        |------------|-------|-------|\n\
        |attribute   |heap   |      5|\n\
        |p           |heap   |      1|\n\
        |relation    |heap   |      4|\n\
        |v           |view   |      1|\n\
        |------------|-------|-------|\n\
        |a   |\n\
        |----|\n\
        |   5|\n\
        |----|\n\
        |n   |\n\
        |----|\n\
        |   5|\n\
        |----|\n",
);

/// Trees of queries and updates that aren't fit for it.
const TREES: [Sent; 11] = [
    // A variable that the query hasn't.
    (2, b"\0\0\x01\0\0\0\x01\x01x\x01\x02\0\0\0\0\0"),
    // A variable over a relation that isn't there.
    (
        2,
        b"\0\0\x01\0\x01\x03ann\x01z\0\x01\x01a\0\0\x02\0\0\0\0\0",
    ),
    // A variable over a view.
    (
        2,
        b"\0\0\x01\0\x01\x03ann\x01v\0\x01\x01n\0\0\x02\0\0\0\0\0",
    ),
    // An attribute that the relation hasn't.
    (
        2,
        b"\0\0\x01\0\x01\x03ann\x01p\0\x01\x01a\0\0\x02\0\x01\0\0\0",
    ),
    // A target of another kind than its term.
    (2, b"\0\0\x01\0\0\0\x01\x01x\0\0\0\0\0\0\0\0\0\0\x03\0\0\0"),
    // The negative of a text.
    (2, b"\0\0\x01\0\0\0\x01\x01x\x01\x03\x01\x01a\0\0\0"),
    // Rows sorted by a column that the table hasn't.
    (
        2,
        b"\0\0\x01\0\0\0\x01\x01x\x01\0\0\0\0\0\0\0\0\x03\0\0\x01\0\x01\0",
    ),
    // An append to a relation that isn't there.
    (
        2,
        b"\x01\0\x03ann\x01z\xff\0\x01\0\0\0\0\x01\x01a\x01\0\0\0\0\0\0\0\0\x01\0\0\0\0",
    ),
    // An append to an attribute that the relation hasn't.
    (
        2,
        b"\x01\0\x03ann\x01p\xff\0\x01\x01\0\0\0\x01\x01a\x01\0\0\0\0\0\0\0\0\x01\0\0\0\0",
    ),
    // An append in place of the rows of a variable.
    (
        2,
        b"\x01\0\x03ann\x01p\0\0\x01\0\0\0\0\x01\x01a\x01\0\0\0\0\0\0\0\0\x01\0\0\0\0",
    ),
    // Rows that are to be a relation which is there.
    (
        2,
        b"\x01\x03\x03ann\x01p\xff\0\x01\0\0\0\0\x01\x01a\x01\0\0\0\0\0\0\0\0\x01\0\0\0\0",
    ),
];

/// Trees of work of the utilities that aren't fit for it.
const WORK: [Sent; 9] = [
    // A relation is made which is there.
    (2, b"\x02\0\x03ann\x01p\0\x01\x01a\0\0"),
    // One of no attribute is made.
    (2, b"\x02\0\x03ann\x01q\0\0"),
    // One that isn't there goes.
    (2, b"\x02\x01\0\x01\x03ann\x01z"),
    // One goes twice.
    (2, b"\x02\x01\0\x02\x03ann\x01v\x03ann\x01v"),
    // One gets a key that it hasn't.
    (2, b"\x02\x02\x03ann\x01p\x02\0\x01\x05"),
    // An index has no key.
    (2, b"\x02\x03\x03ann\x01p\x01i\0\0"),
    // No column is copied.
    (2, b"\x02\x04\x03ann\x01p\0\0\x01\x01f"),
    // A permit names a second variable.
    (
        2,
        b"\x02\x06\x03ann\x01p\0\0\0\0\x01\0\0\0\x01\0\x02\x01\0\0\0\0\0\0\0\0\0\x01",
    ),
    // The permits of a relation that isn't there go.
    (2, b"\x02\x08\x03ann\x01z\0\0"),
];

/// Changes that aren't lawful for it.
const CHANGES: [Sent; 11] = [
    // Of a relation that isn't there.
    (5, b"\0\x03ann\x01z\0\0\0\0\0\0\0\0"),
    // A row goes that isn't there.
    (
        5,
        b"\0\x03ann\x01p\0\0\0\x01\0\x01\0\0\0\0\0\0\0\0\x06\0\0\0\0",
    ),
    // A row comes that is there.
    (
        5,
        b"\0\x03ann\x01p\0\0\0\0\0\0\0\x01\0\x01\0\0\0\0\0\0\0\0\x05",
    ),
    // A row comes twice.
    (
        5,
        b"\0\x03ann\x01p\0\0\0\0\0\0\0\x02\0\x01\0\0\0\0\0\0\0\0\x06\0\x01\0\0\0\0\0\0\0\0\x06",
    ),
    // A row comes that doesn't fit.
    (
        5,
        b"\0\x03ann\x01p\0\0\0\0\0\0\0\x01\0\x01\0\0\0\0\0\0\0\0\x80",
    ),
    // A row of two values comes.
    (
        5,
        b"\0\x03ann\x01p\0\0\0\0\0\0\0\x01\0\x02\0\0\0\0\0\0\0\0\x06\0\0\0\0\0\0\0\0\x06",
    ),
    // A relation is made which is there.
    (5, b"\x01\x03ann\x01p\0\0\x01\x01a\0\0\0\0\0\0\0\0"),
    // One that isn't there goes.
    (5, b"\x02\0\x01\x03ann\x01z"),
    // One goes that a view names.
    (5, b"\x02\0\x01\x03ann\x01p"),
    // One that isn't there is stored in another structure.
    (5, b"\x03\x03ann\x01z\0\0\0"),
    // A permit goes that isn't there.
    (5, b"\x08\x03ann\x01p\0\x01\0\0\0\x01"),
];

const TURNS: Turns = Turns {
    order: [1, 2, 3, 4],
    times: 1,
    capacity: 1,
};

/// The room of the database.
fn room<R: Abort>(rt: &R, alloc: Global) -> Memory {
    let mut room = room_with(rt, alloc, &[]);
    assert!(rt; prints(rt, alloc, TURNS, &mut room, MADE));
    room
}

/// Whether a stage takes this, and its work on it is unlawful.
fn is_unfit<R: Abort, A: Stage>(
    rt: &R,
    alloc: Global,
    stage: &mut A,
    room: &mut Memory,
    sent: Sent,
) -> bool {
    let (kind, payload) = sent;
    takes(alloc, stage, frame(rt, alloc, kind, payload)) == Some(Ok(()))
        && works(alloc, stage, room) == Some(Err(WorkFault::Unlawful))
}

/// Whether the query processor finds this unfit.
fn is_unfit_for_three<R: Abort>(rt: &R, alloc: Global, room: &mut Memory, sent: Sent) -> bool {
    let mut stage = Processor::new(alloc, name(rt, alloc, b"ann"));
    is_unfit(rt, alloc, &mut stage, room, sent)
}

/// Whether the utilities do.
fn is_unfit_for_four<R: Abort>(rt: &R, alloc: Global, room: &mut Memory, sent: Sent) -> bool {
    let mut stage = Utilities::new(alloc, name(rt, alloc, b"ann"));
    is_unfit(rt, alloc, &mut stage, room, sent)
}

#[test]
fn the_query_processor_refuses_trees_that_are_not_fit(rt: HostRuntime) {
    let mut room = room(&rt, rt.alloc());
    for sent in TREES {
        assert!(rt; is_unfit_for_three(&rt, rt.alloc(), &mut room, sent));
        assert!(rt; prints(&rt, rt.alloc(), TURNS, &mut room, SHOWN));
    }
    for sent in WORK {
        assert!(rt; is_unfit_for_three(&rt, rt.alloc(), &mut room, sent));
        assert!(rt; prints(&rt, rt.alloc(), TURNS, &mut room, SHOWN));
    }
    drop(room);
}

#[test]
fn the_utilities_refuse_trees_that_are_not_fit(rt: HostRuntime) {
    let mut room = room(&rt, rt.alloc());
    for sent in WORK {
        assert!(rt; is_unfit_for_four(&rt, rt.alloc(), &mut room, sent));
        assert!(rt; prints(&rt, rt.alloc(), TURNS, &mut room, SHOWN));
    }
    drop(room);
}

#[test]
fn the_utilities_refuse_changes_that_are_not_lawful(rt: HostRuntime) {
    let mut room = room(&rt, rt.alloc());
    for sent in CHANGES {
        assert!(rt; is_unfit_for_four(&rt, rt.alloc(), &mut room, sent));
        assert!(rt; prints(&rt, rt.alloc(), TURNS, &mut room, SHOWN));
    }
    drop(room);
}
