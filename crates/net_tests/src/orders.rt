// Four players print the same, whatever the order of their turns, the room in the pipes, and the base.
ghost use Rattle.std.specs.Prelude.{◌≤◌, All, IsTrue};

use crate::fickle::Fickle;
use crate::players::{Act, Move, Player};
use base_trait::Base;
use calculus::Name;
use fault_io::{MemShelf, MemSink, MemSource};
use net_core::{Moved, Net, Room, WorkFault, net_ended, net_step, net_turns};
use plain_base::DbPlain;
use std::alloc::Global;
use std::collections::VecDeque;
use std::process::Abort;
use std::test::*;

type Four = Net<Player, Player, Player, Player>;

/// A room in memory over this base.
pub(crate) type Over<B> = Room<B, MemShelf, MemSource, MemSink>;

pub(crate) type Memory = Over<DbPlain>;

pub(crate) const ONE: [Move; 6] = [
    Move {
        act: Act::Print,
        left: b"",
        right: b"abc",
    },
    Move {
        act: Act::TakeRight,
        left: b"",
        right: b"",
    },
    Move {
        act: Act::TakeRight,
        left: b"",
        right: b"",
    },
    Move {
        act: Act::TakeRight,
        left: b"",
        right: b"j",
    },
    Move {
        act: Act::TakeRight,
        left: b"",
        right: b"",
    },
    Move {
        act: Act::Print,
        left: b"",
        right: b"",
    },
];

const TWO: [Move; 7] = [
    Move {
        act: Act::TakeLeft,
        left: b"k",
        right: b"",
    },
    Move {
        act: Act::TakeLeft,
        left: b"",
        right: b"",
    },
    Move {
        act: Act::TakeLeft,
        left: b"",
        right: b"",
    },
    Move {
        act: Act::Print,
        left: b"",
        right: b"de",
    },
    Move {
        act: Act::TakeRight,
        left: b"lm",
        right: b"",
    },
    Move {
        act: Act::TakeRight,
        left: b"",
        right: b"",
    },
    Move {
        act: Act::TakeLeft,
        left: b"n",
        right: b"",
    },
];

pub(crate) const THREE: [Move; 5] = [
    Move {
        act: Act::TakeLeft,
        left: b"",
        right: b"",
    },
    Move {
        act: Act::TakeLeft,
        left: b"",
        right: b"",
    },
    Move {
        act: Act::Print,
        left: b"",
        right: b"fg",
    },
    Move {
        act: Act::TakeRight,
        left: b"o",
        right: b"",
    },
    Move {
        act: Act::TakeRight,
        left: b"p",
        right: b"",
    },
];

const FOUR: [Move; 3] = [
    Move {
        act: Act::TakeLeft,
        left: b"",
        right: b"",
    },
    Move {
        act: Act::TakeLeft,
        left: b"",
        right: b"",
    },
    Move {
        act: Act::Print,
        left: b"hi",
        right: b"",
    },
];

/// What they print: what the first took.
const PRINTED: &[u8] = b"klmn";

fn players<R: Abort>(rt: &R, alloc: Global, capacity: usize) -> Four {
    Net {
        one: Player::new(alloc, 1, &ONE),
        two: Player::new(alloc, 2, &TWO),
        three: Player::new(alloc, 3, &THREE),
        four: Player::new(alloc, 4, &FOUR),
        a: VecDeque::new(alloc),
        b: VecDeque::new(alloc),
        c: VecDeque::new(alloc),
        d: VecDeque::new(alloc),
        e: VecDeque::new(alloc),
        f: VecDeque::new(alloc),
        capacity,
    }
}

/// An empty database, no files, no script, and a sink whose calls with these numbers fail.
pub(crate) fn room<R: Abort>(rt: &R, alloc: Global, failing: &[u64]) -> Memory {
    let dba = Name::of(alloc, b"ingres")
        .expect(rt, "memory")
        .expect(rt, "a name");
    let shelf = MemShelf::new(alloc, Vec::new(alloc), Vec::new(alloc)).expect(rt, "memory");
    Room {
        base: DbPlain::new(alloc, dba),
        shelf,
        source: MemSource::new(Vec::new(alloc), Vec::new(alloc)),
        sink: MemSink::new(alloc, failing.to_vec(alloc).expect(rt, "memory")),
    }
}

/// The room, with a base of which nothing is known in place of its database.
pub(crate) fn unknown(room: Memory) -> Over<Fickle> {
    Room {
        base: Fickle::new(),
        shelf: room.shelf,
        source: room.source,
        sink: room.sink,
    }
}

/// A round in which each stage of the order takes so many steps.
pub(crate) fn round<R: Abort>(rt: &R, alloc: Global, order: [u8; 4], times: usize) -> Vec<u8> {
    let mut turns = Vec::new(alloc);
    for k in order {
        for _ in 0..times {
            turns.push(k).expect(rt, "memory");
        }
    }
    turns
}

/// The number is that of a stage.
fn is_stage(k: u8) -> bool
    ensures { IsTrue result → (1 ≤ k) × (k ≤ 4) }
{
    1 <= k && k <= 4
}

/// Each number of the list is that of a stage.
pub(crate) fn are_stages(turns: &[u8]) -> bool
    ensures { IsTrue result → All (λ k. (1 ≤ k) × (k ≤ 4)) turns.now }
{
    turns.iter().all(|k| is_stage(*k))
}

/// What the turns of a list come to; none where a number of the list is no stage's.
fn turned<B: Base>(
    alloc: Global,
    net: &mut Four,
    room: &mut Over<B>,
    turns: &[u8],
) -> Option<Result<(), WorkFault>> {
    if are_stages(turns) {
        Some(net_turns(alloc, net, room, turns))
    } else {
        None
    }
}

/// What a step of stage k comes to; none where there is no such stage.
fn stepped(
    alloc: Global,
    net: &mut Four,
    room: &mut Memory,
    k: u8,
) -> Option<Result<Moved, WorkFault>> {
    if is_stage(k) {
        Some(net_step(alloc, net, room, k))
    } else {
        None
    }
}

/// Steps the players round by round until they have ended, at most a hundred times; whether they have,
/// and printed what they are to.
fn plays_right<R: Abort, B: Base>(
    rt: &R,
    alloc: Global,
    order: [u8; 4],
    times: usize,
    capacity: usize,
    room: &mut Over<B>,
) -> bool {
    let mut net = players(rt, alloc, capacity);
    let turns = round(rt, alloc, order, times);
    for _ in 0..100 {
        if net_ended(&net) {
            break;
        }
        if turned(alloc, &mut net, room, &turns) != Some(Ok(())) {
            return false;
        }
    }
    net_ended(&net) && room.sink.bytes() == PRINTED
}

/// All orders of the four stages.
pub(crate) fn orders<R: Abort>(rt: &R, alloc: Global) -> Vec<[u8; 4]> {
    let mut orders = Vec::new(alloc);
    for number in 0..256_u16 {
        let order = stages_of(number);
        if is_order(&order) {
            orders.push(order).expect(rt, "memory");
        }
    }
    orders
}

/// Four stages, of which some may be the same, by the digits of a number to the base of four.
fn stages_of(number: u16) -> [u8; 4] {
    let digit = |place: u16| (number / place % 4 + 1) as u8;
    [digit(64), digit(16), digit(4), digit(1)]
}

fn is_order(order: &[u8; 4]) -> bool {
    [1, 2, 3, 4].iter().all(|stage| order.contains(stage))
}

#[test]
fn all_orders_print_the_same(rt: HostRuntime) {
    let orders = orders(&rt, rt.alloc());
    assert!(rt; orders.len() == 24);
    for order in &orders {
        for times in 1..5 {
            for capacity in [1, 2, 8] {
                let mut room = room(&rt, rt.alloc(), &[]);
                assert!(rt; plays_right(&rt, rt.alloc(), *order, times, capacity, &mut room));
                drop(room);
            }
        }
    }
    drop(orders);
}

#[test]
fn all_orders_print_the_same_over_a_base_of_which_nothing_is_known(rt: HostRuntime) {
    let orders = orders(&rt, rt.alloc());
    for order in &orders {
        let mut room = unknown(room(&rt, rt.alloc(), &[]));
        assert!(rt; plays_right(&rt, rt.alloc(), *order, 2, 1, &mut room));
        drop(room);
    }
    drop(orders);
}

/// Each step of a list: which stage, and whether it was blocked.
const STEPS: [(u8, Moved); 12] = [
    (4, Moved::Blocked),
    (2, Moved::Blocked),
    (1, Moved::Stepped),
    (1, Moved::Stepped),
    (1, Moved::Blocked),
    (2, Moved::Stepped),
    (1, Moved::Stepped),
    (2, Moved::Stepped),
    (2, Moved::Stepped),
    (1, Moved::Stepped),
    (1, Moved::Stepped),
    (3, Moved::Blocked),
];

#[test]
fn a_step_is_blocked_by_an_empty_and_by_a_full_pipe(rt: HostRuntime) {
    let mut net = players(&rt, rt.alloc(), 1);
    let mut room = room(&rt, rt.alloc(), &[]);
    for (k, moved) in &STEPS {
        assert!(rt; stepped(rt.alloc(), &mut net, &mut room, *k) == Some(Ok(*moved)));
        assert!(rt; !net_ended(&net));
    }
    drop(net);
    drop(room);
}

/// What the first player prints up to the call of the sink that fails.
const PRINTED_BEFORE: [(u64, &[u8]); 1] = [(0, b"")];

#[test]
fn a_sink_that_fails_ends_the_turns(rt: HostRuntime) {
    for (call, printed) in PRINTED_BEFORE {
        let mut net = players(&rt, rt.alloc(), 2);
        let mut room = room(&rt, rt.alloc(), &[call]);
        let mut turns = Vec::new(rt.alloc());
        for _ in 0..60 {
            turns.extend_from_slice(&[1, 2, 3, 4]).expect(&rt, "memory");
        }
        assert!(rt; turned(rt.alloc(), &mut net, &mut room, &turns) == Some(Err(WorkFault::Sink)));
        assert!(rt; room.sink.bytes() == printed);
        drop(turns);
        drop(net);
        drop(room);
    }
}
