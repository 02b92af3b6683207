//! A session.

ghost use Rattle.calculus.specs.Who.{asker_of};
ghost use Rattle.net_core.specs.Known.{outside};
ghost use Rattle.net_session.specs.Made.{RanAll};
ghost use Rattle.net_session.specs.Session.{SessionDone};

use crate::rounds::run_rounds;
use crate::stages::stages;
use base_trait::Base;
use calculus::Name;
use fault_io::{Pieces, Shelf, Sink, Source};
use net_core::{Room, WorkFault};
use std::alloc::Global;

/// The four stages of a user over a room, by the rounds of turns that this number gives, until all have
/// ended.
fn run_stages<B: Base, H: Shelf, S: Source, K: Sink>(
    alloc: Global,
    user: Name,
    number: u32,
    room: &mut Room<B, H, S, K>,
) -> Result<(), WorkFault>
    ensures { RanAll (asker_of user) number
        (outside B.database B.faults B.clock B.reads H.files H.faults S.left S.given S.faults S.ended K.written K.faults K.stalls room.old)
        (outside B.database B.faults B.clock B.reads H.files H.faults S.left S.given S.faults S.ended K.written K.faults K.stalls room.new) result }
{
    let mut net = stages(alloc, user, number)?;
    run_rounds(alloc, &mut net, room, number)
}

/// The session of a user over a room: the four stages, by the rounds of turns that this number gives, until
/// all have ended. The script is read in pieces of at most 4,096 bytes; a piece that was read and isn't
/// asked for any more is lost.
pub fn run_session<B: Base, H: Shelf, S: Source, K: Sink>(
    alloc: Global,
    user: Name,
    number: u32,
    room: Room<B, H, S, K>,
) -> (Result<(), WorkFault>, Room<B, H, S, K>)
    ensures { SessionDone (asker_of user) number
        (outside B.database B.faults B.clock B.reads H.files H.faults S.left S.given S.faults S.ended K.written K.faults K.stalls room)
        (outside B.database B.faults B.clock B.reads H.files H.faults S.left S.given S.faults S.ended K.written K.faults K.stalls result.1) result.0 }
{
    let Room {
        base,
        shelf,
        source,
        sink,
    } = room;
    let mut room = Room {
        base,
        shelf,
        source: Pieces::new(source),
        sink,
    };
    let result = run_stages(alloc, user, number, &mut room);
    let Room {
        base,
        shelf,
        source,
        sink,
    } = room;
    let room = Room {
        base,
        shelf,
        source: source.into_source(),
        sink,
    };
    (result, room)
}
