//! Runs sessions of several users one after the other over one database in memory.

use crate::trials::{joined, shelf, sink, source};
use calculus::Name;
use net_core::Room;
use net_session::run_session;
use plain_base::DbPlain;
use std::alloc::AllocGlobal;
use std::process::Abort;

/// A user, a batch of statements, and what it prints.
pub(crate) type Turn = (&'static [u8], &'static [u8], &'static [u8]);

fn name(rt: &(impl Abort + AllocGlobal), bytes: &[u8]) -> Name {
    let name = Name::of(rt.alloc(), bytes).expect(rt, "memory");
    name.expect(rt, "a name")
}

/// Runs a session of a user, of one batch, by the turns of a number, over a database, which comes back as it
/// left it.
fn run_batch(
    rt: &(impl Abort + AllocGlobal),
    base: DbPlain,
    user: &[u8],
    batch: &[u8],
    number: u32,
    out: &mut Vec<u8>,
) -> DbPlain {
    let room = Room {
        base,
        shelf: shelf(rt, &[], &[]),
        source: source(rt, &joined(rt, &[batch, b"\n\\g\n"]), &[]),
        sink: sink(rt, &[]),
    };
    let (outcome, room) = run_session(rt.alloc(), name(rt, user), number, room);
    outcome.expect(rt, "a whole session");
    out.extend_from_slice(room.sink.bytes())
        .expect(rt, "memory");
    let Room {
        base,
        shelf: _,
        source: _,
        sink: _,
    } = room;
    base
}

/// Whether each of these batches prints what it should, all on one database, whose administrator is ann.
/// Each session has the turns of a number of its own.
pub(crate) fn all_print(rt: &(impl Abort + AllocGlobal), turns: &[Turn]) -> bool {
    let mut base = DbPlain::new(rt.alloc(), name(rt, b"ann"));
    let mut printed = Vec::new(rt.alloc());
    let mut wanted = Vec::new(rt.alloc());
    let mut number: u32 = 0;
    for (user, batch, output) in turns {
        base = run_batch(rt, base, *user, *batch, number, &mut printed);
        wanted.extend_from_slice(*output).expect(rt, "memory");
        number = number.wrapping_add(1);
    }
    drop(base);
    printed == wanted
}
