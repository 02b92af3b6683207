//! Runs a user's script on an empty database in memory.

ghost use Rattle.std.specs.Prelude.{◌≡◌, map, string_bytes, true, IfOk};
ghost use Rattle.ingres_top.specs.Top.{are_try, user_of};
ghost use Rattle.ingres_top.specs.Trying.{TryDone, objects};

use crate::top::World;
use calculus::{Name, OutOfMemory};
use fault_io::{Shelf, Sink, Source};
use net_core::{Room, WorkFault};
use net_session::run_session;
use plain_base::DbPlain;
use std::alloc::Global;

/// The name of the user whom the words name.
fn user_among(alloc: Global, words: &[String]) -> Result<Name, OutOfMemory>
    requires { are_try (map string_bytes words.now) ≡ true }
    ensures { IfOk result (λ name. name ≡ user_of (map string_bytes words.now)) }
{
    let name = match words {
        [_, user] => Name::of(alloc, user.as_bytes())?,
        _ => None,
    };
    match name {
        Some(name) => Ok(name),
        None => Err(OutOfMemory),
    }
}

/// The name twice: for the stages, and for the database whose administrator the user is.
fn names(alloc: Global, words: &[String]) -> Result<(Name, Name), OutOfMemory>
    requires { are_try (map string_bytes words.now) ≡ true }
    ensures user { IfOk result (λ names. names.0 ≡ user_of (map string_bytes words.now)) }
    ensures administrator { IfOk result (λ names. names.1 ≡ user_of (map string_bytes words.now)) }
{
    let user = user_among(alloc, words)?;
    let administrator = user.copy(alloc)?;
    Ok((user, administrator))
}

/// A session of this user over an empty database of this administrator, which is given up at the end.
fn session<S: Source, K: Sink, H: Shelf>(
    alloc: Global,
    user: Name,
    administrator: Name,
    world: World<S, K, H>,
) -> (Result<(), WorkFault>, World<S, K, H>)
    requires { administrator ≡ user }
    ensures { TryDone user
        (objects H.files H.faults S.left S.given S.faults S.ended K.written K.faults K.stalls world)
        (objects H.files H.faults S.left S.given S.faults S.ended K.written K.faults K.stalls result.1) result.0 }
{
    let World {
        source,
        sink,
        shelf,
    } = world;
    let room = Room {
        base: DbPlain::new(alloc, administrator),
        shelf,
        source,
        sink,
    };
    let (outcome, room) = run_session(alloc, user, 0, room);
    let Room {
        base: _,
        shelf,
        source,
        sink,
    } = room;
    (
        outcome,
        World {
            source,
            sink,
            shelf,
        },
    )
}

/// Runs the script of the source for the user whom the words name, over the shelf, and gives what it
/// prints to the sink.
pub(crate) fn run_try<S: Source, K: Sink, H: Shelf>(
    alloc: Global,
    words: &[String],
    world: World<S, K, H>,
) -> (Result<(), WorkFault>, World<S, K, H>)
    requires { are_try (map string_bytes words.now) ≡ true }
    ensures { TryDone (user_of (map string_bytes words.now))
        (objects H.files H.faults S.left S.given S.faults S.ended K.written K.faults K.stalls world)
        (objects H.files H.faults S.left S.given S.faults S.ended K.written K.faults K.stalls result.1) result.0 }
{
    match names(alloc, words) {
        Ok((user, administrator)) => session(alloc, user, administrator, world),
        Err(OutOfMemory) => (Err(WorkFault::OutOfMemory), world),
    }
}
