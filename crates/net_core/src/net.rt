//! Four stages and the pipes between them.

ghost use Rattle.std.specs.Prelude.{◌≡◌, ◌≤◌, ◌↔◌, [], IfOk, IsTrue};
ghost use Rattle.network_meaning.specs.LocalSteps.{Mode.reading, Mode.idle2, Mode.idle3, Mode.idle4};
ghost use Rattle.network_meaning.specs.Network.{quiet_at};
ghost use Rattle.net_core.specs.Wants.{HasEnded};
ghost use Rattle.net_core.specs.Whole.{HaveEnded, shape, start_shape};
ghost use Rattle.quel_network.specs.Sorts.{User, first_monitor};

use crate::stage::{Stage, Want};
use frame_codec::Frame;
use memory::{OutOfMemory, both};
use std::alloc::Global;
use std::collections::VecDeque;

/// The line of four stages, with the pipes between them: A, B and C to the right, D, E and F back. Each
/// holds at most `capacity` frames.
///
/// ```text
///             A            B              C
///   monitor  --->  parser --->  processor ---> utilities
///            <---         <---            <---
///             F            E              D
/// ```
#[derive(Drop)]
pub struct Net<A1, A2, A3, A4> {
    /// The monitor.
    pub one: A1,
    /// The parser.
    pub two: A2,
    /// The query processor.
    pub three: A3,
    /// The utilities.
    pub four: A4,
    /// From the monitor to the parser.
    pub a: VecDeque<Frame>,
    /// From the parser to the query processor.
    pub b: VecDeque<Frame>,
    /// From the query processor to the utilities.
    pub c: VecDeque<Frame>,
    /// From the utilities to the query processor.
    pub d: VecDeque<Frame>,
    /// From the query processor to the parser.
    pub e: VecDeque<Frame>,
    /// From the parser to the monitor.
    pub f: VecDeque<Frame>,
    /// How many frames a pipe holds at most.
    pub capacity: usize,
}

impl<A1: Stage + Drop, A2: Stage + Drop, A3: Stage + Drop, A4: Stage + Drop> Net<A1, A2, A3, A4> {
    /// The four stages at the start, with empty pipes. The room for the frames is taken at once.
    pub fn new(
        alloc: Global,
        one: A1,
        two: A2,
        three: A3,
        four: A4,
        capacity: usize,
    ) -> Result<Net<A1, A2, A3, A4>, OutOfMemory>
        requires capacity { 1 ≤ capacity }
        requires first { A1.place one ≡ 1 }
        requires second { A2.place two ≡ 2 }
        requires third { A3.place three ≡ 3 }
        requires fourth { A4.place four ≡ 4 }
        requires served { (user : User) × A1.serves one user × A2.serves two user × A3.serves three user × A4.serves four user }
        requires reads { A1.state one ≡ quiet_at (reading first_monitor) }
        requires parser { A2.state two ≡ quiet_at (idle2 []) }
        requires processor { A3.state three ≡ quiet_at idle3 }
        requires utilities { A4.state four ≡ quiet_at idle4 }
        ensures stages { IfOk result (λ net. (net.one ≡ one) × (net.two ≡ two) × (net.three ≡ three) × (net.four ≡ four)) }
        ensures right { IfOk result (λ net. (net.a.items ≡ []) × (net.b.items ≡ []) × (net.c.items ≡ [])) }
        ensures left { IfOk result (λ net. (net.d.items ≡ []) × (net.e.items ≡ []) × (net.f.items ≡ [])) }
        ensures capacity { IfOk result (λ net. net.capacity ≡ capacity) }
        ensures start { IfOk result (λ net. shape A1.state A2.state A3.state A4.state net ≡ start_shape) }
    {
        let (right, left) = both(three_pipes(alloc, capacity), three_pipes(alloc, capacity))?;
        let Pipes {
            first: a,
            second: b,
            third: c,
        } = right;
        let Pipes {
            first: d,
            second: e,
            third: f,
        } = left;
        Ok(Net {
            one,
            two,
            three,
            four,
            a,
            b,
            c,
            d,
            e,
            f,
            capacity,
        })
    }
}

/// Three pipes.
#[derive(Drop)]
struct Pipes {
    first: VecDeque<Frame>,
    second: VecDeque<Frame>,
    third: VecDeque<Frame>,
}

/// Three empty pipes, with room for so many frames each.
fn three_pipes(alloc: Global, capacity: usize) -> Result<Pipes, OutOfMemory>
    ensures { IfOk result (λ pipes. (pipes.first.items ≡ []) × (pipes.second.items ≡ []) × (pipes.third.items ≡ [])) }
{
    let first = VecDeque::with_capacity(alloc, capacity)?;
    let second = VecDeque::with_capacity(alloc, capacity)?;
    let third = VecDeque::with_capacity(alloc, capacity)?;
    Ok(Pipes {
        first,
        second,
        third,
    })
}

/// Whether a stage has ended, with nothing to give.
fn has_ended<A: Stage>(stage: &A) -> bool
    ensures { IsTrue result ↔ HasEnded (A.state stage.now) }
{
    stage.want() == Want::Ended
}

/// Whether all four stages have ended.
pub fn net_ended<A1: Stage, A2: Stage, A3: Stage, A4: Stage>(net: &Net<A1, A2, A3, A4>) -> bool
    ensures { IsTrue result ↔ HaveEnded (shape A1.state A2.state A3.state A4.state net.now) }
{
    has_ended(&net.one) && has_ended(&net.two) && has_ended(&net.three) && has_ended(&net.four)
}
