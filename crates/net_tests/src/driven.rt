// A stage that is driven by hand: it is led on until it wants a frame, and is given frames.
use crate::orders::Memory;
use frame_codec::Frame;
use memory::List;
use net_core::{Stage, TakeFault, Want, WorkFault};
use std::alloc::Global;
use std::process::Abort;

/// A frame: its kind and its payload.
pub(crate) type Sent = (u8, &'static [u8]);

/// The frame of this kind and this payload.
pub(crate) fn frame<R: Abort>(rt: &R, alloc: Global, kind: u8, payload: &[u8]) -> Frame {
    Frame {
        kind,
        payload: List::of(payload.to_vec(alloc).expect(rt, "memory")),
    }
}

/// Of a frame its kind, its payload and a semicolon, behind these bytes.
fn put<R: Abort>(rt: &R, bytes: &mut Vec<u8>, frame: &Frame) {
    bytes.push(frame.kind).expect(rt, "memory");
    bytes
        .extend_from_slice(frame.payload.items())
        .expect(rt, "memory");
    bytes.push(b';').expect(rt, "memory");
}

/// Leads a stage on for at most fifty steps while it works or gives; the frames that it gives.
pub(crate) fn led<R: Abort, A: Stage>(
    rt: &R,
    alloc: Global,
    stage: &mut A,
    room: &mut Memory,
) -> Vec<u8> {
    let mut given = Vec::new(alloc);
    for _ in 0..50 {
        match stage.want() {
            Want::Work => stage.work(alloc, room).expect(rt, "work"),
            Want::GiveLeft => put(rt, &mut given, &stage.give(alloc).expect(rt, "memory")),
            Want::GiveRight => put(rt, &mut given, &stage.give(alloc).expect(rt, "memory")),
            Want::TakeLeft => {}
            Want::TakeRight => {}
            Want::Ended => {}
        }
    }
    given
}

/// What a stage answers to a frame; none where it wants no frame.
pub(crate) fn takes<A: Stage>(
    alloc: Global,
    stage: &mut A,
    frame: Frame,
) -> Option<Result<(), TakeFault>> {
    match stage.want() {
        Want::TakeLeft => Some(stage.take(alloc, frame)),
        Want::TakeRight => Some(stage.take(alloc, frame)),
        Want::GiveLeft => None,
        Want::GiveRight => None,
        Want::Work => None,
        Want::Ended => None,
    }
}

/// What the work of a stage comes to; none where it doesn't want to work.
pub(crate) fn works<A: Stage>(
    alloc: Global,
    stage: &mut A,
    room: &mut Memory,
) -> Option<Result<(), WorkFault>> {
    match stage.want() {
        Want::Work => Some(stage.work(alloc, room)),
        Want::TakeLeft => None,
        Want::TakeRight => None,
        Want::GiveLeft => None,
        Want::GiveRight => None,
        Want::Ended => None,
    }
}

/// Whether a stage refuses the frame as unlawful, and then wants what it wanted before.
pub(crate) fn refuses<A: Stage>(alloc: Global, stage: &mut A, frame: Frame) -> bool {
    let wanted = stage.want();
    takes(alloc, stage, frame) == Some(Err(TakeFault::Unlawful)) && stage.want() == wanted
}

/// Whether a stage takes a frame, and, led on, gives these.
pub(crate) fn gives<R: Abort, A: Stage>(
    rt: &R,
    alloc: Global,
    stage: &mut A,
    room: &mut Memory,
    sent: Sent,
    given: &[u8],
) -> bool {
    let (kind, payload) = sent;
    takes(alloc, stage, frame(rt, alloc, kind, payload)) == Some(Ok(()))
        && led(rt, alloc, stage, room).as_slice() == given
}
