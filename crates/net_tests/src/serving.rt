// A stage that serves everyone, over a database in memory and over one of which nothing is known.
use crate::carrier::Carrier;
use crate::orders::{room, unknown};
use base_trait::Base;
use fault_io::{MemShelf, MemSink, MemSource};
use frame_codec::Frame;
use net_core::{Room, Stage, Want};
use std::alloc::Global;
use std::test::*;

/// The kinds of frames that the carrier gives until it wants to take one: it works, and answers; none
/// where it does otherwise.
fn given<B: Base>(alloc: Global, room: &mut Room<B, MemShelf, MemSource, MemSink>) -> Option<u8> {
    let mut stage = Carrier::new();
    let Want::Work = stage.want() else {
        return None;
    };
    if stage.work(alloc, room).is_err() {
        return None;
    }
    let Want::GiveLeft = stage.want() else {
        return None;
    };
    match stage.give(alloc) {
        Ok(frame) => only_kind(&frame),
        Err(_) => None,
    }
}

/// The kind of a frame that has no bytes.
fn only_kind(frame: &Frame) -> Option<u8> {
    if frame.payload.items().is_empty() {
        Some(frame.kind)
    } else {
        None
    }
}

#[test]
fn a_change_is_carried_out_and_answered(rt: HostRuntime) {
    let mut known = room(&rt, rt.alloc(), &[]);
    assert!(rt; given(rt.alloc(), &mut known) == Some(8));
    assert!(rt; known.sink.bytes().is_empty());
    let mut unknown = unknown(known);
    assert!(rt; given(rt.alloc(), &mut unknown) == Some(8));
    drop(unknown);
}
