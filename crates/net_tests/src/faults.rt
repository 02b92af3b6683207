// Streams with faults.
ghost use Rattle.std.specs.Prelude.{◌≡◌};

use crate::hearing::{hears, is_fed};
use frame_codec::{FrameFault, FrameReader};
use std::test::*;

const STREAMS: [(&[u8], &[u8], Result<(), FrameFault>); 12] = [
    (b"\x0a\x10\x01", b"", Err(FrameFault::TooLong { at: 1 })),
    (b"\x0b\x00\x01", b"", Err(FrameFault::TooLong { at: 1 })),
    (b"\x0b\x0f\xff", b"", Err(FrameFault::TooLong { at: 1 })),
    (b"\x02\x10\x00", b"", Err(FrameFault::TooLong { at: 1 })),
    (b"\x02\x10", b"", Ok(())),
    (
        b"\x0a\x00\x00\x0c",
        b"\x0a;",
        Err(FrameFault::BadKind { at: 3 }),
    ),
    (
        b"\x0a\x00\x00\x0c\x00",
        b"\x0a;",
        Err(FrameFault::BadKind { at: 3 }),
    ),
    (b"\x00", b"", Err(FrameFault::BadKind { at: 0 })),
    (b"\xff\x00\x00", b"", Err(FrameFault::BadKind { at: 0 })),
    (
        b"\x01\x00\x02ab\x06\x00\x00\x01\x20\x00",
        b"\x01ab;\x06;",
        Err(FrameFault::TooLong { at: 9 }),
    ),
    (
        b"\x01\x00\x02ab\x06\x00\x00\x01\x20",
        b"\x01ab;\x06;",
        Ok(()),
    ),
    (b"\x01\x00\x02a", b"", Ok(())),
];

#[test]
fn faults_stand_at_their_places(rt: HostRuntime) {
    for (stream, frames, answer) in &STREAMS {
        assert!(rt; hears(rt.alloc(), &rt, stream, &[1, 2, 3, 4096], (frames, *answer)));
    }
}

#[test]
fn a_fault_is_answered_again(rt: HostRuntime) {
    let fault = Err(FrameFault::BadKind { at: 3 });
    let mut reader = FrameReader::new(rt.alloc());
    assert!(rt; is_fed(&mut reader, b"\x0a\x00\x00\x0c", fault));
    assert!(rt; is_fed(&mut reader, b"\x0a\x00\x00", fault));
    assert!(rt; is_fed(&mut reader, b"", fault));
    assert!(rt; gives(&mut reader, 10));
    assert!(rt; is_fed(&mut reader, b"\x0a\x00\x00", fault));
    assert!(rt; reader.next().is_none());
    drop(reader);
}

/// Whether the next frame is there, and has this kind and no bytes.
fn gives(reader: &mut FrameReader, kind: u8) -> bool
    ensures left { reader.new.left ≡ reader.old.left }
    ensures place { reader.new.place ≡ reader.old.place }
{
    match reader.next() {
        Some(frame) => frame.kind == kind && frame.payload.items().is_empty(),
        None => false,
    }
}
