// Streams of lawful frames.
ghost use Rattle.std.specs.Prelude.{◌≡◌, ◌<◌, ◌≤◌, length};

use crate::hearing::{given, hears, is_fed};
use frame_codec::{Frame, FrameReader, frame_bytes};
use memory::List;
use std::alloc::Global;
use std::process::Abort;
use std::test::*;

/// The bytes of a frame of a kind that isn't More.
fn spelled(alloc: Global, rt: &impl Abort, kind: u8, payload: &[u8]) -> Vec<u8> {
    assert!(rt; 1 <= kind && kind <= 10);
    assert!(rt; payload.len() < 4096);
    let payload = payload.to_vec(alloc).expect(rt, "memory");
    let frame = Frame {
        kind,
        payload: List::of(payload),
    };
    let bytes = frame_bytes(alloc, &frame).expect(rt, "memory");
    drop(frame);
    bytes
}

/// Whether a frame has these bytes.
fn is_spelled(alloc: Global, rt: &impl Abort, kind: u8, payload: &[u8], expected: &[u8]) -> bool {
    let bytes = spelled(alloc, rt, kind, payload);
    let same = bytes.as_slice() == expected;
    drop(bytes);
    same
}

/// The bytes of a frame behind which its message goes on, of so many x.
fn more(alloc: Global, rt: &impl Abort) -> Vec<u8> {
    let payload = [b'x'; 4096].to_vec(alloc).expect(rt, "memory");
    let frame = Frame {
        kind: 11,
        payload: List::of(payload),
    };
    let bytes = frame_bytes(alloc, &frame).expect(rt, "memory");
    drop(frame);
    bytes
}

/// Whether the reader has no frame to give.
fn gives_nothing(reader: &mut FrameReader) -> bool
    ensures left { reader.new.left ≡ reader.old.left }
    ensures place { reader.new.place ≡ reader.old.place }
{
    reader.next().is_none()
}

/// Whether the reader gives these frames.
fn is_given(alloc: Global, rt: &impl Abort, reader: &mut FrameReader, frames: &[u8]) -> bool {
    let bytes = given(alloc, rt, reader);
    let same = bytes.as_slice() == frames;
    drop(bytes);
    same
}

#[test]
fn a_frame_comes_in_three_pieces(rt: HostRuntime) {
    let mut reader = FrameReader::new(rt.alloc());
    assert!(rt; is_fed(&mut reader, b"\x0a", Ok(())));
    assert!(rt; gives_nothing(&mut reader));
    assert!(rt; is_fed(&mut reader, b"\x00", Ok(())));
    assert!(rt; gives_nothing(&mut reader));
    assert!(rt; is_fed(&mut reader, b"\x00", Ok(())));
    assert!(rt; is_given(rt.alloc(), &rt, &mut reader, b"\x0a;"));
    assert!(rt; gives_nothing(&mut reader));
    drop(reader);
}

/// Whether there are so many bytes, and they begin with these.
fn begins(bytes: Vec<u8>, length: usize, front: &[u8]) -> bool {
    let begins = bytes.len() == length && bytes.starts_with(front);
    drop(bytes);
    begins
}

const SPELLED: [(u8, &[u8], &[u8]); 11] = [
    (1, b"", b"\x01\x00\x00"),
    (1, b"retrieve", b"\x01\x00\x08retrieve"),
    (2, b"t", b"\x02\x00\x01t"),
    (3, b"h", b"\x03\x00\x01h"),
    (4, b"r;", b"\x04\x00\x02r;"),
    (5, b"c", b"\x05\x00\x01c"),
    (6, b"", b"\x06\x00\x00"),
    (7, b"n", b"\x07\x00\x01n"),
    (8, b"d", b"\x08\x00\x01d"),
    (9, b"\xff", b"\x09\x00\x01\xff"),
    (10, b"", b"\x0a\x00\x00"),
];

#[test]
fn each_kind_is_spelled(rt: HostRuntime) {
    for (kind, payload, expected) in &SPELLED {
        assert!(rt; is_spelled(rt.alloc(), &rt, *kind, payload, expected));
    }
    let long = [b'l'; 4095];
    assert!(rt; begins(spelled(rt.alloc(), &rt, 9, &long), 4098, b"\x09\x0f\xffl"));
    assert!(rt; begins(more(rt.alloc(), &rt), 4099, b"\x0b\x10\x00x"));
}

/// A stream, and the frames that it has.
const STREAM: &[u8] =
    b"\x01\x00\x02ab\x02\x00\x00\x03\x00\x01c\x04\x00\x03def\x05\x00\x01;\x06\x00\x00\
        \x07\x00\x01g\x08\x00\x00\x09\x00\x01h\x0a\x00\x00\x01\x00\x05part";

const FRAMES: &[u8] = b"\x01ab;\x02;\x03c;\x04def;\x05;;\x06;\x07g;\x08;\x09h;\x0a;";

#[test]
fn a_stream_is_read_however_it_is_cut(rt: HostRuntime) {
    let sizes = [1, 2, 3, 4, 5, 7, 11, 4096];
    assert!(rt; hears(rt.alloc(), &rt, STREAM, &sizes, (FRAMES, Ok(()))));
}

/// The bytes of a message of kind 1 and 4,096 bytes, and what a reader is to give of it.
fn full_message(alloc: Global, rt: &impl Abort) -> (Vec<u8>, Vec<u8>) {
    let mut stream = more(alloc, rt);
    stream
        .extend_from_slice(b"\x01\x00\x00")
        .expect(rt, "memory");
    let mut frames = b"\x0b".to_vec(alloc).expect(rt, "memory");
    frames.extend_from_slice(&[b'x'; 4096]).expect(rt, "memory");
    frames.extend_from_slice(b";\x01;").expect(rt, "memory");
    (stream, frames)
}

/// Whether the reader gives that, in pieces of each of these sizes.
fn hears_message(alloc: Global, rt: &impl Abort, sizes: &[usize]) -> bool {
    let (stream, frames) = full_message(alloc, rt);
    let same = hears(alloc, rt, &stream, sizes, (&frames, Ok(())));
    drop(stream);
    drop(frames);
    same
}

#[test]
fn a_message_of_4096_bytes_has_two_frames(rt: HostRuntime) {
    let sizes = [1, 2, 3, 4095, 4096, 4099, 8192];
    assert!(rt; hears_message(rt.alloc(), &rt, &sizes));
}
