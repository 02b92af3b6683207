// Sources and sinks, in memory and of a test's own.
use fault_io::{Failed, MemSink, MemSource, Sink, SinkFault, Source, write_all};
use std::alloc::Global;
use std::test::*;

/// What a call of a source with a buffer of three bytes answers, and the buffer after it.
fn read_three<S: Source>(source: &mut S) -> (Result<usize, Failed>, [u8; 3]) {
    let mut buf = [0; 3];
    (source.read(&mut buf), buf)
}

/// Gives three pieces to a sink.
fn write_three<K: Sink>(sink: &mut K) -> [Result<(), SinkFault>; 3] {
    [
        write_all(sink, b"abc"),
        write_all(sink, b"def"),
        write_all(sink, b"ghi"),
    ]
}

#[test]
fn a_source_goes_on_after_a_failed_call(rt: HostRuntime) {
    let bytes = b"abcdefg".to_vec(rt.alloc()).expect(&rt, "memory");
    let failing = [1].to_vec(rt.alloc()).expect(&rt, "memory");
    let mut source = MemSource::new(bytes, failing);
    for (answer, buf) in [
        (Ok(3), *b"abc"),
        (Err(Failed), [0; 3]),
        (Ok(3), *b"def"),
        (Ok(1), *b"g\0\0"),
        (Ok(0), [0; 3]),
        (Ok(0), [0; 3]),
    ] {
        assert!(rt; read_three(&mut source) == (answer, buf));
    }
    drop(source);
}

#[test]
fn a_sink_takes_nothing_of_a_failed_call(rt: HostRuntime) {
    let failing = [1].to_vec(rt.alloc()).expect(&rt, "memory");
    let mut sink = MemSink::new(rt.alloc(), failing);
    let answers = write_three(&mut sink);
    assert!(rt; answers == [Ok(()), Err(SinkFault::Failed), Ok(())]);
    assert!(rt; sink.bytes() == b"abcghi".as_slice());
    drop(sink);
}

#[test]
fn a_bounded_sink_takes_the_part_that_fits(rt: HostRuntime) {
    let mut sink = MemSink::upto(rt.alloc(), 4);
    let answers = write_three(&mut sink);
    assert!(rt; answers == [Ok(()), Err(SinkFault::Failed), Err(SinkFault::Failed)]);
    assert!(rt; sink.bytes() == b"abcd".as_slice());
    assert!(rt; sink.write(b"") == Ok(0));
    drop(sink);
}

/// A sink that takes at most so many bytes in a call.
#[derive(Drop)]
struct SlowSink {
    most: usize,
    taken: Vec<u8>,
    faults: u64,
    stalls: u64,
}

impl SlowSink {
    fn new(alloc: Global, most: usize) -> SlowSink {
        SlowSink {
            most,
            taken: Vec::new(alloc),
            faults: 0,
            stalls: 0,
        }
    }
}

impl Sink for SlowSink {
    ghost use Rattle.std.specs.Prelude.{Some};

    ghost written = { λ s. Some s.taken.items };

    ghost faults = { λ s. s.faults };

    ghost stalls = { λ s. s.stalls };

    fn write(&mut self, buf: &[u8]) -> Result<usize, Failed> {
        let count = buf.len().min(self.most);
        if self.taken.extend_from_slice(&buf[..count]).is_err() {
            self.faults = self.faults.saturating_add(1);
            return Err(Failed);
        }
        if count == 0 && !buf.is_empty() {
            self.stalls = self.stalls.saturating_add(1);
        }
        Ok(count)
    }
}

#[test]
fn a_piece_is_given_on_until_the_sink_takes_nothing(rt: HostRuntime) {
    let mut slow = SlowSink::new(rt.alloc(), 1);
    assert!(rt; write_three(&mut slow) == [Ok(()); 3]);
    assert!(rt; slow.taken.as_slice() == b"abcdefghi".as_slice());
    drop(slow);
    let mut stalled = SlowSink::new(rt.alloc(), 0);
    assert!(rt; write_three(&mut stalled) == [Err(SinkFault::Stalled); 3]);
    assert!(rt; write_all(&mut stalled, b"") == Ok(()));
    drop(stalled);
}
