// Links and spawners in memory.
ghost use Rattle.std.specs.Prelude.{◌≡◌};

use fault_io::{Failed, Link, MemLink, MemSpawner, SinkFault, Spawner, write_all_to_link};
use std::alloc::Global;
use std::process::Abort;
use std::test::*;

fn numbers<R: Abort>(rt: &R, alloc: Global, numbers: &[u64]) -> Vec<u64> {
    numbers.to_vec(alloc).expect(rt, "memory")
}

fn link<R: Abort>(rt: &R, alloc: Global, bytes: &[u8], status: i32, failing: &[u64]) -> MemLink
    ensures { result.faults ≡ 0 }
{
    let bytes = bytes.to_vec(alloc).expect(rt, "memory");
    MemLink::new(alloc, bytes, status, numbers(rt, alloc, failing))
}

/// What a read with a buffer of three bytes answers, and the buffer after it.
fn read_three<L: Link>(link: &mut L) -> (Result<usize, Failed>, [u8; 3]) {
    let mut buf = [0; 3];
    (link.read(&mut buf), buf)
}

#[test]
fn the_calls_of_a_link_are_numbered_together(rt: HostRuntime) {
    let mut link = link(&rt, rt.alloc(), b"abcde", 7, &[1, 3, 5]);
    assert!(rt; read_three(&mut link) == (Ok(3), *b"abc"));
    assert!(rt; write_all_to_link(&mut link, b"xy") == Err(SinkFault::Failed));
    assert!(rt; write_all_to_link(&mut link, b"xy") == Ok(()));
    assert!(rt; read_three(&mut link) == (Err(Failed), [0; 3]));
    assert!(rt; read_three(&mut link) == (Ok(2), *b"de\0"));
    assert!(rt; link.finish() == Err(Failed));
    assert!(rt; link.finish() == Ok(7));
    assert!(rt; read_three(&mut link) == (Ok(0), [0; 3]));
    assert!(rt; link.written() == b"xy".as_slice());
    drop(link);
}

/// A link that takes at most so many bytes in a call, and from the given call on none.
#[derive(Drop)]
struct SlowLink {
    most: usize,
    full: u64,
    calls: u64,
    taken: Vec<u8>,
    stalls: u64,
}

impl Link for SlowLink {
    ghost use Rattle.std.specs.Prelude.{Some, []};

    ghost left = { λ _. Some [] };

    ghost written = { λ s. Some s.taken.items };

    ghost faults = { λ _. 18446744073709551615 };

    ghost stalls = { λ s. s.stalls };

    fn read(&mut self, _buf: &mut [u8]) -> Result<usize, Failed> {
        Ok(0)
    }

    fn write(&mut self, buf: &[u8]) -> Result<usize, Failed> {
        let count = if self.calls < self.full {
            buf.len().min(self.most)
        } else {
            0
        };
        if self.taken.extend_from_slice(&buf[..count]).is_err() {
            return Err(Failed);
        }
        self.calls = self.calls.saturating_add(1);
        if count == 0 {
            self.stalls = self.stalls.saturating_add(1);
        }
        Ok(count)
    }

    fn finish(&mut self) -> Result<i32, Failed> {
        Ok(0)
    }
}

#[test]
fn a_piece_goes_to_a_link_in_as_many_calls_as_it_needs(rt: HostRuntime) {
    let mut link = SlowLink {
        most: 2,
        full: 4,
        calls: 0,
        taken: Vec::new(rt.alloc()),
        stalls: 0,
    };
    assert!(rt; write_all_to_link(&mut link, b"abcde") == Ok(()));
    assert!(rt; write_all_to_link(&mut link, b"fghij") == Err(SinkFault::Stalled));
    assert!(rt; link.taken.as_slice() == b"abcdefg".as_slice());
    drop(link);
}

/// The bytes that the next link has to be read, or that none was started.
fn started<P: Spawner<Link = MemLink>>(spawner: &mut P) -> Result<[u8; 3], Failed> {
    let mut link = spawner.start(2)?;
    Ok(read_three(&mut link).1)
}

#[test]
fn a_spawner_gives_its_links_in_order(rt: HostRuntime) {
    let mut links = Vec::new(rt.alloc());
    links
        .push(link(&rt, rt.alloc(), b"one", 0, &[]))
        .expect(&rt, "memory");
    links
        .push(link(&rt, rt.alloc(), b"two", 0, &[]))
        .expect(&rt, "memory");
    let mut spawner = MemSpawner::new(links, numbers(&rt, rt.alloc(), &[1]));
    assert!(rt; started(&mut spawner) == Ok(*b"one"));
    assert!(rt; started(&mut spawner) == Err(Failed));
    assert!(rt; started(&mut spawner) == Ok(*b"two"));
    assert!(rt; started(&mut spawner) == Err(Failed));
    drop(spawner);
}
