// What bytes are read as and written again.
ghost use Rattle.std.specs.Prelude.{◌≡◌};

use std::alloc::Global;
use std::process::Abort;
use std::test::*;
use tree_words::{Fault, Spelling, read_whole, write_whole};

/// The fault of bytes, where they have one.
pub fn fault_of<S: Spelling>(alloc: Global, bytes: &[u8]) -> Option<Fault>
    requires { S.Enough 0 }
{
    match read_whole::<S>(alloc, 0, bytes) {
        Ok(value) => {
            drop(value);
            None
        }
        Err(fault) => Some(fault),
    }
}

/// Whether bytes are read, and the value that is read is written as them.
fn is_written_again<S: Spelling>(alloc: Global, rt: &impl Abort, bytes: &[u8]) -> bool
    requires { S.Enough 0 }
{
    match read_whole::<S>(alloc, 0, bytes) {
        Ok(value) => {
            let written = write_whole::<S>(alloc, &value).expect(rt, "memory");
            let same = written.as_slice() == bytes;
            drop(value);
            drop(written);
            same
        }
        Err(_) => false,
    }
}

/// Whether each front of the bytes ends too early.
fn fronts_end_early<S: Spelling>(alloc: Global, bytes: &[u8]) -> bool
    requires { S.Enough 0 }
{
    for cut in 0..bytes.len() {
        if fault_of::<S>(alloc, bytes.split_at(cut).0) != Some(Fault::Wrong(0)) {
            return false;
        }
    }
    true
}

/// Whether a byte that follows is wrong.
fn is_ended<S: Spelling>(alloc: Global, rt: &impl Abort, bytes: &[u8]) -> bool
    requires { S.Enough 0 }
{
    let mut longer = bytes.to_vec(alloc).expect(rt, "memory");
    longer.push(0).expect(rt, "memory");
    let fault = fault_of::<S>(alloc, &longer);
    drop(longer);
    fault == Some(Fault::Wrong(1))
}

/// Whether the bytes are read and written again, no front of them is read, and nothing may follow.
pub fn is_spelling<S: Spelling>(alloc: Global, rt: &impl Abort, bytes: &[u8]) -> bool
    requires { S.Enough 0 }
{
    is_written_again::<S>(alloc, rt, bytes)
        && fronts_end_early::<S>(alloc, bytes)
        && is_ended::<S>(alloc, rt, bytes)
}

/// Whether all these bytes are spellings.
pub fn are_spellings<S: Spelling>(alloc: Global, rt: &impl Abort, all: &[&[u8]]) -> bool
    requires { S.Enough 0 }
{
    for bytes in all {
        if !is_spelling::<S>(alloc, rt, *bytes) {
            return false;
        }
    }
    true
}

/// Bytes that are no spelling, and how many there are from the first wrong one on.
pub type Wrong<'a> = (&'a [u8], usize);

/// Whether all these bytes are wrong from that byte on.
pub fn are_wrong<S: Spelling>(alloc: Global, all: &[Wrong]) -> bool
    requires { S.Enough 0 }
{
    for (bytes, left) in all {
        if fault_of::<S>(alloc, *bytes) != Some(Fault::Wrong(*left)) {
            return false;
        }
    }
    true
}
