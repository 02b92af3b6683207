// What bytes are taken for: trees that are written again, or refused, and where.
ghost use Rattle.std.specs.Prelude.{◌≡◌, ◌≤◌, length};

use quel_tree::{Tree, TreeFault, tree_bytes, tree_of};
use std::alloc::Global;
use std::process::Abort;
use std::test::*;

/// Whether the tree that the bytes are is written as them again; where they are none, the place at
/// which they are refused.
pub fn read_back<T: Tree>(alloc: Global, rt: &impl Abort, bytes: &[u8]) -> Result<bool, u64> {
    match tree_of::<T>(alloc, bytes) {
        Ok(tree) => {
            let written = tree_bytes::<T>(alloc, &tree).expect(rt, "memory");
            let same = written.as_slice() == bytes;
            drop(tree);
            drop(written);
            Ok(same)
        }
        Err(TreeFault::NotATree { at }) => Err(at),
        Err(TreeFault::OutOfMemory) => rt.abort(),
    }
}

/// These bytes, one more, and those.
fn joined(alloc: Global, rt: &impl Abort, front: &[u8], byte: u8, behind: &[u8]) -> Vec<u8> {
    let mut bytes = front.to_vec(alloc).expect(rt, "memory");
    bytes.push(byte).expect(rt, "memory");
    bytes.extend_from_slice(behind).expect(rt, "memory");
    bytes
}

/// Whether each front of the bytes is refused at its end.
fn fronts_end_early<T: Tree>(alloc: Global, rt: &impl Abort, bytes: &[u8]) -> bool {
    for cut in 0..bytes.len() {
        if read_back::<T>(alloc, rt, bytes.split_at(cut).0) != Err(cut as u64) {
            return false;
        }
    }
    true
}

/// Whether a byte that follows the bytes is refused.
fn is_ended<T: Tree>(alloc: Global, rt: &impl Abort, bytes: &[u8]) -> bool {
    let longer = joined(alloc, rt, bytes, 0, b"");
    let answer = read_back::<T>(alloc, rt, &longer);
    drop(longer);
    answer == Err(bytes.len() as u64)
}

/// Whether the bytes with this one between are a tree that is written as them again, or are refused
/// there or behind.
fn is_read_back_from_there<T: Tree>(
    alloc: Global,
    rt: &impl Abort,
    front: &[u8],
    byte: u8,
    behind: &[u8],
) -> bool {
    let bytes = joined(alloc, rt, front, byte, behind);
    let length = bytes.len() as u64;
    let answer = read_back::<T>(alloc, rt, &bytes);
    drop(bytes);
    match answer {
        Ok(same) => same,
        Err(at) => front.len() as u64 <= at && at <= length,
    }
}

/// Whether that is so of several other bytes in this place.
fn others_are_read_back<T: Tree>(alloc: Global, rt: &impl Abort, bytes: &[u8], place: usize) -> bool
    requires { place ≤ length bytes.now }
{
    let (front, rest) = bytes.split_at(place);
    let Some((byte, behind)) = rest.split_first() else {
        return false;
    };
    let byte = *byte;
    for other in [
        byte ^ 1,
        byte.wrapping_add(1),
        byte.wrapping_add(128),
        0,
        255,
    ] {
        if other != byte && !is_read_back_from_there::<T>(alloc, rt, front, other, behind) {
            return false;
        }
    }
    true
}

/// Whether that is so in each place.
fn changes_are_read_back<T: Tree>(alloc: Global, rt: &impl Abort, bytes: &[u8]) -> bool {
    for place in 0..bytes.len() {
        if !others_are_read_back::<T>(alloc, rt, bytes, place) {
            return false;
        }
    }
    true
}

/// Whether the bytes are a tree that is written as them again, no front of them is one, nothing may
/// follow, and with a byte changed they are another tree or refused from there on.
pub fn is_tree<T: Tree>(alloc: Global, rt: &impl Abort, bytes: &[u8]) -> bool {
    read_back::<T>(alloc, rt, bytes) == Ok(true)
        && fronts_end_early::<T>(alloc, rt, bytes)
        && is_ended::<T>(alloc, rt, bytes)
        && changes_are_read_back::<T>(alloc, rt, bytes)
}

/// Whether all these bytes are such trees.
pub fn are_trees<T: Tree>(alloc: Global, rt: &impl Abort, all: &[&[u8]]) -> bool {
    for bytes in all {
        if !is_tree::<T>(alloc, rt, *bytes) {
            return false;
        }
    }
    true
}

/// Whether each of these bytes is refused at the place beside it.
pub fn are_refused<T: Tree>(alloc: Global, rt: &impl Abort, all: &[(&[u8], u64)]) -> bool {
    for (bytes, place) in all {
        if read_back::<T>(alloc, rt, *bytes) != Err(*place) {
            return false;
        }
    }
    true
}
