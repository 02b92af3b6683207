// Bytes that are made of pieces, and what they are taken for.
ghost use Rattle.std.specs.Prelude.{◌≡◌};

use crate::trees::read_back;
use memory::TryCopy;
use quel_tree::{Tree, TreeFault, tree_bytes, tree_of};
use std::alloc::Global;
use std::process::Abort;
use std::test::*;

/// Names of pieces of bytes that stand one behind the other; a number says how often the next one stands.
pub type Pieces = &'static [u8];

/// The name of a piece, and its bytes.
pub type Named = (&'static [u8], &'static [u8]);

/// Whether the tree that the pieces are is written as them again; where they are none, the place at
/// which they are refused.
pub type Answer = Result<bool, u64>;

pub const TREE: Answer = Ok(true);

/// The pieces that several tables have.
const COMMON: [Named; 7] = [
    // A whole number, and a text constant without bytes.
    (b"int", b"\x00\x00\x00\x00\x00\x00\x00\x00\x07"),
    (b"chars", b"\x01\x00"),
    (b"neg", b"\x03"),
    (b"true", b"\x00"),
    (b"not", b"\x05"),
    // A query without variables, up to the term of its only target.
    (b"target", b"\x00\x00\x00\x01\x01x\x01"),
    // A query without variables and targets, up to its qualification.
    (b"query", b"\x00\x00\x00\x00"),
];

/// The bytes of the piece of this name, where it is among these.
fn found(named: &[Named], name: &[u8]) -> Option<&'static [u8]> {
    for (known, bytes) in named {
        if *known == name {
            return Some(*bytes);
        }
    }
    None
}

/// The bytes of the piece of this name, which is among these or those that several tables have.
fn piece_of(rt: &impl Abort, named: &[Named], name: &[u8]) -> &'static [u8] {
    match found(named, name).or(found(&COMMON, name)) {
        Some(bytes) => bytes,
        None => panic!(*rt; "no such piece"),
    }
}

/// The number that a word is, where it has digits alone.
fn number_in(word: &[u8]) -> Option<usize> {
    let mut number = 0usize;
    for byte in word {
        if !byte.is_ascii_digit() {
            return None;
        }
        let digit = usize::from(byte.saturating_sub(b'0'));
        number = number.saturating_mul(10).saturating_add(digit);
    }
    Some(number)
}

/// Appends the piece so many times.
fn append(rt: &impl Abort, bytes: &mut Vec<u8>, piece: &[u8], times: usize) {
    for _ in 0..times {
        bytes.extend_from_slice(piece).expect(rt, "memory");
    }
}

/// The bytes of pieces, of which these have names of their own.
fn joined(alloc: Global, rt: &impl Abort, named: &[Named], pieces: Pieces) -> Vec<u8> {
    let mut bytes = Vec::new(alloc);
    let mut times = 1usize;
    for word in pieces.split(|byte| *byte == b' ') {
        match number_in(word) {
            Some(number) => times = number,
            None => {
                append(rt, &mut bytes, piece_of(rt, named, word), times);
                times = 1;
            }
        }
    }
    bytes
}

/// Whether a copy of the tree that the bytes are is written as them; so it is where they are none.
fn is_copied<T: Tree>(alloc: Global, rt: &impl Abort, bytes: &[u8]) -> bool
where
    T::Value: TryCopy,
{
    match tree_of::<T>(alloc, bytes) {
        Ok(tree) => {
            let copy = tree.copy(alloc).expect(rt, "memory");
            drop(tree);
            let written = tree_bytes::<T>(alloc, &copy).expect(rt, "memory");
            let same = written.as_slice() == bytes;
            drop(copy);
            drop(written);
            same
        }
        Err(TreeFault::NotATree { at: _ }) => true,
        Err(TreeFault::OutOfMemory) => rt.abort(),
    }
}

/// Whether the bytes are read back so, and a copy of the tree that they are is written as them, too.
fn is_answered<T: Tree>(
    alloc: Global,
    rt: &impl Abort,
    named: &[Named],
    pieces: Pieces,
    answer: Answer,
) -> bool
where
    T::Value: TryCopy,
{
    let bytes = joined(alloc, rt, named, pieces);
    let holds = read_back::<T>(alloc, rt, &bytes) == answer && is_copied::<T>(alloc, rt, &bytes);
    drop(bytes);
    holds
}

/// Whether all these pieces are answered as is said beside each.
pub fn are_answered<T: Tree>(
    alloc: Global,
    rt: &impl Abort,
    named: &[Named],
    all: &[(Pieces, Answer)],
) -> bool
where
    T::Value: TryCopy,
{
    for (pieces, answer) in all {
        if !is_answered::<T>(alloc, rt, named, *pieces, *answer) {
            return false;
        }
    }
    true
}
