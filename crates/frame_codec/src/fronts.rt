//! What stands at the front of bytes.

ghost use Rattle.std.specs.Prelude.{◌≡◌, ◌+◌, ◌++◌, length, slice_get};
ghost use Rattle.frame_codec.specs.Frames.{has_length, is_kind};
ghost use Rattle.frame_codec.specs.Reading.{front_of};
ghost use Rattle.frame_codec.specs.Sizes.{FitsInto, Outgrows};
ghost use Rattle.frame_codec.specs.declared.fronts.Front.TheVariants.{Part};

use crate::frame::{FULL, HEADER, MORE};

/// What stands at the front of bytes.
pub(crate) enum Front {
    /// A whole frame of this kind, whose payload has this size.
    Whole { kind: u8, size: usize },
    /// A part of a frame, or nothing.
    Part,
    /// A byte that is no kind.
    BadKind,
    /// A length that its kind doesn't have.
    TooLong,
}

/// Whether the byte is a kind.
fn is_kind(kind: u8) -> bool
    ensures { result ≡ is_kind kind }
{
    1 <= kind && kind <= MORE
}

/// Whether a frame of the kind may have so many bytes.
fn has_length(kind: u8, size: usize) -> bool
    ensures { result ≡ has_length kind size }
{
    if kind == MORE {
        size == FULL
    } else {
        size < FULL
    }
}

/// The byte at a place of two pieces, one behind the other.
fn byte_at(first: &[u8], then: &[u8], place: usize) -> Option<u8>
    ensures { result ≡ slice_get (first.now ++ then.now) place }
{
    if place < first.len() {
        return Some(first[place]);
    }
    then.get(place - first.len()).copied()
}

/// What stands at the front of two pieces, one behind the other.
pub(crate) fn front_of(first: &[u8], then: &[u8]) -> Front
    ensures front { result ≡ front_of (first.now ++ then.now) }
    ensures sizes { FitsInto result (length first.now + length then.now) }
    ensures outgrows { front_of first.now ≡ Part → Outgrows result (length first.now) }
{
    let Some(kind) = byte_at(first, then, 0) else {
        return Front::Part;
    };
    if !is_kind(kind) {
        return Front::BadKind;
    }
    let Some(high) = byte_at(first, then, 1) else {
        return Front::Part;
    };
    let Some(low) = byte_at(first, then, 2) else {
        return Front::Part;
    };
    let size = 256 * high as usize + low as usize;
    if !has_length(kind, size) {
        return Front::TooLong;
    }
    if first.len() + then.len() < HEADER + size {
        return Front::Part;
    }
    Front::Whole { kind, size }
}
