//! A length byte and so many bytes, each of which passes a test, as names and texts are made of.

ghost use Rattle.std.specs.Prelude.{◌≡◌, ◌≤◌, ℕ, Bool, Ok, OnOk, MatchResult, length, take};
ghost use Rattle.tree_words.specs.Codec.{Writes};
ghost use Rattle.tree_words.specs.Words.{letter, short, spelt};
ghost use Rattle.tree_words.specs.Slices.{Fails};

use crate::{Fault, Reader};
use memory::OutOfMemory;

/// Which lengths there are, and which bytes may stand where.
pub trait Shape {
    ghost length_is: { ℕ → Bool };

    ghost stands: { ℕ → ℕ → ℕ → Bool };

    /// Whether there may be so many bytes.
    fn length_is(length: u8) -> bool
        ensures { result ≡ length_is length };

    /// Whether the byte may stand where so many bytes follow it, of this length altogether.
    fn stands(length: u8, following: u8, byte: u8) -> bool
        ensures { result ≡ stands length following byte };
}

fn pass_byte<S: Shape>(size: u8, following: u8, reader: &mut Reader) -> Result<u8, Fault>
    ensures { MatchResult result (λ b. (letter (S.stands size following)).read reader.old ≡ Ok (b, reader.new)) (Fails ((letter (S.stands size following)).read reader.old)) }
{
    let left = reader.left();
    let byte = reader.byte()?;
    if !S::stands(size, following, byte) {
        return Err(Fault::Wrong(left));
    }
    Ok(byte)
}

fn pass_over<S: Shape>(size: u8, reader: &mut Reader) -> Result<(), Fault>
    ensures { MatchResult result
        (λ _. (size ≤ length reader.old) × ((spelt (S.stands size) size).read reader.old ≡ Ok (take size reader.old, reader.new)))
        (Fails ((spelt (S.stands size) size).read reader.old)) }
{
    for passed in 0..size {
        pass_byte::<S>(size, size - 1 - passed, reader)?;
    }
    Ok(())
}

/// The bytes behind their length, lent from those that are read: no memory is taken.
#[tactic(auto, unfolding(crate::specs::Words::short))]
pub fn short_bytes<'a, S: Shape>(reader: &mut Reader<'a>) -> Result<&'a [u8], Fault>
    ensures { MatchResult result
        (λ s. (short S.length_is S.stands).read reader.old ≡ Ok (s.now, reader.new))
        (Fails ((short S.length_is S.stands).read reader.old)) }
{
    let left = reader.left();
    let size = reader.byte()?;
    if !S::length_is(size) {
        return Err(Fault::Wrong(left));
    }
    let bytes = reader.rest();
    pass_over::<S>(size, reader)?;
    Ok(bytes.split_at(size as usize).0)
}

/// Appends the bytes behind their length.
pub fn write_short<S: Shape>(bytes: &[u8], out: &mut Vec<u8>) -> Result<(), OutOfMemory>
    ensures { OnOk result (Writes (λ _. short S.length_is S.stands) bytes.now out.old.items out.new.items) }
{
    out.push((bytes.len() % 256) as u8)?;
    out.extend_from_slice(bytes)?;
    Ok(())
}
