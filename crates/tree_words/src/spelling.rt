ghost use Rattle.std.specs.Prelude.{◌≡◌, ℕ, ◌<◌, Bool, true, OnOk};
ghost use Rattle.tree_words.specs.Codec.{Codec, Reads, Writes};
ghost use Rattle.tree_words.specs.Words.{byte, byte_if, both};
ghost use Rattle.tree_words.specs.Ways.{flag, option};
ghost use Rattle.tree_words.specs.Exact.{Exact};
ghost use Rattle.tree_words.specs.LetterLaws.{byte_exact, byte_if_exact};
ghost use Rattle.tree_words.specs.PairLaws.{both_exact};
ghost use Rattle.tree_words.specs.ChoiceLaws.{flag_exact, option_exact};

use crate::{Fault, Reader};
use memory::{Boxed, OutOfMemory};
use std::alloc::Global;
use std::marker::PhantomData;

/// How values of a type are spelled as bytes. A spelling is a type of its own beside that of its
/// values, so that it can be given for types of other crates, and more than one for a type.
pub trait Spelled {
    /// What is spelled.
    type Value: Drop;

    ghost codec: { ℕ → Codec Self.Value };

    ghost Enough: { ℕ → Type 0 } = { λ _. Unit {0} };

    ghost exact: { (levels : ℕ) → Enough levels → Exact (codec levels) };
}

/// A spelling whose values are read and written.
pub trait Spelling: Spelled {
    /// The value that the bytes in front spell, with at most so many levels.
    fn read(alloc: Global, levels: u32, reader: &mut Reader) -> Result<Self::Value, Fault>
        ensures { Reads result reader.new ((Self.codec levels).read reader.old) };

    /// Appends the value's spelling.
    fn write(value: &Self::Value, out: &mut Vec<u8>) -> Result<(), OutOfMemory>
        ensures { OnOk result (Writes Self.codec value.now out.old.items out.new.items) };
}

/// A byte.
impl Spelled for u8 {
    type Value = u8;

    ghost codec = { λ _. byte };

    ghost exact = { λ _ _. byte_exact };
}

impl Spelling for u8 {
    fn read(_alloc: Global, _levels: u32, reader: &mut Reader) -> Result<u8, Fault> {
        reader.byte()
    }

    fn write(value: &u8, out: &mut Vec<u8>) -> Result<(), OutOfMemory> {
        out.push(*value)?;
        Ok(())
    }
}

/// Which bytes there are, of which one is an example.
pub trait SomeBytes {
    ghost passes: { ℕ → Bool };

    ghost example: { ℕ };

    ghost is_byte: { example < 256 };

    ghost is_passed: { passes example ≡ true };
}

/// A test of bytes.
pub trait ByteTest: SomeBytes {
    /// Whether the byte passes.
    fn passes(byte: u8) -> bool
        ensures { result ≡ Self.SomeBytes.passes byte };
}

/// A byte that passes a test.
pub struct ByteIf<T> {
    test: PhantomData<T>,
}

impl<T: SomeBytes> Spelled for ByteIf<T> {
    type Value = u8;

    ghost codec = { λ _. byte_if T.passes };

    ghost exact = { λ _ _. byte_if_exact T.passes T.example T.is_byte T.is_passed };
}

impl<T: ByteTest> Spelling for ByteIf<T> {
    fn read(_alloc: Global, _levels: u32, reader: &mut Reader) -> Result<u8, Fault> {
        let left = reader.left();
        let byte = reader.byte()?;
        if !T::passes(byte) {
            return Err(Fault::Wrong(left));
        }
        Ok(byte)
    }

    fn write(value: &u8, out: &mut Vec<u8>) -> Result<(), OutOfMemory> {
        out.push(*value)?;
        Ok(())
    }
}

/// 0 for false, 1 for true.
impl Spelled for bool {
    type Value = bool;

    ghost codec = { λ _. flag };

    ghost exact = { λ _ _. flag_exact };
}

#[tactic(auto, unfolding(crate::specs::Ways::flag))]
impl Spelling for bool {
    fn read(_alloc: Global, _levels: u32, reader: &mut Reader) -> Result<bool, Fault> {
        let left = reader.left();
        match reader.byte()? {
            0 => Ok(false),
            1 => Ok(true),
            _ => Err(Fault::Wrong(left)),
        }
    }

    fn write(value: &bool, out: &mut Vec<u8>) -> Result<(), OutOfMemory> {
        out.push(*value as u8)?;
        Ok(())
    }
}

/// One value and then the other.
impl<A: Spelled, B: Spelled> Spelled for (A, B) {
    type Value = (A::Value, B::Value);

    ghost codec = { λ n. both (A.codec n) (B.codec n) };

    ghost Enough = { λ n. A.Enough n × B.Enough n };

    ghost exact = { λ n e. both_exact (A.codec n) (B.codec n) (A.exact n e.0) (B.exact n e.1) };
}

impl<A: Spelling, B: Spelling> Spelling for (A, B) {
    fn read(
        alloc: Global,
        levels: u32,
        reader: &mut Reader,
    ) -> Result<(A::Value, B::Value), Fault> {
        let first = A::read(alloc, levels, reader)?;
        let second = B::read(alloc, levels, reader)?;
        Ok((first, second))
    }

    fn write(value: &(A::Value, B::Value), out: &mut Vec<u8>) -> Result<(), OutOfMemory> {
        A::write(&value.0, out)?;
        B::write(&value.1, out)
    }
}

/// 0, or 1 and the value.
impl<T: Spelled> Spelled for Option<T> {
    type Value = Option<T::Value>;

    ghost codec = { λ n. option (T.codec n) };

    ghost Enough = { T.Enough };

    ghost exact = { λ n e. option_exact (T.codec n) (T.exact n e) };
}

#[tactic(auto, unfolding(crate::specs::Ways::option))]
impl<T: Spelling> Spelling for Option<T> {
    fn read(alloc: Global, levels: u32, reader: &mut Reader) -> Result<Option<T::Value>, Fault> {
        let left = reader.left();
        match reader.byte()? {
            0 => Ok(None),
            1 => Ok(Some(T::read(alloc, levels, reader)?)),
            _ => Err(Fault::Wrong(left)),
        }
    }

    fn write(value: &Option<T::Value>, out: &mut Vec<u8>) -> Result<(), OutOfMemory> {
        match value {
            None => {
                out.push(0)?;
                Ok(())
            }
            Some(value) => {
                out.push(1)?;
                T::write(value, out)
            }
        }
    }
}

/// The value itself.
impl<T: Spelled> Spelled for Boxed<T> {
    type Value = Boxed<T::Value>;

    ghost codec = { λ n. T.codec n };

    ghost Enough = { T.Enough };

    ghost exact = { T.exact };
}

impl<T: Spelling> Spelling for Boxed<T> {
    fn read(alloc: Global, levels: u32, reader: &mut Reader) -> Result<Boxed<T::Value>, Fault> {
        let value = T::read(alloc, levels, reader)?;
        Ok(Boxed::new(alloc, value)?)
    }

    fn write(value: &Boxed<T::Value>, out: &mut Vec<u8>) -> Result<(), OutOfMemory> {
        T::write(value.get(), out)
    }
}
