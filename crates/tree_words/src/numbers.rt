//! Numbers of more than one byte, the highest first.

ghost use Rattle.tree_words.specs.Words.{number16, number32, number64};
ghost use Rattle.tree_words.specs.NumberLaws.{number16_exact, number32_exact, number64_exact};

use crate::{Fault, Reader, Spelled, Spelling};
use memory::OutOfMemory;
use std::alloc::Global;

/// Two bytes.
impl Spelled for u16 {
    type Value = u16;

    ghost codec = { λ _. number16 };

    ghost exact = { λ _ _. number16_exact };
}

#[tactic(auto, unfolding(crate::specs::Words::number16))]
impl Spelling for u16 {
    fn read(alloc: Global, levels: u32, reader: &mut Reader) -> Result<u16, Fault> {
        let (high, low) = <(u8, u8) as Spelling>::read(alloc, levels, reader)?;
        Ok(high as u16 * 256 + low as u16)
    }

    fn write(value: &u16, out: &mut Vec<u8>) -> Result<(), OutOfMemory> {
        let high = (*value / 256) as u8;
        let low = (*value % 256) as u8;
        <(u8, u8) as Spelling>::write(&(high, low), out)
    }
}

/// Four bytes.
impl Spelled for u32 {
    type Value = u32;

    ghost codec = { λ _. number32 };

    ghost exact = { λ _ _. number32_exact };
}

#[tactic(auto, unfolding(crate::specs::Words::number32))]
impl Spelling for u32 {
    fn read(alloc: Global, levels: u32, reader: &mut Reader) -> Result<u32, Fault> {
        let (high, low) = <(u16, u16) as Spelling>::read(alloc, levels, reader)?;
        Ok(high as u32 * 65_536 + low as u32)
    }

    fn write(value: &u32, out: &mut Vec<u8>) -> Result<(), OutOfMemory> {
        let high = (*value / 65_536) as u16;
        let low = (*value % 65_536) as u16;
        <(u16, u16) as Spelling>::write(&(high, low), out)
    }
}

/// Eight bytes, in two's complement.
impl Spelled for i64 {
    type Value = i64;

    ghost codec = { λ _. number64 };

    ghost exact = { λ _ _. number64_exact };
}

#[tactic(auto, unfolding(crate::specs::Words::number64))]
impl Spelling for i64 {
    fn read(alloc: Global, levels: u32, reader: &mut Reader) -> Result<i64, Fault> {
        let (high, low) = <(u32, u32) as Spelling>::read(alloc, levels, reader)?;
        let bits = high as u64 * 4_294_967_296 + low as u64;
        Ok(bits.cast_signed())
    }

    fn write(value: &i64, out: &mut Vec<u8>) -> Result<(), OutOfMemory> {
        let bits = value.cast_unsigned();
        let high = (bits / 4_294_967_296) as u32;
        let low = (bits % 4_294_967_296) as u32;
        <(u32, u32) as Spelling>::write(&(high, low), out)
    }
}
