//! Lists: a count, and the items one behind the other.

ghost use Rattle.std.specs.Prelude.{◌≡◌, ℕ, ◌++◌, length, OnOk};
ghost use Rattle.tree_words.specs.Codec.{Reads, Writes};
ghost use Rattle.tree_words.specs.Words.{number16, number32, list, items_read, items_write, ItemsFit};
ghost use Rattle.tree_words.specs.NumberLaws.{number16_exact, number32_exact};
ghost use Rattle.tree_words.specs.ListLaws.{list_exact};

use crate::{Fault, Reader, Spelled, Spelling};
use memory::{List, OutOfMemory};
use std::alloc::Global;
use std::marker::PhantomData;

/// So many items. They lie in one vector, so an item takes memory of its own only where its type
/// wants it.
fn read_items<T: Spelling>(
    alloc: Global,
    levels: u32,
    count: u32,
    reader: &mut Reader,
) -> Result<List<T::Value>, Fault>
    ensures { Reads result reader.new (items_read (T.codec levels) count reader.old) }
{
    let mut items = Vec::new(alloc);
    for _ in 0..count {
        let item = T::read(alloc, levels, reader)?;
        items.push(item)?;
    }
    Ok(List::of(items))
}

fn write_items<T: Spelling>(items: &[T::Value], out: &mut Vec<u8>) -> Result<(), OutOfMemory>
    ensures { OnOk result ((levels : ℕ) → ItemsFit (T.codec levels) (length items.now) items.now →
        out.new.items ≡ out.old.items ++ items_write (T.codec levels) items.now) }
{
    for item in items {
        T::write(item, out)?;
    }
    Ok(())
}

/// Appends a count of two bytes and the items.
#[tactic(auto, unfolding(crate::specs::Words::list))]
pub fn write_many16<T: Spelling>(items: &[T::Value], out: &mut Vec<u8>) -> Result<(), OutOfMemory>
    ensures { OnOk result (Writes (λ n. list number16 (T.codec n)) items.now out.old.items out.new.items) }
{
    let count = (items.len() % 65_536) as u16;
    <u16 as Spelling>::write(&count, out)?;
    write_items::<T>(items, out)
}

/// Appends a count of four bytes and the items.
#[tactic(auto, unfolding(crate::specs::Words::list))]
pub fn write_many32<T: Spelling>(items: &[T::Value], out: &mut Vec<u8>) -> Result<(), OutOfMemory>
    ensures { OnOk result (Writes (λ n. list number32 (T.codec n)) items.now out.old.items out.new.items) }
{
    let count = (items.len() % 4_294_967_296) as u32;
    <u32 as Spelling>::write(&count, out)?;
    write_items::<T>(items, out)
}

/// A count of two bytes and the items.
impl<T: Spelled> Spelled for List<T> {
    type Value = List<T::Value>;

    ghost codec = { λ n. list number16 (T.codec n) };

    ghost Enough = { T.Enough };

    ghost exact = { λ n e. list_exact number16 (T.codec n) number16_exact (T.exact n e) };
}

#[tactic(auto, unfolding(crate::specs::Words::list))]
impl<T: Spelling> Spelling for List<T> {
    fn read(alloc: Global, levels: u32, reader: &mut Reader) -> Result<List<T::Value>, Fault> {
        let count = <u16 as Spelling>::read(alloc, levels, reader)?;
        read_items::<T>(alloc, levels, count as u32, reader)
    }

    fn write(value: &List<T::Value>, out: &mut Vec<u8>) -> Result<(), OutOfMemory> {
        write_many16::<T>(value.items(), out)
    }
}

/// A count of four bytes and the items.
pub struct Many32<T> {
    item: PhantomData<T>,
}

impl<T: Spelled> Spelled for Many32<T> {
    type Value = List<T::Value>;

    ghost codec = { λ n. list number32 (T.codec n) };

    ghost Enough = { T.Enough };

    ghost exact = { λ n e. list_exact number32 (T.codec n) number32_exact (T.exact n e) };
}

#[tactic(auto, unfolding(crate::specs::Words::list))]
impl<T: Spelling> Spelling for Many32<T> {
    fn read(alloc: Global, levels: u32, reader: &mut Reader) -> Result<List<T::Value>, Fault> {
        let count = <u32 as Spelling>::read(alloc, levels, reader)?;
        read_items::<T>(alloc, levels, count, reader)
    }

    fn write(value: &List<T::Value>, out: &mut Vec<u8>) -> Result<(), OutOfMemory> {
        write_many32::<T>(value.items(), out)
    }
}
