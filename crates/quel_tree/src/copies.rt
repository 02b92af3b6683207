//! The columns of files that are copied, as bytes.

ghost use Rattle.std.specs.Prelude.{◌≡◌, refl, ◌<◌};
ghost use Rattle.quel_tree.specs.Copies.{copy_col, copy_form, is_mark, is_number_size};
ghost use Rattle.quel_tree.specs.CopyLaws.{copy_col_exact, copy_form_exact, nine_is};
ghost use Rattle.quel_tree.specs.ValueLaws.{width_is};

use crate::values::Width;
use calculus::{CopyCol, CopyForm};
use memory::OutOfMemory;
use std::alloc::Global;
use tree_words::{
    ByteIf, ByteTest, Fault, Reader, SomeBytes, Spelled, Spelling, fields2, variant1,
};

/// How many bytes a number may have in a file.
struct NumberSize;

impl SomeBytes for NumberSize {
    ghost passes = { is_number_size };

    ghost example = { 1 };

    ghost is_byte = { width_is };

    ghost is_passed = { refl };
}

impl ByteTest for NumberSize {
    fn passes(byte: u8) -> bool {
        byte == 1 || byte == 2 || byte == 4
    }
}

/// The bytes that may end a column.
struct Mark;

impl SomeBytes for Mark {
    ghost passes = { is_mark };

    ghost example = { 9 };

    ghost is_byte = { nine_is };

    ghost is_passed = { refl };
}

impl ByteTest for Mark {
    fn passes(byte: u8) -> bool {
        byte == b'\t' || byte == b'\n' || byte == b' ' || byte == b',' || byte == b':'
    }
}

/// The spelling of a column's form: 0 and how many bytes its numbers have, 1, 2 or 4; 1 and how many bytes its
/// texts have, 1 to 255; or 2 and the byte that ends it, a tab, a newline, a blank, a comma or a colon.
pub struct CopyFormTree;

impl Spelled for CopyFormTree {
    type Value = CopyForm;

    ghost codec = { λ _. copy_form };

    ghost exact = { λ _ _. copy_form_exact };
}

#[tactic(auto, unfolding(crate::specs::Copies::copy_form))]
impl Spelling for CopyFormTree {
    fn read(alloc: Global, levels: u32, reader: &mut Reader) -> Result<CopyForm, Fault> {
        let left = reader.left();
        match reader.byte()? {
            0 => Ok(CopyForm::Bin(<ByteIf<NumberSize>>::read(alloc, levels, reader)?)),
            1 => Ok(CopyForm::Fixed(<ByteIf<Width>>::read(alloc, levels, reader)?)),
            2 => Ok(CopyForm::Until(<ByteIf<Mark>>::read(alloc, levels, reader)?)),
            _ => Err(Fault::Wrong(left)),
        }
    }

    fn write(value: &CopyForm, out: &mut Vec<u8>) -> Result<(), OutOfMemory> {
        match value {
            CopyForm::Bin(field) => variant1::<CopyFormTree, ByteIf<NumberSize>>(
                0, value, field, out,
            ),
            CopyForm::Fixed(field) => variant1::<CopyFormTree, ByteIf<Width>>(1, value, field, out),
            CopyForm::Until(field) => variant1::<CopyFormTree, ByteIf<Mark>>(2, value, field, out),
        }
    }
}

/// The spelling of a column: the place of its attribute and its form.
pub struct CopyColTree;

impl Spelled for CopyColTree {
    type Value = CopyCol;

    ghost codec = { λ _. copy_col };

    ghost exact = { λ _ _. copy_col_exact };
}

#[tactic(auto, unfolding(crate::specs::Copies::copy_col))]
impl Spelling for CopyColTree {
    fn read(alloc: Global, levels: u32, reader: &mut Reader) -> Result<CopyCol, Fault> {
        let attr = <u8 as Spelling>::read(alloc, levels, reader)?;
        let form = CopyFormTree::read(alloc, levels, reader)?;
        Ok(CopyCol { attr, form })
    }

    fn write(value: &CopyCol, out: &mut Vec<u8>) -> Result<(), OutOfMemory> {
        fields2::<u8, CopyFormTree>(&value.attr, &value.form, out)
    }
}
