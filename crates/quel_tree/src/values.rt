//! Domains, kinds, values and rows as bytes.

ghost use Rattle.std.specs.Prelude.{◌≡◌, refl, ◌<◌};
ghost use Rattle.quel_tree.specs.Values.{domain, is_width, kind, row, value};
ghost use Rattle.quel_tree.specs.ValueLaws.{domain_exact, kind_exact, row_exact, value_exact, width_is};

use crate::TextTree;
use calculus::{Domain, Kind, Row, Value};
use memory::{List, OutOfMemory};
use std::alloc::Global;
use tree_words::{
    ByteIf, ByteTest, Fault, Reader, SomeBytes, Spelled, Spelling, variant0, variant1, write_many16,
};

/// The widths of texts, 1 to 255.
pub(crate) struct Width;

impl SomeBytes for Width {
    ghost passes = { is_width };

    ghost example = { 1 };

    ghost is_byte = { width_is };

    ghost is_passed = { refl };
}

impl ByteTest for Width {
    fn passes(byte: u8) -> bool {
        byte > 0
    }
}

/// The spelling of a domain: 0 to 2 for `i1`, `i2` and `i4`; 3 and the width, 1 to 255, for texts.
pub struct DomainTree;

impl Spelled for DomainTree {
    type Value = Domain;

    ghost codec = { λ _. domain };

    ghost exact = { λ _ _. domain_exact };
}

#[tactic(auto, unfolding(crate::specs::Values::domain))]
impl Spelling for DomainTree {
    fn read(alloc: Global, levels: u32, reader: &mut Reader) -> Result<Domain, Fault> {
        let left = reader.left();
        match reader.byte()? {
            0 => Ok(Domain::I1),
            1 => Ok(Domain::I2),
            2 => Ok(Domain::I4),
            3 => Ok(Domain::C(<ByteIf<Width>>::read(alloc, levels, reader)?)),
            _ => Err(Fault::Wrong(left)),
        }
    }

    fn write(value: &Domain, out: &mut Vec<u8>) -> Result<(), OutOfMemory> {
        match value {
            Domain::I1 => variant0::<DomainTree>(0, value, out),
            Domain::I2 => variant0::<DomainTree>(1, value, out),
            Domain::I4 => variant0::<DomainTree>(2, value, out),
            Domain::C(field) => variant1::<DomainTree, ByteIf<Width>>(3, value, field, out),
        }
    }
}

/// The spelling of a kind: 0 and a domain, or 1 for numbers of 64 bits.
pub struct KindTree;

impl Spelled for KindTree {
    type Value = Kind;

    ghost codec = { λ _. kind };

    ghost exact = { λ _ _. kind_exact };
}

#[tactic(auto, unfolding(crate::specs::Values::kind))]
impl Spelling for KindTree {
    fn read(alloc: Global, levels: u32, reader: &mut Reader) -> Result<Kind, Fault> {
        let left = reader.left();
        match reader.byte()? {
            0 => Ok(Kind::Of(DomainTree::read(alloc, levels, reader)?)),
            1 => Ok(Kind::Wide),
            _ => Err(Fault::Wrong(left)),
        }
    }

    fn write(value: &Kind, out: &mut Vec<u8>) -> Result<(), OutOfMemory> {
        match value {
            Kind::Of(field) => variant1::<KindTree, DomainTree>(0, value, field, out),
            Kind::Wide => variant0::<KindTree>(1, value, out),
        }
    }
}

/// The spelling of a value: 0 and a number in eight bytes, the highest first, or 1 and a text.
pub struct ValueTree;

impl Spelled for ValueTree {
    type Value = Value;

    ghost codec = { λ _. value };

    ghost exact = { λ _ _. value_exact };
}

#[tactic(auto, unfolding(crate::specs::Values::value))]
impl Spelling for ValueTree {
    fn read(alloc: Global, levels: u32, reader: &mut Reader) -> Result<Value, Fault> {
        let left = reader.left();
        match reader.byte()? {
            0 => Ok(Value::Int(<i64 as Spelling>::read(alloc, levels, reader)?)),
            1 => Ok(Value::Text(TextTree::read(alloc, levels, reader)?)),
            _ => Err(Fault::Wrong(left)),
        }
    }

    fn write(value: &Value, out: &mut Vec<u8>) -> Result<(), OutOfMemory> {
        match value {
            Value::Int(field) => variant1::<ValueTree, i64>(0, value, field, out),
            Value::Text(field) => variant1::<ValueTree, TextTree>(1, value, field, out),
        }
    }
}

/// The spelling of a row: a count of two bytes and the values.
pub struct RowTree;

impl Spelled for RowTree {
    type Value = Row;

    ghost codec = { λ _. row };

    ghost exact = { λ _ _. row_exact };
}

#[tactic(auto, unfolding(crate::specs::Values::row))]
impl Spelling for RowTree {
    fn read(alloc: Global, levels: u32, reader: &mut Reader) -> Result<Row, Fault> {
        let values = <List<ValueTree> as Spelling>::read(alloc, levels, reader)?;
        Ok(Row::of(values.into_items()))
    }

    fn write(value: &Row, out: &mut Vec<u8>) -> Result<(), OutOfMemory> {
        write_many16::<ValueTree>(value.values(), out)
    }
}
