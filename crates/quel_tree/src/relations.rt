//! What is known of relations, and the keys of an order, as bytes.

ghost use Rattle.std.specs.Prelude.{◌≡◌};
ghost use Rattle.quel_tree.specs.Relations.{attr, column, columns, rel_info, rel_key, sort_key, spec};
ghost use Rattle.quel_tree.specs.RelationLaws.{attr_exact, column_exact, columns_exact, rel_info_exact, rel_key_exact, sort_key_exact, spec_exact};

use crate::{KindTree, NameTree};
use calculus::{Attr, Column, RelInfo, RelKey, SortKey, Spec};
use memory::{List, OutOfMemory};
use std::alloc::Global;
use tree_words::{Fault, Reader, Spelled, Spelling, fields2, fields4, variant0};

/// The spelling of what a relation is: 0 to 2 for a heap, a hash and an isam file, 3 for a view, 4 for an index.
pub struct SpecTree;

impl Spelled for SpecTree {
    type Value = Spec;

    ghost codec = { λ _. spec };

    ghost exact = { λ _ _. spec_exact };
}

#[tactic(auto, unfolding(crate::specs::Relations::spec))]
impl Spelling for SpecTree {
    fn read(_alloc: Global, _levels: u32, reader: &mut Reader) -> Result<Spec, Fault> {
        let left = reader.left();
        match reader.byte()? {
            0 => Ok(Spec::Heap),
            1 => Ok(Spec::Hash),
            2 => Ok(Spec::Isam),
            3 => Ok(Spec::View),
            4 => Ok(Spec::Index),
            _ => Err(Fault::Wrong(left)),
        }
    }

    fn write(value: &Spec, out: &mut Vec<u8>) -> Result<(), OutOfMemory> {
        match value {
            Spec::Heap => variant0::<SpecTree>(0, value, out),
            Spec::Hash => variant0::<SpecTree>(1, value, out),
            Spec::Isam => variant0::<SpecTree>(2, value, out),
            Spec::View => variant0::<SpecTree>(3, value, out),
            Spec::Index => variant0::<SpecTree>(4, value, out),
        }
    }
}

/// The spelling of whose a relation is and of its name: both names.
pub struct RelKeyTree;

impl Spelled for RelKeyTree {
    type Value = RelKey;

    ghost codec = { λ _. rel_key };

    ghost exact = { λ _ _. rel_key_exact };
}

#[tactic(auto, unfolding(crate::specs::Relations::rel_key))]
impl Spelling for RelKeyTree {
    fn read(alloc: Global, levels: u32, reader: &mut Reader) -> Result<RelKey, Fault> {
        let owner = NameTree::read(alloc, levels, reader)?;
        let name = NameTree::read(alloc, levels, reader)?;
        Ok(RelKey { owner, name })
    }

    fn write(value: &RelKey, out: &mut Vec<u8>) -> Result<(), OutOfMemory> {
        fields2::<NameTree, NameTree>(&value.owner, &value.name, out)
    }
}

/// The spelling of an attribute: its name and its kind.
pub struct AttrTree;

impl Spelled for AttrTree {
    type Value = Attr;

    ghost codec = { λ _. attr };

    ghost exact = { λ _ _. attr_exact };
}

#[tactic(auto, unfolding(crate::specs::Relations::attr))]
impl Spelling for AttrTree {
    fn read(alloc: Global, levels: u32, reader: &mut Reader) -> Result<Attr, Fault> {
        let name = NameTree::read(alloc, levels, reader)?;
        let kind = KindTree::read(alloc, levels, reader)?;
        Ok(Attr { name, kind })
    }

    fn write(value: &Attr, out: &mut Vec<u8>) -> Result<(), OutOfMemory> {
        fields2::<NameTree, KindTree>(&value.name, &value.kind, out)
    }
}

/// The spelling of a key of an order: the column in two bytes, and whether it descends.
pub struct SortKeyTree;

impl Spelled for SortKeyTree {
    type Value = SortKey;

    ghost codec = { λ _. sort_key };

    ghost exact = { λ _ _. sort_key_exact };
}

#[tactic(auto, unfolding(crate::specs::Relations::sort_key))]
impl Spelling for SortKeyTree {
    fn read(alloc: Global, levels: u32, reader: &mut Reader) -> Result<SortKey, Fault> {
        let column = <u16 as Spelling>::read(alloc, levels, reader)?;
        let down = <bool as Spelling>::read(alloc, levels, reader)?;
        Ok(SortKey { column, down })
    }

    fn write(value: &SortKey, out: &mut Vec<u8>) -> Result<(), OutOfMemory> {
        fields2::<u16, bool>(&value.column, &value.down, out)
    }
}

/// The spelling of a column: its title and its kind.
pub struct ColumnTree;

impl Spelled for ColumnTree {
    type Value = Column;

    ghost codec = { λ _. column };

    ghost exact = { λ _ _. column_exact };
}

#[tactic(auto, unfolding(crate::specs::Relations::column))]
impl Spelling for ColumnTree {
    fn read(alloc: Global, levels: u32, reader: &mut Reader) -> Result<Column, Fault> {
        let name = NameTree::read(alloc, levels, reader)?;
        let kind = KindTree::read(alloc, levels, reader)?;
        Ok(Column { name, kind })
    }

    fn write(value: &Column, out: &mut Vec<u8>) -> Result<(), OutOfMemory> {
        fields2::<NameTree, KindTree>(&value.name, &value.kind, out)
    }
}

/// The spelling of the columns of a table: a count of two bytes, and the columns.
pub struct ColumnsTree;

impl Spelled for ColumnsTree {
    type Value = List<Column>;

    ghost codec = { λ _. columns };

    ghost exact = { λ _ _. columns_exact };
}

#[tactic(auto, unfolding(crate::specs::Relations::columns))]
impl Spelling for ColumnsTree {
    fn read(alloc: Global, levels: u32, reader: &mut Reader) -> Result<List<Column>, Fault> {
        <List<ColumnTree> as Spelling>::read(alloc, levels, reader)
    }

    fn write(value: &List<Column>, out: &mut Vec<u8>) -> Result<(), OutOfMemory> {
        <List<ColumnTree> as Spelling>::write(value, out)
    }
}

/// The spelling of what is known of a relation: its key, what it is, its attributes, and the places of
/// its key attributes, both behind a count of two bytes.
pub struct RelInfoTree;

impl Spelled for RelInfoTree {
    type Value = RelInfo;

    ghost codec = { λ _. rel_info };

    ghost exact = { λ _ _. rel_info_exact };
}

#[tactic(auto, unfolding(crate::specs::Relations::rel_info))]
impl Spelling for RelInfoTree {
    fn read(alloc: Global, levels: u32, reader: &mut Reader) -> Result<RelInfo, Fault> {
        let key = RelKeyTree::read(alloc, levels, reader)?;
        let spec = SpecTree::read(alloc, levels, reader)?;
        let attrs = <List<AttrTree> as Spelling>::read(alloc, levels, reader)?;
        let keys = <List<u8> as Spelling>::read(alloc, levels, reader)?;
        Ok(RelInfo {
            key,
            spec,
            attrs,
            keys,
        })
    }

    fn write(value: &RelInfo, out: &mut Vec<u8>) -> Result<(), OutOfMemory> {
        fields4::<RelKeyTree, SpecTree, List<AttrTree>, List<u8>>(
            &value.key,
            &value.spec,
            &value.attrs,
            &value.keys,
            out,
        )
    }
}
