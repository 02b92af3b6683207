//! Changes of a database as bytes.

ghost use Rattle.std.specs.Prelude.{◌≤◌};
ghost use Rattle.quel_tree.specs.ChangeLaws.{change_exact};
ghost use Rattle.quel_tree.specs.Changes.{change};

use crate::{
    NameTree, PermitTree, QueryTree, RelInfoTree, RelKeyTree, RowTree, RuleTree, SpecTree,
};
use calculus::DbChange;
use memory::{List, OutOfMemory};
use std::alloc::Global;
use tree_words::{Fault, Many32, Reader, Spelled, Spelling, variant1, variant2, variant3};

/// The spelling of a change of a database: 0 to 9 for rows that go and come, a relation with its rows, what
/// is destroyed, a structure, an index, a view, a permit, a rule, and permits or rules that go, and what it
/// is of. Counts of rows have four bytes, all others two.
pub struct DbChangeTree;

impl Spelled for DbChangeTree {
    type Value = DbChange;

    ghost codec = { change };

    ghost Enough = { λ n. 2 ≤ n };

    ghost exact = { change_exact };
}

#[tactic(auto, unfolding(crate::specs::Changes::change))]
impl Spelling for DbChangeTree {
    fn read(alloc: Global, levels: u32, reader: &mut Reader) -> Result<DbChange, Fault> {
        let left = reader.left();
        match reader.byte()? {
            0 => {
                let (rel, (remove, add)) = <(
                    RelKeyTree,
                    (Many32<RowTree>, Many32<RowTree>),
                ) as Spelling>::read(alloc, levels, reader)?;
                Ok(DbChange::Rows { rel, remove, add })
            }
            1 => {
                let (info, rows) = <(RelInfoTree, Many32<RowTree>) as Spelling>::read(
                    alloc, levels, reader,
                )?;
                Ok(DbChange::Create { info, rows })
            }
            2 => {
                let rels = <List<RelKeyTree> as Spelling>::read(alloc, levels, reader)?;
                Ok(DbChange::Destroy { rels })
            }
            3 => {
                let (rel, (to, keys)) = <(RelKeyTree, (SpecTree, List<u8>)) as Spelling>::read(
                    alloc, levels, reader,
                )?;
                Ok(DbChange::Modify { rel, to, keys })
            }
            4 => {
                let (base, (name, keys)) = <(RelKeyTree, (NameTree, List<u8>)) as Spelling>::read(
                    alloc, levels, reader,
                )?;
                Ok(DbChange::Index { base, name, keys })
            }
            5 => {
                let (info, query) = <(RelInfoTree, QueryTree) as Spelling>::read(
                    alloc, levels, reader,
                )?;
                Ok(DbChange::View { info, query })
            }
            6 => {
                let (rel, permit) = <(RelKeyTree, PermitTree) as Spelling>::read(
                    alloc, levels, reader,
                )?;
                Ok(DbChange::Permit { rel, permit })
            }
            7 => {
                let (rel, rule) = <(RelKeyTree, RuleTree) as Spelling>::read(
                    alloc, levels, reader,
                )?;
                Ok(DbChange::Rule { rel, rule })
            }
            8 => {
                let (rel, numbers) = <(RelKeyTree, List<u32>) as Spelling>::read(
                    alloc, levels, reader,
                )?;
                Ok(DbChange::DropPermits { rel, numbers })
            }
            9 => {
                let (rel, numbers) = <(RelKeyTree, List<u32>) as Spelling>::read(
                    alloc, levels, reader,
                )?;
                Ok(DbChange::DropRules { rel, numbers })
            }
            _ => Err(Fault::Wrong(left)),
        }
    }

    fn write(value: &DbChange, out: &mut Vec<u8>) -> Result<(), OutOfMemory> {
        match value {
            DbChange::Rows { rel, remove, add } => variant3::<
                DbChangeTree,
                RelKeyTree,
                Many32<RowTree>,
                Many32<RowTree>,
            >(0, value, rel, remove, add, out),
            DbChange::Create { info, rows } => variant2::<
                DbChangeTree,
                RelInfoTree,
                Many32<RowTree>,
            >(1, value, info, rows, out),
            DbChange::Destroy { rels } => variant1::<DbChangeTree, List<RelKeyTree>>(
                2, value, rels, out,
            ),
            DbChange::Modify { rel, to, keys } => variant3::<
                DbChangeTree,
                RelKeyTree,
                SpecTree,
                List<u8>,
            >(3, value, rel, to, keys, out),
            DbChange::Index { base, name, keys } => variant3::<
                DbChangeTree,
                RelKeyTree,
                NameTree,
                List<u8>,
            >(4, value, base, name, keys, out),
            DbChange::View { info, query } => variant2::<DbChangeTree, RelInfoTree, QueryTree>(
                5, value, info, query, out,
            ),
            DbChange::Permit { rel, permit } => variant2::<DbChangeTree, RelKeyTree, PermitTree>(
                6, value, rel, permit, out,
            ),
            DbChange::Rule { rel, rule } => variant2::<DbChangeTree, RelKeyTree, RuleTree>(
                7, value, rel, rule, out,
            ),
            DbChange::DropPermits { rel, numbers } => variant2::<
                DbChangeTree,
                RelKeyTree,
                List<u32>,
            >(8, value, rel, numbers, out),
            DbChange::DropRules { rel, numbers } => variant2::<DbChangeTree, RelKeyTree, List<u32>>(
                9, value, rel, numbers, out,
            ),
        }
    }
}
