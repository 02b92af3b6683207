//! What the query processor and the utilities are asked for, as bytes.

ghost use Rattle.std.specs.Prelude.{◌≤◌};
ghost use Rattle.quel_tree.specs.RequestLaws.{asked_exact, checked_exact, update_exact, utility_exact};
ghost use Rattle.quel_tree.specs.Requests.{asked, checked, update, utility};

use crate::{
    AttrTree, CharsTree, CopyColTree, NameTree, PermitTree, QualTree, QueryTree, RelKeyTree,
    RuleTree, SortKeyTree, SpecTree, UpdateOpTree,
};
use calculus::{Asked, Checked, Update, Utility};
use memory::{List, OutOfMemory};
use std::alloc::Global;
use tree_words::{
    Fault, Reader, Spelled, Spelling, fields2, fields7, variant1, variant2, variant3, variant4,
};

/// The spelling of a query whose rows are printed: the query, and the keys of the order behind a count of
/// two bytes.
pub struct AskedTree;

impl Spelled for AskedTree {
    type Value = Asked;

    ghost codec = { asked };

    ghost Enough = { λ n. 2 ≤ n };

    ghost exact = { asked_exact };
}

#[tactic(auto, unfolding(crate::specs::Requests::asked))]
impl Spelling for AskedTree {
    fn read(alloc: Global, levels: u32, reader: &mut Reader) -> Result<Asked, Fault> {
        let (query, sort) = <(QueryTree, List<SortKeyTree>) as Spelling>::read(
            alloc, levels, reader,
        )?;
        Ok(Asked { query, sort })
    }

    fn write(value: &Asked, out: &mut Vec<u8>) -> Result<(), OutOfMemory> {
        fields2::<QueryTree, List<SortKeyTree>>(&value.query, &value.sort, out)
    }
}

/// The spelling of an update: what it does, the relation, the variable of the old rows, the places of the
/// attributes, the query, what must hold of a new row, and for which new rows the user may.
pub struct UpdateTree;

impl Spelled for UpdateTree {
    type Value = Update;

    ghost codec = { update };

    ghost Enough = { λ n. 2 ≤ n };

    ghost exact = { update_exact };
}

#[tactic(auto, unfolding(crate::specs::Requests::update))]
impl Spelling for UpdateTree {
    fn read(alloc: Global, levels: u32, reader: &mut Reader) -> Result<Update, Fault> {
        let (op, (rel, (old, (places, (query, (checks, new_cut)))))) = <(
            UpdateOpTree,
            (
                RelKeyTree,
                (u8, (List<u8>, (QueryTree, (List<QualTree>, QualTree)))),
            ),
        ) as Spelling>::read(alloc, levels, reader)?;
        Ok(Update {
            op,
            rel,
            old,
            places,
            query,
            checks,
            new_cut,
        })
    }

    fn write(value: &Update, out: &mut Vec<u8>) -> Result<(), OutOfMemory> {
        fields7::<UpdateOpTree, RelKeyTree, u8, List<u8>, QueryTree, List<QualTree>, QualTree>(
            &value.op,
            &value.rel,
            &value.old,
            &value.places,
            &value.query,
            &value.checks,
            &value.new_cut,
            out,
        )
    }
}

/// The spelling of work for the utilities: 0 to 9 for to create, destroy, modify, index, copy, define a view,
/// a permit or a rule, and drop permits or rules, and what it is of.
pub struct UtilityTree;

impl Spelled for UtilityTree {
    type Value = Utility;

    ghost codec = { utility };

    ghost Enough = { λ n. 2 ≤ n };

    ghost exact = { utility_exact };
}

#[tactic(auto, unfolding(crate::specs::Requests::utility))]
impl Spelling for UtilityTree {
    fn read(alloc: Global, levels: u32, reader: &mut Reader) -> Result<Utility, Fault> {
        let left = reader.left();
        match reader.byte()? {
            0 => {
                let (rel, attrs) = <(RelKeyTree, List<AttrTree>) as Spelling>::read(
                    alloc, levels, reader,
                )?;
                Ok(Utility::Create { rel, attrs })
            }
            1 => {
                let rels = <List<RelKeyTree> as Spelling>::read(alloc, levels, reader)?;
                Ok(Utility::Destroy { rels })
            }
            2 => {
                let (rel, (to, keys)) = <(RelKeyTree, (SpecTree, List<u8>)) as Spelling>::read(
                    alloc, levels, reader,
                )?;
                Ok(Utility::Modify { rel, to, keys })
            }
            3 => {
                let (base, (name, keys)) = <(RelKeyTree, (NameTree, List<u8>)) as Spelling>::read(
                    alloc, levels, reader,
                )?;
                Ok(Utility::Index { base, name, keys })
            }
            4 => {
                let (rel, (columns, (from, file))) = <(
                    RelKeyTree,
                    (List<CopyColTree>, (bool, CharsTree)),
                ) as Spelling>::read(alloc, levels, reader)?;
                Ok(Utility::Copy {
                    rel,
                    columns,
                    from,
                    file,
                })
            }
            5 => {
                let (rel, query) = <(RelKeyTree, QueryTree) as Spelling>::read(
                    alloc, levels, reader,
                )?;
                Ok(Utility::View { rel, query })
            }
            6 => {
                let (rel, permit) = <(RelKeyTree, PermitTree) as Spelling>::read(
                    alloc, levels, reader,
                )?;
                Ok(Utility::Permit { rel, permit })
            }
            7 => {
                let (rel, rule) = <(RelKeyTree, RuleTree) as Spelling>::read(
                    alloc, levels, reader,
                )?;
                Ok(Utility::Rule { rel, rule })
            }
            8 => {
                let (rel, numbers) = <(RelKeyTree, List<u32>) as Spelling>::read(
                    alloc, levels, reader,
                )?;
                Ok(Utility::DropPermits { rel, numbers })
            }
            9 => {
                let (rel, numbers) = <(RelKeyTree, List<u32>) as Spelling>::read(
                    alloc, levels, reader,
                )?;
                Ok(Utility::DropRules { rel, numbers })
            }
            _ => Err(Fault::Wrong(left)),
        }
    }

    fn write(value: &Utility, out: &mut Vec<u8>) -> Result<(), OutOfMemory> {
        match value {
            Utility::Create { rel, attrs } => variant2::<UtilityTree, RelKeyTree, List<AttrTree>>(
                0, value, rel, attrs, out,
            ),
            Utility::Destroy { rels } => variant1::<UtilityTree, List<RelKeyTree>>(
                1, value, rels, out,
            ),
            Utility::Modify { rel, to, keys } => variant3::<
                UtilityTree,
                RelKeyTree,
                SpecTree,
                List<u8>,
            >(2, value, rel, to, keys, out),
            Utility::Index { base, name, keys } => variant3::<
                UtilityTree,
                RelKeyTree,
                NameTree,
                List<u8>,
            >(3, value, base, name, keys, out),
            Utility::Copy {
                rel,
                columns,
                from,
                file,
            } => variant4::<UtilityTree, RelKeyTree, List<CopyColTree>, bool, CharsTree>(
                4, value, rel, columns, from, file, out,
            ),
            Utility::View { rel, query } => variant2::<UtilityTree, RelKeyTree, QueryTree>(
                5, value, rel, query, out,
            ),
            Utility::Permit { rel, permit } => variant2::<UtilityTree, RelKeyTree, PermitTree>(
                6, value, rel, permit, out,
            ),
            Utility::Rule { rel, rule } => variant2::<UtilityTree, RelKeyTree, RuleTree>(
                7, value, rel, rule, out,
            ),
            Utility::DropPermits { rel, numbers } => variant2::<UtilityTree, RelKeyTree, List<u32>>(
                8, value, rel, numbers, out,
            ),
            Utility::DropRules { rel, numbers } => variant2::<UtilityTree, RelKeyTree, List<u32>>(
                9, value, rel, numbers, out,
            ),
        }
    }
}

/// The spelling of a statement whose names were found: 0 and queries behind a count of two bytes, 1 and an
/// update, or 2 and work for the utilities.
pub struct CheckedTree;

impl Spelled for CheckedTree {
    type Value = Checked;

    ghost codec = { checked };

    ghost Enough = { λ n. 2 ≤ n };

    ghost exact = { checked_exact };
}

#[tactic(auto, unfolding(crate::specs::Requests::checked))]
impl Spelling for CheckedTree {
    fn read(alloc: Global, levels: u32, reader: &mut Reader) -> Result<Checked, Fault> {
        let left = reader.left();
        match reader.byte()? {
            0 => Ok(Checked::Answer(<List<AskedTree> as Spelling>::read(alloc, levels, reader)?)),
            1 => Ok(Checked::Update(UpdateTree::read(alloc, levels, reader)?)),
            2 => Ok(Checked::Utility(UtilityTree::read(alloc, levels, reader)?)),
            _ => Err(Fault::Wrong(left)),
        }
    }

    fn write(value: &Checked, out: &mut Vec<u8>) -> Result<(), OutOfMemory> {
        match value {
            Checked::Answer(field) => variant1::<CheckedTree, List<AskedTree>>(
                0, value, field, out,
            ),
            Checked::Update(field) => variant1::<CheckedTree, UpdateTree>(1, value, field, out),
            Checked::Utility(field) => variant1::<CheckedTree, UtilityTree>(2, value, field, out),
        }
    }
}
