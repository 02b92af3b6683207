//! Permits and integrity rules as bytes.

ghost use Rattle.std.specs.Prelude.{◌≤◌};
ghost use Rattle.quel_tree.specs.PermitLaws.{permit_exact, rule_exact};
ghost use Rattle.quel_tree.specs.Permits.{permit, rule};

use crate::{NameTree, QualTree};
use calculus::{Permit, Rule};
use memory::{List, OutOfMemory};
use std::alloc::Global;
use tree_words::{Fault, Reader, Spelled, Spelling, fields2, fields5};

/// The spelling of a permit: its number in four bytes, its operations, the places of its attributes behind
/// a count of two bytes, its user, and its qualification.
pub struct PermitTree;

impl Spelled for PermitTree {
    type Value = Permit;

    ghost codec = { permit };

    ghost Enough = { λ n. 1 ≤ n };

    ghost exact = { permit_exact };
}

#[tactic(auto, unfolding(crate::specs::Permits::permit))]
impl Spelling for PermitTree {
    fn read(alloc: Global, levels: u32, reader: &mut Reader) -> Result<Permit, Fault> {
        let (number, (ops, (attrs, (user, qual)))) = <(
            u32,
            (u8, (List<u8>, (Option<NameTree>, QualTree))),
        ) as Spelling>::read(alloc, levels, reader)?;
        Ok(Permit {
            number,
            ops,
            attrs,
            user,
            qual,
        })
    }

    fn write(value: &Permit, out: &mut Vec<u8>) -> Result<(), OutOfMemory> {
        fields5::<u32, u8, List<u8>, Option<NameTree>, QualTree>(
            &value.number,
            &value.ops,
            &value.attrs,
            &value.user,
            &value.qual,
            out,
        )
    }
}

/// The spelling of an integrity rule: its number in four bytes, and its qualification.
pub struct RuleTree;

impl Spelled for RuleTree {
    type Value = Rule;

    ghost codec = { rule };

    ghost Enough = { λ n. 1 ≤ n };

    ghost exact = { rule_exact };
}

#[tactic(auto, unfolding(crate::specs::Permits::rule))]
impl Spelling for RuleTree {
    fn read(alloc: Global, levels: u32, reader: &mut Reader) -> Result<Rule, Fault> {
        let (number, qual) = <(u32, QualTree) as Spelling>::read(alloc, levels, reader)?;
        Ok(Rule { number, qual })
    }

    fn write(value: &Rule, out: &mut Vec<u8>) -> Result<(), OutOfMemory> {
        fields2::<u32, QualTree>(&value.number, &value.qual, out)
    }
}
