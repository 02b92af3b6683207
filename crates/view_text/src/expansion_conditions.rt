//! The conditions of expansions whose variables stand one behind the other.

ghost use Rattle.std.specs.Prelude.{◌≡◌, ◌+◌, ◌-◌, ◌≤◌, ◌++◌, true, map, length, OnOk};
ghost use Rattle.std.specs.List.{list_all};
ghost use Rattle.view_text.specs.Fit.{AreFit};
ghost use Rattle.view_text.specs.Replaced.{shifted_qual};
ghost use Rattle.view_text.specs.Scoped.{is_qual_within, is_scoped};
ghost use Rattle.view_text.specs.Expansions.{conditions_from, expansions_vars};

use crate::Expansion;
use crate::shifted::shifted_qual;
use calculus::{OutOfMemory, QQual};
use std::alloc::Global;

/// Puts the qualifications, their variables so many places further on, behind those that are there.
fn put_shifted(
    alloc: Global,
    by: usize,
    quals: &[QQual],
    made: &mut Vec<QQual>,
) -> Result<(), OutOfMemory>
    requires { list_all (is_qual_within (256 - by)) quals.now ≡ true }
    ensures { OnOk result (made.new.items ≡ made.old.items ++ map (shifted_qual by) quals.now) }
{
    for qual in quals {
        made.push(shifted_qual(alloc, by, qual)?)?;
    }
    Ok(())
}

/// Puts the conditions of the expansions, whose variables stand from this place on, behind those that are there.
#[tactic(auto, using(crate::proofs::PutExpansion::conditions_fit, crate::proofs::PutExpansion::fit_next))]
fn substituted_from(
    alloc: Global,
    from: usize,
    expansions: &[Expansion],
    made: &mut Vec<QQual>,
) -> Result<(), OutOfMemory>
    requires { AreFit from expansions.now }
    ensures { OnOk result (made.new.items ≡ made.old.items ++ conditions_from from expansions.now) }
{
    match expansions.split_first() {
        None => Ok(()),
        Some((expansion, others)) => match put_shifted(
            alloc,
            from,
            expansion.conditions.items(),
            made,
        ) {
            Ok(()) => substituted_from(alloc, from + expansion.vars.items().len(), others, made),
            Err(error) => Err(error),
        },
    }
}

/// Puts the conditions of the expansions behind those that are there, where the expansions' variables stand one
/// behind the other.
pub fn conditions(
    alloc: Global,
    expansions: &[Expansion],
    made: &mut Vec<QQual>,
) -> Result<(), OutOfMemory>
    requires scoped { list_all is_scoped expansions.now ≡ true }
    requires fits { length (expansions_vars expansions.now) ≤ 256 }
    ensures { OnOk result (made.new.items ≡ made.old.items ++ conditions_from 0 expansions.now) }
{
    substituted_from(alloc, 0, expansions, made)
}
