//! The qualification of a permit as a condition on rows.

ghost use Rattle.std.specs.Prelude.{◌≡◌, IfOk};
ghost use Rattle.view_text.specs.Replaced.{no_aggregate, of_only, replaced_in_qual};

use crate::putting::Substitution;
use crate::replaced::replaced_qual;
use crate::tree_parts::without_value;
use calculus::{OutOfMemory, QAgg, QQual, QTerm};
use std::alloc::Global;

/// The attributes of the only variable stay.
#[derive(Drop)]
struct OfOnly;

impl Substitution for OfOnly {
    ghost put = { λ only. of_only };

    ghost made = { λ _. no_aggregate };

    ghost fits = { λ only. Unit };

    fn put_attribute(&self, alloc: Global, var: u8, attr: u8) -> Result<QTerm, OutOfMemory> {
        if var == 0 {
            Ok(QTerm::Attr { var: 0, attr })
        } else {
            without_value(alloc)
        }
    }

    fn expanded_aggregate(&self, alloc: Global, _aggregate: &QAgg) -> Result<QTerm, OutOfMemory> {
        without_value(alloc)
    }
}

/// The qualification of a permit, about the row of the only variable: terms without value stand in
/// place of all that it can't name.
pub fn permit_condition(alloc: Global, q: &QQual) -> Result<QQual, OutOfMemory>
    ensures { IfOk result (λ condition. condition ≡ replaced_in_qual no_aggregate of_only q.now) }
{
    replaced_qual(alloc, &OfOnly, q)
}
