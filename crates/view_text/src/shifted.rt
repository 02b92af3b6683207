//! Terms and qualifications, their variables so many places further on.

ghost use Rattle.std.specs.Prelude.{◌≡◌, ◌+◌, ◌-◌, true, IfOk};
ghost use Rattle.view_text.specs.Replaced.{shifted, shifted_qual, no_aggregate};
ghost use Rattle.view_text.specs.Further.{further_at_most};
ghost use Rattle.view_text.specs.Scoped.{is_within, is_qual_within};

use crate::putting::Substitution;
use crate::replaced::{replaced_qual, replaced_term};
use crate::tree_parts::without_value;
use calculus::{OutOfMemory, QAgg, QQual, QTerm};
use std::alloc::Global;

/// The variables stand so many places further on.
#[derive(Drop)]
struct Further {
    by: usize,
}

impl Substitution for Further {
    ghost put = { λ further. further_at_most further.by };

    ghost made = { λ _. no_aggregate };

    ghost fits = { λ further. Unit };

    fn put_attribute(&self, _alloc: Global, var: u8, attr: u8) -> Result<QTerm, OutOfMemory> {
        let var = (var as usize).saturating_add(self.by).min(255) as u8;
        Ok(QTerm::Attr { var, attr })
    }

    fn expanded_aggregate(&self, alloc: Global, _aggregate: &QAgg) -> Result<QTerm, OutOfMemory> {
        without_value(alloc)
    }
}

/// The term, its variables so many places further on: none comes behind the 256th, and no aggregate
/// stands in it.
#[tactic(auto, using(crate::proofs::Shifting::shifted_at_most))]
pub fn shifted_term(alloc: Global, by: usize, t: &QTerm) -> Result<QTerm, OutOfMemory>
    requires { is_within (256 - by) t.now ≡ true }
    ensures { IfOk result (λ made. made ≡ shifted by t.now) }
{
    replaced_term(alloc, &Further { by }, t)
}

/// The qualification so.
#[tactic(auto, using(crate::proofs::Shifting::shifted_qual_at_most))]
pub fn shifted_qual(alloc: Global, by: usize, q: &QQual) -> Result<QQual, OutOfMemory>
    requires { is_qual_within (256 - by) q.now ≡ true }
    ensures { IfOk result (λ made. made ≡ shifted_qual by q.now) }
{
    replaced_qual(alloc, &Further { by }, q)
}
