//! Sizes of trees, where these are what is known of each variable.

ghost use Rattle.std.specs.Prelude.{◌≡◌, ◌+◌, ◌-◌, ◌^◌, min, map, sum};
ghost use Rattle.calculus.specs.Sizes.{attr_size, qual_size, term_size};
ghost use Rattle.view_sizes.specs.Measured.{held};

use calculus::{QQual, QTerm};

/// What a variable is once the views in it are expanded.
#[derive(Drop)]
pub struct Measure {
    /// How many variables.
    pub variables: u64,
    /// The sizes of its attributes; none where each is 1.
    pub attrs: Vec<u64>,
    /// The size of its qualification.
    pub qual: u64,
}

/// The sum of sizes, or the greatest number of 64 bits.
fn sum_of(sizes: &[u64]) -> u64
    ensures { result ≡ min (sum sizes.now) (2 ^ 64 - 1) }
{
    let Some((size, others)) = sizes.split_first() else {
        return 0;
    };
    size.saturating_add(sum_of(others))
}

impl Measure {
    /// The size of a view that is so: its attributes, and its qualification; or the greatest number of
    /// 64 bits. Takes no memory.
    pub fn size(&self) -> u64
        ensures { result ≡ min (sum self.now.attrs.items + self.now.qual) (2 ^ 64 - 1) }
    {
        sum_of(&self.attrs).saturating_add(self.qual)
    }
}

/// One more than two sizes, or the greatest number of 64 bits.
fn with(left: u64, right: u64) -> u64
    ensures { result ≡ min (1 + (left + right)) (2 ^ 64 - 1) }
{
    left.saturating_add(right).saturating_add(1)
}

fn attr_size(vars: &[Measure], var: u8, attr: u8) -> u64
    ensures { result ≡ attr_size (map held vars.now) var attr }
{
    match vars.get(var as usize) {
        None => 1,
        Some(measure) => match measure.attrs.get(attr as usize) {
            None => 1,
            Some(size) => *size,
        },
    }
}

/// The size of a term, or the greatest number of 64 bits. Takes no memory.
#[tactic(auto, using(crate::proofs::SizeForms::size_int, crate::proofs::SizeForms::size_chars, crate::proofs::SizeForms::size_attr, crate::proofs::SizeForms::size_neg, crate::proofs::SizeForms::size_abs, crate::proofs::SizeForms::size_arith, crate::proofs::SizeForms::size_concat, crate::proofs::SizeForms::size_agg))]
pub fn term_size(vars: &[Measure], t: &QTerm) -> u64
    ensures { result ≡ min (term_size (map held vars.now) t.now) (2 ^ 64 - 1) }
{
    match t {
        QTerm::Int(_) => 1,
        QTerm::Chars(_) => 1,
        QTerm::Attr { var, attr } => attr_size(vars, *var, *attr),
        QTerm::Neg(inner) => with(term_size(vars, inner.get()), 0),
        QTerm::Abs(inner) => with(term_size(vars, inner.get()), 0),
        QTerm::Arith { op: _, left, right } => {
            with(term_size(vars, left.get()), term_size(vars, right.get()))
        }
        QTerm::Concat { left, right } => {
            with(term_size(vars, left.get()), term_size(vars, right.get()))
        }
        QTerm::Agg(_) => 1,
    }
}

/// The size of a qualification, or the greatest number of 64 bits. Takes no memory.
#[tactic(auto, using(crate::proofs::SizeForms::size_true, crate::proofs::SizeForms::size_cmp, crate::proofs::SizeForms::size_like, crate::proofs::SizeForms::size_and, crate::proofs::SizeForms::size_or, crate::proofs::SizeForms::size_not))]
pub fn qual_size(vars: &[Measure], q: &QQual) -> u64
    ensures { result ≡ min (qual_size (map held vars.now) q.now) (2 ^ 64 - 1) }
{
    match q {
        QQual::True => 0,
        QQual::Cmp { op: _, left, right } => with(term_size(vars, left), term_size(vars, right)),
        QQual::Like {
            term,
            pattern: _,
            same: _,
        } => with(term_size(vars, term), 1),
        QQual::And(left, right) => {
            with(qual_size(vars, left.get()), qual_size(vars, right.get()))
        }
        QQual::Or(left, right) => with(qual_size(vars, left.get()), qual_size(vars, right.get())),
        QQual::Not(inner) => with(qual_size(vars, inner.get()), 0),
    }
}
