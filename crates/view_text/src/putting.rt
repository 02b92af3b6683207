//! What is substituted for the attributes and aggregates of terms.

ghost use Rattle.std.specs.Prelude.{◌≡◌, ℕ, IfOk};
ghost use Rattle.calculus.specs.Tree.{aggregate as aggregate_term};
ghost use Rattle.calculus.specs.declared.query.QTerm.{QTerm as Term};

use calculus::{OutOfMemory, QAgg, QTerm};
use std::alloc::Global;

/// What is substituted for the attributes and aggregates of terms.
pub(crate) trait Substitution {
    /// The term that is substituted for an attribute of a variable, both by place.
    ghost put: { Self → ℕ → ℕ → Term };

    /// What is made of an aggregate.
    ghost made: { Self → Term → Term };

    /// Whether each variable of the terms that are put has a place.
    ghost fits: { Self → Type 0 };

    /// The term in place of an attribute of a variable, both by place.
    fn put_attribute(&self, alloc: Global, var: u8, attr: u8) -> Result<QTerm, OutOfMemory>
        requires { fits self.now }
        ensures { IfOk result (λ t. t ≡ put self.now var attr) };

    /// The term in place of an aggregate.
    fn expanded_aggregate(&self, alloc: Global, aggregate: &QAgg) -> Result<QTerm, OutOfMemory>
        ensures { IfOk result (λ t. t ≡ made self.now (aggregate_term aggregate.now)) };
}
