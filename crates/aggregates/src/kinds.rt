//! The least and the greatest of no value.

ghost use Rattle.std.specs.Prelude.{◌≡◌, Some, IfOk};
ghost use Rattle.base_trait.specs.Causes.{HasCause};
ghost use Rattle.calculus.specs.Aggregate.{none_value};
ghost use Rattle.calculus.specs.Database.{Db};
ghost use Rattle.calculus.specs.Kinds.{is_text_kind};
ghost use Rattle.aggregates.specs.Settled.{none_over};

use base_trait::{Base, BaseFault};
use calculus::{Kind, OutOfMemory, QAgg, QTerm, Value, empty_text, is_text_kind, kind_of};
use memory::alone;
use ovqp::source_kinds;
use std::alloc::Global;

/// The least and the greatest of no value of a term, whose only variable has attributes of these
/// kinds: the empty text of texts, else 0.
fn none_over(alloc: Global, arg: &QTerm, kinds: Vec<Kind>) -> Result<Value, OutOfMemory>
    ensures { IfOk result (λ v. v ≡ none_over arg.now kinds.items) }
{
    let vars = alone(alloc, kinds)?;
    if is_text_kind(kind_of(arg, &vars)) {
        empty_text(alloc)
    } else {
        Ok(Value::Int(0))
    }
}

/// The least and the greatest of no value of an aggregate.
pub(crate) fn none_value<B: Base>(
    alloc: Global,
    base: &mut B,
    agg: &QAgg,
) -> Result<Value, BaseFault>
    ensures known { (db : Db) → B.database base.old ≡ Some db → IfOk result (λ v. v ≡ none_value db agg.now) }
    ensures kept { B.database base.new ≡ B.database base.old }
    ensures stays { (s : Db) → B.schema base.old ≡ Some s → B.schema base.new ≡ Some s }
    ensures asked { (b : B) → B.asked b base.old → B.asked b base.new }
    ensures cause { HasCause (B.database base.old) (B.faults base.old) (B.faults base.new) result }
{
    let kinds = source_kinds(alloc, base, &agg.source)?;
    Ok(none_over(alloc, &agg.arg, kinds)?)
}
