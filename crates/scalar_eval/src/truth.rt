//! The truth of a qualification.

ghost use Rattle.std.specs.Prelude.{◌≡◌, IfOk};
ghost use Rattle.calculus.specs.Value.{value_cmp};
ghost use Rattle.calculus.specs.Term.{asks_for, compared_values, matched_value, holds};
ghost use Rattle.calculus.specs.Table.{tabled};

use crate::Assigned;
use crate::pattern::like;
use crate::values::value_in;
use calculus::{AggTable, Chars, CmpOp, OutOfMemory, QQual, Row, Value};
use memory::both;
use std::alloc::Global;

/// Whether the order of two values is one that the comparison asks for.
fn compared(op: CmpOp, left: &Value, right: &Value) -> bool
    ensures { result ≡ asks_for op (value_cmp left.now right.now) }
{
    let order = left.compare(right);
    match op {
        CmpOp::Eq => order.is_eq(),
        CmpOp::Ne => order.is_ne(),
        CmpOp::Lt => order.is_lt(),
        CmpOp::Le => order.is_le(),
        CmpOp::Gt => order.is_gt(),
        CmpOp::Ge => order.is_ge(),
    }
}

#[tactic(auto, unfolding(calculus::specs::Term::compared_values))]
fn compared_values(op: CmpOp, values: (Option<Value>, Option<Value>)) -> bool
    ensures { result ≡ compared_values op values.0 values.1 }
{
    match (&values.0, &values.1) {
        (Some(left), Some(right)) => compared(op, left, right),
        _ => false,
    }
}

#[tactic(auto, unfolding(calculus::specs::Term::matched_value))]
fn matched_value(pattern: &Chars, same: bool, value: Option<Value>) -> bool
    ensures { result ≡ matched_value pattern.now same value }
{
    match &value {
        Some(Value::Text(text)) => {
            let matches = like(pattern.bytes(), text.bytes());
            if same { matches } else { !matches }
        }
        _ => false,
    }
}

/// Whether a qualification holds over these rows.
#[tactic(auto, using(calculus::proofs::Val::holds_true, calculus::proofs::Val::holds_cmp, calculus::proofs::Val::holds_like, calculus::proofs::Val::holds_and, calculus::proofs::Val::holds_or, calculus::proofs::Val::holds_not))]
fn holds_in(
    alloc: Global,
    q: &QQual,
    rows: &[Row],
    tables: &[AggTable],
) -> Result<bool, OutOfMemory>
    ensures { IfOk result (λ b. b ≡ holds (tabled tables.now) q.now rows.now) }
{
    match q {
        QQual::True => Ok(true),
        QQual::Cmp { op, left, right } => {
            let left = value_in(alloc, left, rows, tables);
            match both(left, value_in(alloc, right, rows, tables)) {
                Ok(values) => Ok(compared_values(*op, values)),
                Err(error) => Err(error),
            }
        }
        QQual::Like {
            term,
            pattern,
            same,
        } => match value_in(alloc, term, rows, tables) {
            Ok(value) => Ok(matched_value(pattern, *same, value)),
            Err(error) => Err(error),
        },
        QQual::And(left, right) => match holds_in(alloc, left.get(), rows, tables) {
            Ok(true) => holds_in(alloc, right.get(), rows, tables),
            other => other,
        },
        QQual::Or(left, right) => match holds_in(alloc, left.get(), rows, tables) {
            Ok(false) => holds_in(alloc, right.get(), rows, tables),
            other => other,
        },
        QQual::Not(inner) => match holds_in(alloc, inner.get(), rows, tables) {
            Ok(there) => Ok(!there),
            Err(error) => Err(error),
        },
    }
}

/// Whether a qualification holds, where `rows` has the row of each variable and `tables` what each
/// aggregate gives.
pub fn holds(
    alloc: Global,
    q: &QQual,
    rows: &Assigned,
    tables: &[AggTable],
) -> Result<bool, OutOfMemory>
    ensures { IfOk result (λ b. b ≡ holds (tabled tables.now) q.now rows.now) }
{
    holds_in(alloc, q, rows.rows(), tables)
}
