//! The exact sum of values.

ghost use Rattle.std.specs.Prelude.{◌≡◌, length};
ghost use Rattle.calculus.specs.Aggregate.{number_in, total};
ghost use Rattle.aggregates.specs.Sums.{IsSumOf};

use calculus::Value;

/// The number that a value is; of a text 0.
pub(crate) fn number_in(value: &Value) -> i64
    ensures { result ≡ number_in value.now }
{
    match value {
        Value::Int(number) => *number,
        Value::Text(_) => 0,
    }
}

/// The exact sum of the values, each of which has 64 bits.
pub(crate) fn total(values: &[Value]) -> i128
    ensures total { result ≡ total values.now }
    ensures within { IsSumOf (length values.now) result }
{
    let mut sum = 0;
    for value in values {
        sum += number_in(value) as i128;
    }
    sum
}
