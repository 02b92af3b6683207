//! The average of values.

ghost use Rattle.std.specs.Prelude.{◌≡◌, ◌<◌, int_div, pos};
ghost use Rattle.calculus.specs.Aggregate.{average};
ghost use Rattle.aggregates.specs.Sums.{IsSumOf};

use crate::summing::total;
use calculus::Value;

/// A sum of so many numbers of 64 bits divided by their number, cut toward zero.
fn shared(sum: i128, count: usize) -> i64
    requires some { 0 < count }
    requires few { count < 18446744073709551616 }
    requires within { IsSumOf count sum }
    ensures { result ≡ int_div sum (pos count) }
{
    (sum / count as i128) as i64
}

/// The exact sum of the values divided by their number, cut toward zero; 0 of none.
pub(crate) fn average(values: &[Value]) -> i64
    ensures { result ≡ average values.now }
{
    if values.is_empty() {
        return 0;
    }
    shared(total(values), values.len())
}
