//! Arithmetic on whole numbers of 64 bits.

ghost use Rattle.std.specs.Prelude.{◌≡◌, ◌≤◌, ◌*ℤ◌, nat_abs, int_div, int_rem, false};
ghost use Rattle.calculus.specs.Value.{is_within};
ghost use Rattle.calculus.specs.Number.{number, opposite, without_sign, is_zero, quotient, remainder, repeated, power, operated};

use calculus::ArithOp;

fn is_within(low: i128, number: i128, high: i128) -> bool
    ensures { result ≡ is_within low number high }
{
    low.cmp(&number).is_le() && number.cmp(&high).is_le()
}

/// The number, where it has 64 bits.
fn number(wide: i128) -> Option<i64>
    ensures { result ≡ number wide }
{
    if is_within(-9_223_372_036_854_775_808, wide, 9_223_372_036_854_775_807) {
        Some(wide as i64)
    } else {
        None
    }
}

/// The number with the other sign.
pub(crate) fn opposite(number_there: i64) -> Option<i64>
    ensures { result ≡ opposite number_there }
{
    number(-(number_there as i128))
}

/// The number without its sign.
pub(crate) fn without_sign(number_there: i64) -> Option<i64>
    ensures { result ≡ without_sign number_there }
{
    if number_there < 0 {
        number(-(number_there as i128))
    } else {
        Some(number_there)
    }
}

fn product(left: i64, right: i64) -> i128
    ensures { result ≡ left *ℤ right }
{
    left as i128 * right as i128
}

/// The product, where it has 64 bits.
fn times(left: i64, right: i64) -> Option<i64>
    ensures { result ≡ number (left *ℤ right) }
{
    number(product(left, right))
}

fn cut_quotient(left: i64, right: i64) -> i128
    requires { is_zero right ≡ false }
    ensures { result ≡ int_div left right }
{
    left as i128 / right as i128
}

fn rest_of_quotient(left: i64, right: i64) -> i128
    requires { is_zero right ≡ false }
    ensures { result ≡ int_rem left right }
{
    left as i128 % right as i128
}

fn is_zero(number: i64) -> bool
    ensures { result ≡ is_zero number }
{
    number == 0
}

fn quotient(left: i64, right: i64) -> Option<i64>
    ensures { result ≡ quotient left right }
{
    if is_zero(right) {
        return None;
    }
    number(cut_quotient(left, right))
}

fn remainder(left: i64, right: i64) -> Option<i64>
    ensures { result ≡ remainder left right }
{
    if is_zero(right) {
        return None;
    }
    number(rest_of_quotient(left, right))
}

/// The power of a base whose powers grow: it leaves 64 bits after at most 64 steps.
fn growing_power(base: i64, exponent: u64) -> Option<i64>
    requires { 2 ≤ nat_abs base }
    ensures { result ≡ number (repeated base exponent) }
{
    let mut power = 1;
    for _step in 0..exponent {
        match times(base, power) {
            Some(next) => power = next,
            None => return None,
        }
    }
    Some(power)
}

/// The power for an exponent that isn't negative.
fn natural_power(base: i64, exponent: u64) -> Option<i64>
    ensures { result ≡ number (repeated base exponent) }
{
    if base == 1 || exponent == 0 {
        return Some(1);
    }
    if base == 0 {
        return Some(0);
    }
    if base == -1 {
        return Some(if exponent % 2 == 0 { 1 } else { -1 });
    }
    growing_power(base, exponent)
}

fn power(base: i64, exponent: i64) -> Option<i64>
    ensures { result ≡ power base exponent }
{
    if exponent < 0 {
        return None;
    }
    natural_power(base, exponent as u64)
}

/// What an operation gives for two numbers.
pub(crate) fn operated(op: ArithOp, left: i64, right: i64) -> Option<i64>
    ensures { result ≡ operated op left right }
{
    match op {
        ArithOp::Add => number(left as i128 + right as i128),
        ArithOp::Sub => number(left as i128 - right as i128),
        ArithOp::Mul => times(left, right),
        ArithOp::Div => quotient(left, right),
        ArithOp::Pow => power(left, right),
        ArithOp::Mod => remainder(left, right),
    }
}
