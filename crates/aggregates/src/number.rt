//! Numbers of 64 bits.

ghost use Rattle.std.specs.Prelude.{◌≡◌};
ghost use Rattle.calculus.specs.Number.{number};
ghost use Rattle.calculus.specs.Value.{is_within};

fn is_within(low: i128, number: i128, high: i128) -> bool
    ensures { result ≡ is_within low number high }
{
    low.cmp(&number).is_le() && number.cmp(&high).is_le()
}

/// The number, where it has 64 bits.
pub(crate) fn number(wide: i128) -> Option<i64>
    ensures { result ≡ number wide }
{
    if is_within(-9_223_372_036_854_775_808, wide, 9_223_372_036_854_775_807) {
        Some(wide as i64)
    } else {
        None
    }
}
