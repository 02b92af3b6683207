//! The whole numbers that a text has.

ghost use Rattle.std.specs.Prelude.{◌≡◌, ◌-◌, ◌^◌, nat_le, Some, None, pos, if◌then◌else◌};

use std::marker::Model;

/// The greatest number that a token has.
const GREATEST: u64 = i64::MAX as u64;

/// The number of a token: at most 9,223,372,036,854,775,807, so that a term can have it. Contracts
/// see the number itself.
#[derive(Clone, Copy)]
pub struct Number {
    value: u64,
}

impl Model for Number {
    ghost use Rattle.std.specs.Prelude.{ℕ, ◌≤◌, ◌-◌, ◌^◌};

    ghost Value = { ℕ };

    ghost view = { λ n. n.value };

    ghost inverse = { λ value. record { value = value } };

    ghost invariant = { λ n. n.value ≤ 2 ^ 63 - 1 };
}

impl Number {
    /// The number of this value; `None` exactly where it is too great.
    pub fn of(value: u64) -> Option<Number>
        ensures { result ≡ (if nat_le value (2 ^ 63 - 1) then Some value else None) }
    {
        if value > GREATEST {
            return None;
        }
        Some(Number { value })
    }

    /// The value.
    pub fn value(self) -> u64
        ensures { result ≡ self }
    {
        self.value
    }

    /// The value, as terms have it.
    pub fn signed(self) -> i64
        ensures { result ≡ pos self }
    {
        self.value as i64
    }
}
