//! Domains, kinds and values.

ghost use Rattle.std.specs.Prelude.{◌≡◌, refl};
ghost use Rattle.std.specs.Ordering.{eq_by_cmp, as_partial_cmp};
ghost use Rattle.std.specs.Cmp.{partial_equiv_from_equiv, partial_order_from_agreeing_total, eq_by_cmp_equiv};
ghost use Rattle.calculus.specs.Value.{is_within, number_fits, fits, value_cmp};
ghost use Rattle.calculus.specs.Orders.{value_total};

use crate::Text;
use std::cmp::Ordering;

/// The domain of a stored attribute: which values it may have.
#[derive(Clone, Copy, PartialEq, Eq)]
pub enum Domain {
    /// The whole numbers from -128 to 127: `i1`.
    I1,
    /// The whole numbers from -32,768 to 32,767: `i2`.
    I2,
    /// The whole numbers from -2,147,483,648 to 2,147,483,647: `i4`.
    I4,
    /// The texts of at most so many bytes, 1 to 255: `c1` to `c255`.
    C(u8),
}

/// What an attribute's values are.
#[derive(Clone, Copy, PartialEq, Eq)]
pub enum Kind {
    /// Values of a domain, as those of a stored attribute.
    Of(Domain),
    /// Whole numbers of 64 bits, as those of a computed attribute.
    Wide,
}

/// The value of an attribute or a term.

pub enum Value {
    /// A whole number of 64 bits.
    Int(i64),
    /// A text.
    Text(Text),
}

impl Drop for Value {
    fn drop(self) {
        match self {
            Value::Int(_) | Value::Text(_) => {}
        }
    }
}

fn is_within(low: i64, number: i64, high: i64) -> bool
    ensures { result ≡ is_within low number high }
{
    low.cmp(&number).is_le() && number.cmp(&high).is_le()
}

fn number_fits(number: i64, domain: Domain) -> bool
    ensures { result ≡ number_fits number domain }
{
    match domain {
        Domain::I1 => is_within(-128, number, 127),
        Domain::I2 => is_within(-32_768, number, 32_767),
        Domain::I4 => is_within(-2_147_483_648, number, 2_147_483_647),
        Domain::C(_) => false,
    }
}

impl Value {
    /// Whether this is a value of the domain: a number of its bits, or a text that is no longer than
    /// its width. Takes no memory.
    pub fn fits(&self, domain: Domain) -> bool
        ensures { result ≡ fits self.now domain }
    {
        match self {
            Value::Int(number) => number_fits(*number, domain),
            Value::Text(text) => match domain {
                Domain::C(width) => text.bytes().len() <= width as usize,
                Domain::I1 => false,
                Domain::I2 => false,
                Domain::I4 => false,
            },
        }
    }

    /// The order of two values: numbers before texts, numbers by size, texts by their first bytes
    /// that differ, a text that ends there being the smaller one. Takes no memory.
    pub fn compare(&self, other: &Value) -> Ordering
        ensures { result ≡ value_cmp self.now other.now }
    {
        match self {
            Value::Int(left) => match other {
                Value::Int(right) => left.cmp(right),
                Value::Text(_) => Ordering::Less,
            },
            Value::Text(left) => match other {
                Value::Int(_) => Ordering::Greater,
                Value::Text(right) => left.bytes().cmp(right.bytes()),
            },
        }
    }
}

impl PartialEq for Value {
    ghost eq = { eq_by_cmp value_cmp };

    ghost laws = { partial_equiv_from_equiv (eq_by_cmp_equiv value_total) };

    fn eq(&self, other: &Value) -> bool {
        self.compare(other).is_eq()
    }
}

impl Eq for Value {
    ghost laws = { eq_by_cmp_equiv value_total };
}

impl PartialOrd for Value {
    ghost partial_cmp = { as_partial_cmp value_cmp };

    ghost laws = { partial_order_from_agreeing_total value_cmp value_total (λ a b. refl) (λ a b. refl) };

    fn partial_cmp(&self, other: &Value) -> Option<Ordering> {
        Some(self.compare(other))
    }
}

impl Ord for Value {
    ghost cmp = { value_cmp };

    ghost total = { value_total };

    ghost matches_partial_cmp = { λ a b. refl };

    ghost matches_eq = { λ a b. refl };

    fn cmp(&self, other: &Value) -> Ordering {
        self.compare(other)
    }
}
