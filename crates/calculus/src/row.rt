//! Rows.

ghost use Rattle.std.specs.Prelude.{◌≡◌, refl};
ghost use Rattle.std.specs.Cmp.{partial_equiv_from_equiv, partial_order_from_agreeing_total, eq_by_cmp_equiv};
ghost use Rattle.std.specs.Ordering.{eq_by_cmp, as_partial_cmp};
ghost use Rattle.calculus.specs.Orders.{row_total};
ghost use Rattle.calculus.specs.Value.{row_cmp};

use crate::Value;
use std::cmp::Ordering;
use std::marker::Model;

/// A row: a value for each attribute, in the order of the attributes. Contracts see the list of its
/// values.

pub struct Row {
    values: Vec<Value>,
}

impl Drop for Row {
    fn drop(self) {
        let Self { values: _ } = self;
    }
}

impl Model for Row {
    ghost use Rattle.std.specs.Prelude.{List};
    ghost use Rattle.calculus.specs.declared.value.Value.{Value as Cell};

    ghost Value = { List Cell };

    ghost view = { λ row. row.values.items };
}

impl Row {
    /// The row with these values. Takes no memory.
    pub fn of(values: Vec<Value>) -> Row
        ensures { result ≡ values.items }
    {
        Row { values }
    }

    /// The values, in order.
    pub fn values(&self) -> &[Value]
        ensures { result.now ≡ self.now }
    {
        &self.values
    }

    /// The order of two rows: by their first values that differ, a row that ends there being the
    /// smaller one. Takes no memory.
    pub fn compare(&self, other: &Row) -> Ordering
        ensures { result ≡ row_cmp self.now other.now }
    {
        self.values.as_slice().cmp(other.values.as_slice())
    }
}

impl PartialEq for Row {
    ghost eq = { eq_by_cmp row_cmp };

    ghost laws = { partial_equiv_from_equiv (eq_by_cmp_equiv row_total) };

    fn eq(&self, other: &Row) -> bool {
        self.compare(other).is_eq()
    }
}

impl Eq for Row {
    ghost laws = { eq_by_cmp_equiv row_total };
}

impl PartialOrd for Row {
    ghost partial_cmp = { as_partial_cmp row_cmp };

    ghost laws = { partial_order_from_agreeing_total row_cmp row_total (λ a b. refl) (λ a b. refl) };

    fn partial_cmp(&self, other: &Row) -> Option<Ordering> {
        Some(self.compare(other))
    }
}

impl Ord for Row {
    ghost cmp = { row_cmp };

    ghost total = { row_total };

    ghost matches_partial_cmp = { λ a b. refl };

    ghost matches_eq = { λ a b. refl };

    fn cmp(&self, other: &Row) -> Ordering {
        self.compare(other)
    }
}
