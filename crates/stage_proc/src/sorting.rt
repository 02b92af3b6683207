//! Rows in the order of columns.

ghost use Rattle.std.specs.Prelude.{◌≡◌};
ghost use Rattle.calculus.specs.Rows.{Ascends};
ghost use Rattle.quel_meaning.specs.Tables.{sorted};

use crate::order::rows_order;
use calculus::{Row, SortKey};

/// The rows of a set in the order of columns, the first weightiest; without columns they stay as
/// they are, ascending. Costs a sort; takes no memory.
pub fn sorted(rows: Vec<Row>, keys: &[SortKey]) -> Vec<Row>
    requires { Ascends rows.items }
    ensures { result.items ≡ sorted keys.now rows.items }
{
    if keys.is_empty() {
        return rows;
    }
    let mut rows = rows;
    rows.sort_unstable_by(|left, right| rows_order(left, right, keys));
    rows
}
