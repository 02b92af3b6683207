//! The replacements among pairs, in order.

ghost use Rattle.std.specs.Prelude.{◌≡◌};
ghost use Rattle.std.specs.List.{list_any};
ghost use Rattle.std.specs.List.Sorted.{IsStrictlySortedBy};
ghost use Rattle.calculus.specs.Rows.{Row};
ghost use Rattle.update_change.specs.Replacements.{both_cmp, is_both};

use calculus::Row;

/// The replacements, by their old rows and then by their new ones, each once.
pub fn in_order(all: Vec<(Row, Row)>) -> Vec<(Row, Row)>
    ensures ascend { IsStrictlySortedBy both_cmp result.items }
    ensures same { (both : Row × Row) → list_any (is_both both) result.items ≡ list_any (is_both both) all.items }
{
    let mut all = all;
    all.sort_unstable();
    all.dedup();
    all
}
