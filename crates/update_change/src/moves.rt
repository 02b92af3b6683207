//! The rows that go and those that come.

ghost use Rattle.std.specs.Prelude.{◌≡◌, ◌&&◌, not, filter};
ghost use Rattle.calculus.specs.Rows.{has, set_of};
ghost use Rattle.calculus.specs.Replacement.{without_rows};

use calculus::{Change, Row, RowSet};

/// Those of these rows that are in no others. Takes no memory.
pub fn without(rows: RowSet, others: &RowSet) -> RowSet
    ensures { result ≡ without_rows others.now rows }
{
    let mut rows = rows.into_rows();
    rows.retain(|row| !others.has(row));
    RowSet::of_rows(rows)
}

/// Those of these rows that are in others, too. Takes no memory.
fn among(rows: RowSet, others: &RowSet) -> RowSet
    ensures { result ≡ filter (has others.now) rows }
{
    let mut rows = rows.into_rows();
    rows.retain(|row| others.has(row));
    RowSet::of_rows(rows)
}

/// The change of the rows where these are the old rows and these the new ones.
pub fn change_of(rows: &RowSet, old: RowSet, new: RowSet) -> Change
    ensures removed { result.remove ≡ filter (has rows.now) (without_rows new old) }
    ensures added { result.add ≡ without_rows rows.now new }
{
    let going = without(old, &new);
    let remove = among(going, rows);
    let add = without(new, rows);
    Change { remove, add }
}
