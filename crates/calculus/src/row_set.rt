//! Sets of rows.

ghost use Rattle.std.specs.Prelude.{◌≡◌, ◌<◌, ◌↔◌, List, [], ◌∷◌, ◌++◌, Contains, Some, IsTrue, is_ok, not, length, slice_get, IfOk, IfErr, OnOk, OnErr};
ghost use Rattle.std.specs.Cmp.{partial_equiv_from_equiv, eq_by_cmp_equiv};
ghost use Rattle.std.specs.Cmp.Lexicographic.{pointwise, lists_per, lists_equiv};
ghost use Rattle.std.specs.Ordering.{eq_by_cmp};
ghost use Rattle.calculus.specs.Orders.{row_total};
ghost use Rattle.calculus.specs.Value.{row_cmp};
ghost use Rattle.calculus.specs.Rows.{Row, Ascends, has, put, set_of, IsBehind, IsPlaceOf};

use crate::{OutOfMemory, Row};
use memory::{TryCopy, copies};
use std::alloc::Global;
use std::marker::Model;

/// A set of rows. Contracts see its rows in strictly ascending order.
pub struct RowSet {
    rows: Vec<Row>,
}

impl Drop for RowSet {
    fn drop(self) {
        let Self { rows: _ } = self;
    }
}

impl Model for RowSet {
    ghost use Rattle.std.specs.Prelude.{List};
    ghost use Rattle.calculus.specs.Rows.{Row as Values, Ascends};

    ghost Value = { List Values };

    ghost view = { λ set. set.rows.items };

    ghost invariant = { λ set. Ascends set.rows.items };
}

/// A row that found no room in a set, given back.
#[derive(PartialEq, Eq)]
pub struct RowBack {
    /// The row.
    pub row: Row,
}

impl Drop for RowBack {
    fn drop(self) {
        let Self { row: _ } = self;
    }
}

/// Whether the row is greater than the last one. It is not where there is none.
fn is_behind(rows: &[Row], row: &Row) -> bool
    ensures { IsTrue result → IsBehind rows.now row.now }
{
    match rows.last() {
        Some(last) => last.compare(row).is_lt(),
        None => false,
    }
}

/// Where the row is among ascending rows, or else where it belongs. Behind the last row this is one
/// comparison, else a binary search.
fn place_of(rows: &[Row], row: &Row) -> Result<usize, usize>
    requires { Ascends rows.now }
    ensures there { is_ok result ≡ has rows.now row.now }
    ensures place { IfErr result (IsPlaceOf rows.now row.now) }
{
    if is_behind(rows, row) {
        return Err(rows.len());
    }
    rows.binary_search(row)
}

impl RowSet {
    /// The set without rows.
    pub fn new(alloc: Global) -> RowSet
        ensures { result ≡ [] }
    {
        RowSet {
            rows: Vec::new(alloc),
        }
    }

    /// The set of these rows, in any order and with repeats. Costs a sort; takes no memory.
    pub fn of_rows(rows: Vec<Row>) -> RowSet
        ensures { result ≡ set_of rows.items }
    {
        let mut rows = rows;
        rows.sort_unstable();
        rows.dedup();
        RowSet { rows }
    }

    /// Puts the row into the set, and says whether it is new there. Cheap behind the last row. Where
    /// there is no room, the row is given back and the set stays.
    pub fn insert(&mut self, row: Row) -> Result<bool, RowBack>
        ensures new { IfOk result (λ new. new ≡ not (has self.old row)) }
        ensures rows { OnOk result (self.new ≡ put row self.old) }
        ensures back { IfErr result (λ back. back.row ≡ row) }
        ensures err { OnErr result (self.new ≡ self.old) }
    {
        match place_of(&self.rows, &row) {
            Ok(_) => Ok(false),
            Err(place) => match self.rows.insert(place, row) {
                Ok(()) => Ok(true),
                Err(failed) => Err(RowBack { row: failed.value }),
            },
        }
    }

    /// Whether the row is in the set. A binary search.
    pub fn has(&self, row: &Row) -> bool
        ensures { result ≡ has self.now row.now }
    {
        place_of(&self.rows, row).is_ok()
    }

    /// The number of rows.
    pub fn len(&self) -> usize
        ensures { result ≡ length self.now }
    {
        self.rows.len()
    }

    /// Whether there is no row.
    pub fn is_empty(&self) -> bool
        ensures { IsTrue result ↔ (self.now ≡ []) }
    {
        self.rows.is_empty()
    }

    /// The row at this place, counted from 0 in ascending order.
    pub fn row(&self, i: usize) -> &Row
        requires { i < length self.now }
        ensures { slice_get self.now i ≡ Some result.now }
    {
        &self.rows[i]
    }

    /// The rows, ascending.
    pub fn rows(&self) -> &[Row]
        ensures rows { result.now ≡ self.now }
        ensures ascend { Ascends self.now }
    {
        self.rows.as_slice()
    }

    /// The rows, ascending, given back without taking memory.
    pub fn into_rows(self) -> Vec<Row>
        ensures rows { result.items ≡ self }
        ensures ascend { Ascends self }
    {
        let RowSet { rows } = self;
        rows
    }
}

impl TryCopy for RowSet {
    fn copy(&self, alloc: Global) -> Result<RowSet, OutOfMemory> {
        let rows = copies(alloc, &self.rows)?;
        Ok(RowSet { rows })
    }
}

/// Sets are equal where they have the same rows.
impl PartialEq for RowSet {
    ghost eq = { λ a b. pointwise (eq_by_cmp row_cmp) a b };

    ghost laws = { lists_per (partial_equiv_from_equiv (eq_by_cmp_equiv row_total)) };

    fn eq(&self, other: &RowSet) -> bool {
        self.rows.as_slice() == other.rows.as_slice()
    }
}

impl Eq for RowSet {
    ghost laws = { lists_equiv (eq_by_cmp_equiv row_total) };
}

/// What the set of some rows is: it ascends strictly, it has exactly these rows, and it is what rows
/// that are put one by one make.
pub fn set_of_rows_has_them_ascending()
    ensures ascends { (rows : List Row) → Ascends (set_of rows) }
    ensures exactly { (rows : List Row) (row : Row) → Contains (set_of rows) row ↔ Contains rows row }
    ensures one_by_one { (rows : List Row) (row : Row) → set_of (rows ++ row ∷ []) ≡ put row (set_of rows) }
    ensures found { (rows : List Row) (row : Row) → IsTrue (has rows row) ↔ Contains rows row }
{}
