//! Rows of a catalogue are read from their bytes, and put in their order.

ghost use Rattle.std.specs.Prelude.{◌≡◌, ◌↔◌, IsTrue, List as Items, Option as Maybe, ℕ, map, option_map, IfOk};
ghost use Rattle.std.specs.Cmp.{IsTotalOrder};
ghost use Rattle.std.specs.List.Sorted.{IsPermutation, IsSorted, IsStrictlySortedBy};
ghost use Rattle.std.specs.declared.cmp.Ordering.{Ordering as Order};
ghost use Rattle.page_chain.specs.Lists.{each, once};
ghost use Rattle.catalog_read.specs.Rows.{Splits, each_once};

use calculus::{List, OutOfMemory};
use std::alloc::Global;
use std::cmp::Ordering;

/// A row of a catalogue, which is read from its bytes and has a place among others.
pub(crate) trait CatalogueRow {
    /// What a row says.
    ghost Said: { Type 0 };

    /// What it says.
    ghost said: { Self → Said };

    /// What bytes say.
    ghost said_by: { Items ℕ → Maybe Said };

    /// The order.
    ghost order: { Said → Said → Order };

    ghost total: { IsTotalOrder order };

    /// What rows belong to.
    type Owner;

    /// Where a row lies beside those that belong to something.
    ghost side: { Self.Owner → Said → Order };

    ghost splits: { (owner : Self.Owner) → Splits order (side owner) };

    /// The row whose bytes these are; `None` exactly where they are those of none.
    fn read(alloc: Global, bytes: &[u8]) -> Result<Option<Self>, OutOfMemory>
        ensures { IfOk result (λ row. option_map said row ≡ said_by bytes.now) };

    /// The order of the two.
    fn order(&self, other: &Self) -> Ordering
        ensures { result ≡ order (said self.now) (said other.now) };

    /// Where it lies beside the rows that belong to this.
    fn side(&self, owner: &Self::Owner) -> Ordering
        ensures { result ≡ side owner.now (said self.now) };
}

/// The rows whose bytes these are, in the same order; `None` exactly where some bytes are those of none.
fn read_each<T: CatalogueRow + Drop>(
    alloc: Global,
    rows: &[List<u8>],
) -> Result<Option<Vec<T>>, OutOfMemory>
    ensures { IfOk result (λ read. option_map (λ v. map T.said v.items) read ≡ each T.said_by rows.now) }
{
    let mut read = Vec::with_capacity(alloc, rows.len())?;
    for row in rows {
        match T::read(alloc, row.items()) {
            Ok(Some(row)) => read.push(row)?,
            Ok(None) => return Ok(None),
            Err(error) => return Err(error),
        }
    }
    Ok(Some(read))
}

/// Sorts the rows. Takes no memory.
fn sort<T: CatalogueRow>(rows: &mut Vec<T>)
    ensures same { IsPermutation rows.old.items rows.new.items }
    ensures sorted { IsSorted (λ a b. T.order (T.said a) (T.said b)) rows.new.items }
{
    rows.sort_unstable_by(|left, right| left.order(right));
}

/// Whether each row is smaller than the next.
fn ascend<T: CatalogueRow>(rows: &[T]) -> bool
    ensures { IsTrue result ↔ IsStrictlySortedBy T.order (map T.said rows.now) }
{
    rows.is_sorted_by(|left, right| left.order(right).is_lt())
}

/// The rows in their order; `None` exactly where one stands twice.
fn in_order<T: CatalogueRow + Drop>(rows: Vec<T>) -> Option<List<T>>
    ensures { option_map (map T.said) result ≡ once T.order (map T.said rows.items) }
{
    let mut rows = rows;
    sort(&mut rows);
    if ascend(&rows) {
        Some(List::of(rows))
    } else {
        None
    }
}

/// The rows whose bytes these are, in their order; `None` exactly where some bytes are those of none, or
/// a row stands twice.
pub(crate) fn read_rows<T: CatalogueRow + Drop>(
    alloc: Global,
    rows: &[List<u8>],
) -> Result<Option<List<T>>, OutOfMemory>
    ensures { IfOk result (λ read. option_map (map T.said) read ≡ each_once T.said_by T.order rows.now) }
{
    match read_each(alloc, rows) {
        Ok(Some(rows)) => Ok(in_order(rows)),
        Ok(None) => Ok(None),
        Err(error) => Err(error),
    }
}
