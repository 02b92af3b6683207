//! The next row that a scan of ascending rows gives.

ghost use Rattle.std.specs.Prelude.{◌≡◌, ◌<◌, ◌+◌, ◌^◌, Some, None, drop, length, slice_index_or, IfOk, IfSome, IfNone, OnErr};
ghost use Rattle.calculus.specs.Rows.{Row as Values};
ghost use Rattle.base_trait.specs.Scans.{Gave, StaysOver, has_value, meets, next_meeting};
ghost use Rattle.plain_base.specs.Places.{rows_before};

use calculus::{OutOfMemory, Place, Probe, Row, TryCopy, Value};
use std::alloc::Global;

/// How many rows lie before a place.
fn rows_before(at: Place) -> usize
    ensures { result ≡ rows_before at }
{
    at.page as usize * 65_536 + at.line as usize
}

/// The place behind so many rows.
fn place_behind(rows: usize) -> Place
    requires { rows < 2 ^ 48 }
    ensures { rows_before result ≡ rows }
{
    Place {
        page: (rows / 65_536) as u32,
        line: (rows % 65_536) as u16,
    }
}

/// Whether the row has this value at this place.
fn has_value(row: &Row, wanted: &(u8, Value)) -> bool
    ensures { result ≡ has_value row.now wanted.now }
{
    match row.values().get(wanted.0 as usize) {
        Some(value) => *value == wanted.1,
        None => false,
    }
}

/// Whether the row has what the probe looks for.
fn meets(probe: &Probe, row: &Row) -> bool
    ensures { result ≡ meets probe.now row.now }
{
    probe
        .equal
        .items()
        .iter()
        .all(|wanted| has_value(row, wanted))
}

/// Where the first row lies that meets the probe, behind so many rows.
#[tactic(auto, using(crate::proofs::NextRow::met_at, crate::proofs::NextRow::not_met_at, crate::proofs::NextRow::none_at))]
fn first_meeting(rows: &[Row], probe: &Probe, before: usize) -> Option<usize>
    ensures within { IfSome result (λ i. i < length rows.now) }
    ensures met { IfSome result (λ i. (d : Values) → next_meeting probe.now (drop before rows.now) ≡ Some (slice_index_or rows.now i d, drop (i + 1) rows.now)) }
    ensures none { IfNone result (next_meeting probe.now (drop before rows.now) ≡ None) }
{
    for i in before..rows.len() {
        if meets(probe, &rows[i]) {
            return Some(i);
        }
    }
    None
}

/// The next of these rows that meets the probe, from a place on, which moves behind it.
pub(crate) fn next_row(
    alloc: Global,
    rows: &[Row],
    probe: &Probe,
    at: &mut Place,
) -> Result<Option<Row>, OutOfMemory>
    requires { length rows.now < 2 ^ 32 }
    ensures gave { IfOk result (λ answer. Gave probe.now (drop (rows_before at.old) rows.now) (drop (rows_before at.new) rows.now) answer) }
    ensures over { IfOk result (λ answer. StaysOver probe.now (drop (rows_before at.new) rows.now) answer) }
    ensures err { OnErr result (at.new ≡ at.old) }
{
    match first_meeting(rows, probe, rows_before(*at)) {
        Some(i) => {
            let row = rows[i].copy(alloc)?;
            *at = place_behind(i + 1);
            Ok(Some(row))
        }
        None => Ok(None),
    }
}
