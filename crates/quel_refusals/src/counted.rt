//! Whether a query lists too many variables.

ghost use Rattle.std.specs.Prelude.{◌≡◌, ◌-◌, ◌^◌, min, true, IfOk, Some};
ghost use Rattle.base_trait.specs.Causes.{HasCause};
ghost use Rattle.calculus.specs.Database.{Db};
ghost use Rattle.quel_meaning.specs.Passing.{has_too_many, listed_variables};
ghost use Rattle.view_sizes.specs.Listing.{sources_list_few};

use base_trait::{Base, BaseFault};
use calculus::limits::{MOST_EXPANDED_VARIABLES, MOST_VARIABLES};
use calculus::{OutOfMemory, Query};
use ovqp::aggregates_of;
use std::alloc::Global;
use view_sizes::listed_expanded_variables;

/// The variables that a query has at most once the views in it are expanded.
const MOST_EXPANDED: u64 = MOST_EXPANDED_VARIABLES as u64;

/// How many variables a query lists, each of its aggregates having one; it stops at the greatest number
/// of 64 bits.
fn listed_variables(alloc: Global, query: &Query) -> Result<usize, OutOfMemory>
    ensures { IfOk result (λ n. n ≡ min (listed_variables query.now) (2 ^ 64 - 1)) }
{
    let aggregates = aggregates_of(alloc, query)?;
    Ok(query.vars.items().len().saturating_add(aggregates.len()))
}

/// Whether a query lists more variables than it may, as it stands or once the views in it are expanded,
/// those of its aggregates counted too, where no query that is a source lists more than 256.
pub fn has_too_many<B: Base>(alloc: Global, base: &mut B, query: &Query) -> Result<bool, BaseFault>
    ensures known { (db : Db) → B.schema base.old ≡ Some db → sources_list_few query.now ≡ true → IfOk result (λ many. many ≡ has_too_many db query.now) }
    ensures kept { B.database base.new ≡ B.database base.old }
    ensures stays { (s : Db) → B.schema base.old ≡ Some s → B.schema base.new ≡ Some s }
    ensures asked { (b : B) → B.asked b base.old → B.asked b base.new }
    ensures cause { HasCause (B.database base.old) (B.faults base.old) (B.faults base.new) result }
{
    let listed = listed_variables(alloc, query)?;
    if listed > MOST_VARIABLES {
        return Ok(true);
    }
    let count = listed_expanded_variables(alloc, base, query)?;
    Ok(count > MOST_EXPANDED)
}
