//! Queries with the views in them expanded.

ghost use Rattle.std.specs.Prelude.{◌≡◌, ◌≤◌, ◌-◌, ◌^◌, min, true, Some, IfErr, IfOk, IsTrue, OnOk};
ghost use Rattle.calculus.specs.Answer.{answer, lacks};
ghost use Rattle.calculus.specs.Database.{Db};
ghost use Rattle.calculus.specs.Sizes.{expanded_variables};
ghost use Rattle.calculus.specs.Who.{Unrestricted};
ghost use Rattle.cut_rules.specs.Causes.{HasExpandCause, HasMany};
ghost use Rattle.cut_rules.specs.Faults.{unexpanded};
ghost use Rattle.quel_meaning.specs.FitQueries.{kept_or_viewed, reads_fit};
ghost use Rattle.tree_laws.specs.Nesting.{aggregates_nest_none};
ghost use Rattle.view_text.specs.Expanded.{expanded};

use crate::expanded::expanded;
use crate::{CutFault, ExpandFault};
use base_trait::{Base, BaseFault};
use calculus::Query;
use calculus::limits::MOST_EXPANDED_VARIABLES;
use std::alloc::Global;
use view_expand::ExpansionsFound;
use view_sizes::expanded_variables;

/// The variables that may result.
const MOST_VARIABLES: u64 = MOST_EXPANDED_VARIABLES as u64;

/// The number, or the greatest one of 32 bits.
fn capped(vars: u64) -> u32
    ensures { result ≡ min vars (2 ^ 32 - 1) }
{
    if vars < 4_294_967_295 {
        vars as u32
    } else {
        4_294_967_295
    }
}

/// Why the query isn't expanded, where its expansions aren't put in. Nothing is refused where nobody is restricted,
/// and 50 variables have places: a base that answers so denotes no database.
fn unexpanded(fault: CutFault) -> ExpandFault
    ensures { result ≡ unexpanded fault }
{
    match fault {
        CutFault::NoPermit { var: _ } => ExpandFault::Base(BaseFault::Damaged { file: 0, page: 0 }),
        CutFault::TooMany => ExpandFault::Base(BaseFault::Damaged { file: 0, page: 0 }),
        CutFault::Base(fault) => ExpandFault::Base(fault),
        CutFault::OutOfMemory => ExpandFault::OutOfMemory,
    }
}

/// The query with its views expanded, as `expand`.
fn expand_fixed<B: Base>(alloc: Global, base: &mut B, query: &Query) -> Result<Query, ExpandFault>
    requires { (db : Db) → B.database base.old ≡ Some db → reads_fit (kept_or_viewed db) db query.now ≡ true }
    ensures known { (db : Db) → B.database base.old ≡ Some db → IfOk result (λ made. made ≡ expanded db Unrestricted query.now) }
    ensures answer { (db : Db) → B.database base.old ≡ Some db → aggregates_nest_none query.now ≡ true → IfOk result (λ made. answer db Unrestricted made ≡ answer db Unrestricted query.now) }
    ensures lacks { (db : Db) → B.database base.old ≡ Some db → aggregates_nest_none query.now ≡ true → IfOk result (λ made. lacks db Unrestricted made ≡ lacks db Unrestricted query.now) }
    ensures few { (db : Db) → B.database base.old ≡ Some db → OnOk result (expanded_variables db query.now ≤ 50) }
    ensures few_by_schema { (s : Db) → B.schema base.old ≡ Some s → reads_fit (kept_or_viewed s) s query.now ≡ true → OnOk result (expanded_variables s query.now ≤ 50) }
    ensures many_by_schema { (s : Db) → B.schema base.old ≡ Some s → reads_fit (kept_or_viewed s) s query.now ≡ true → IfErr result (HasMany s query.now) }
    ensures kept { B.database base.new ≡ B.database base.old }
    ensures stays { (s : Db) → B.schema base.old ≡ Some s → B.schema base.new ≡ Some s }
    ensures asked { (b : B) → B.asked b base.old → B.asked b base.new }
    ensures cause { HasExpandCause query.now (B.database base.old) (B.faults base.old) (B.faults base.new) result }
{
    let vars = expanded_variables(alloc, base, query)?;
    if vars > MOST_VARIABLES {
        return Err(ExpandFault::TooMany { vars: capped(vars) });
    }
    let mut found = ExpansionsFound::new(alloc);
    match expanded(alloc, base, None, query, &mut found) {
        Ok(made) => Ok(made),
        Err(fault) => Err(unexpanded(fault)),
    }
}

/// The query over base relations and catalogues alone, its views expanded: it has the same answer
/// unrestricted, and a target lacks a value in the same case, where no aggregate stands in another.
/// `TooMany` exactly where more than 50 variables result, with their number: the schema decides that, which the
/// first question fixes. Not for the query of an
/// update, whose changed variable stays what it is.
pub fn expand<B: Base>(alloc: Global, query: Query, base: &mut B) -> Result<Query, ExpandFault>
    requires { (db : Db) → B.database base.old ≡ Some db → reads_fit (kept_or_viewed db) db query ≡ true }
    ensures known { (db : Db) → B.database base.old ≡ Some db → IfOk result (λ made. made ≡ expanded db Unrestricted query) }
    ensures answer { (db : Db) → B.database base.old ≡ Some db → aggregates_nest_none query ≡ true → IfOk result (λ made. answer db Unrestricted made ≡ answer db Unrestricted query) }
    ensures lacks { (db : Db) → B.database base.old ≡ Some db → aggregates_nest_none query ≡ true → IfOk result (λ made. lacks db Unrestricted made ≡ lacks db Unrestricted query) }
    ensures few { (db : Db) → B.database base.old ≡ Some db → OnOk result (expanded_variables db query ≤ 50) }
    ensures few_by_schema { IsTrue B.fixes → (s : Db) → B.schema base.new ≡ Some s → reads_fit (kept_or_viewed s) s query ≡ true
        → OnOk result (expanded_variables s query ≤ 50) }
    ensures many_by_schema { IsTrue B.fixes → (s : Db) → B.schema base.new ≡ Some s → reads_fit (kept_or_viewed s) s query ≡ true
        → IfErr result (HasMany s query) }
    ensures kept { B.database base.new ≡ B.database base.old }
    ensures stays { (s : Db) → B.schema base.old ≡ Some s → B.schema base.new ≡ Some s }
    ensures asked { (b : B) → B.asked b base.old → B.asked b base.new }
    ensures cause { HasExpandCause query (B.database base.old) (B.faults base.old) (B.faults base.new) result }
{
    let _entries = base.count()?;
    let made = expand_fixed(alloc, base, &query);
    drop(query);
    made
}
