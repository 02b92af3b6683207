//! Queries with their variables expanded, aggregates and all.

ghost use Rattle.std.specs.Prelude.{◌≡◌, ◌≤◌, true, false, Some, length, IfOk, IfErr, OnOk, option_map};
ghost use Rattle.std.specs.List.{list_all};
ghost use Rattle.calculus.specs.Database.{Db};
ghost use Rattle.calculus.specs.Permission.{aggregates_permitted, query_permitted, readable};
ghost use Rattle.calculus.specs.Sizes.{expanded_variables};
ghost use Rattle.cut_rules.specs.Causes.{HasCause};
ghost use Rattle.cut_rules.specs.Refused.{HasRefusedAggregate, IsRefusedIn};
ghost use Rattle.cut_rules.specs.declared.fault.CutFault.TheVariants.{OutOfMemory as NoMemory};
ghost use Rattle.quel_meaning.specs.FitQueries.{kept_or_viewed, reads_fit};
ghost use Rattle.view_expand.specs.Asking.{who_of};
ghost use Rattle.view_expand.specs.Found.{IsFound};
ghost use Rattle.view_text.specs.Expanded.{expanded, expanded_over, substituted_query};
ghost use Rattle.view_text.specs.Replaced.{listed};
ghost use Rattle.view_text.specs.Scoped.{is_scoped};
ghost use Rattle.view_text.specs.Expansions.{expansions_vars};

use crate::aggregates::put_aggregates;
use crate::expansions::{PLACES, are_few, fault_at, put_expansions};
use crate::{CutFault, NO_VARIABLE};
use base_trait::Base;
use calculus::{Name, QAgg, Query};
use std::alloc::Global;
use view_expand::ExpansionsFound;
use view_text::{Expansion, substituted_whole};

/// The query over the variables of these expansions, with these aggregates by their slots.
fn whole(
    alloc: Global,
    expansions: &[Expansion],
    aggregates: &[QAgg],
    query: &Query,
) -> Result<Query, CutFault>
    requires scoped { list_all is_scoped expansions.now ≡ true }
    requires fits { length (expansions_vars expansions.now) ≤ 256 }
    ensures query { IfOk result (λ made. made ≡ substituted_query (listed aggregates.now) expansions.now query.now) }
    ensures cause { IfErr result (λ fault. fault ≡ NoMemory) }
{
    match substituted_whole(alloc, expansions, aggregates, query) {
        Ok(made) => Ok(made),
        Err(_) => Err(CutFault::OutOfMemory),
    }
}

/// The query over the variables of these expansions, its aggregates over what their sources stand for.
/// `NoPermit` exactly where what an aggregate names may not be read.
pub(crate) fn expanded_over<B: Base>(
    alloc: Global,
    base: &mut B,
    who: Option<&Name>,
    query: &Query,
    expansions: &[Expansion],
    found: &mut ExpansionsFound,
) -> Result<Query, CutFault>
    requires fit { (db : Db) → B.database base.old ≡ Some db → reads_fit (kept_or_viewed db) db query.now ≡ true }
    requires scoped { list_all is_scoped expansions.now ≡ true }
    requires fits { length (expansions_vars expansions.now) ≤ 256 }
    requires found { (db : Db) → B.database base.old ≡ Some db → IsFound db (who_of (option_map (λ n. n.now) who)) found.old }
    ensures known { (db : Db) → B.database base.old ≡ Some db → IfOk result (λ made. made ≡ expanded_over db (who_of (option_map (λ n. n.now) who.entry)) expansions.now query.now) }
    ensures permitted { (db : Db) → B.database base.old ≡ Some db → OnOk result (aggregates_permitted (readable db (who_of (option_map (λ n. n.now) who.entry))) query.now ≡ true) }
    ensures found { (db : Db) → B.database base.old ≡ Some db → IsFound db (who_of (option_map (λ n. n.now) who.entry)) found.new }
    ensures kept { B.database base.new ≡ B.database base.old }
    ensures stays { (s : Db) → B.schema base.old ≡ Some s → B.schema base.new ≡ Some s }
    ensures asked { (b : B) → B.asked b base.old → B.asked b base.new }
    ensures cause { HasCause (λ db var. HasRefusedAggregate db (who_of (option_map (λ n. n.now) who.entry)) query.now var) (B.database base.old) (B.faults base.old) (B.faults base.new) result }
{
    match put_aggregates(alloc, base, who, query, expansions, found) {
        Ok(aggregates) => whole(alloc, expansions, &aggregates, query),
        Err(fault) => Err(fault_at(fault, NO_VARIABLE)),
    }
}

/// The query over these expansions, where they are few.
fn expanded_over_few<B: Base>(
    alloc: Global,
    base: &mut B,
    who: Option<&Name>,
    query: &Query,
    expansions: &[Expansion],
    found: &mut ExpansionsFound,
) -> Result<Query, CutFault>
    requires fit { (db : Db) → B.database base.old ≡ Some db → reads_fit (kept_or_viewed db) db query.now ≡ true }
    requires scoped { list_all is_scoped expansions.now ≡ true }
    requires few { (db : Db) → B.database base.old ≡ Some db → length (expansions_vars expansions.now) ≤ 256 }
    requires found { (db : Db) → B.database base.old ≡ Some db → IsFound db (who_of (option_map (λ n. n.now) who)) found.old }
    ensures known { (db : Db) → B.database base.old ≡ Some db → IfOk result (λ made. made ≡ expanded_over db (who_of (option_map (λ n. n.now) who.entry)) expansions.now query.now) }
    ensures permitted { (db : Db) → B.database base.old ≡ Some db → OnOk result (aggregates_permitted (readable db (who_of (option_map (λ n. n.now) who.entry))) query.now ≡ true) }
    ensures found { (db : Db) → B.database base.old ≡ Some db → IsFound db (who_of (option_map (λ n. n.now) who.entry)) found.new }
    ensures kept { B.database base.new ≡ B.database base.old }
    ensures stays { (s : Db) → B.schema base.old ≡ Some s → B.schema base.new ≡ Some s }
    ensures asked { (b : B) → B.asked b base.old → B.asked b base.new }
    ensures cause { HasCause (λ db var. HasRefusedAggregate db (who_of (option_map (λ n. n.now) who.entry)) query.now var) (B.database base.old) (B.faults base.old) (B.faults base.new) result }
{
    if !are_few(expansions, PLACES) {
        return Err(CutFault::TooMany);
    }
    expanded_over(alloc, base, who, query, expansions, found)
}

/// The query with its variables expanded, and those that its aggregates are over. `NoPermit`
/// exactly where a variable that is used, or what an aggregate names, may not be read.
pub(crate) fn expanded<B: Base>(
    alloc: Global,
    base: &mut B,
    who: Option<&Name>,
    query: &Query,
    found: &mut ExpansionsFound,
) -> Result<Query, CutFault>
    requires fit { (db : Db) → B.database base.old ≡ Some db → reads_fit (kept_or_viewed db) db query.now ≡ true }
    requires few { (db : Db) → B.database base.old ≡ Some db → expanded_variables db query.now ≤ 50 }
    requires found { (db : Db) → B.database base.old ≡ Some db → IsFound db (who_of (option_map (λ n. n.now) who)) found.old }
    ensures known { (db : Db) → B.database base.old ≡ Some db → IfOk result (λ made. made ≡ expanded db (who_of (option_map (λ n. n.now) who.entry)) query.now) }
    ensures permitted { (db : Db) → B.database base.old ≡ Some db → OnOk result (query_permitted db (who_of (option_map (λ n. n.now) who.entry)) query.now ≡ true) }
    ensures found { (db : Db) → B.database base.old ≡ Some db → IsFound db (who_of (option_map (λ n. n.now) who.entry)) found.new }
    ensures kept { B.database base.new ≡ B.database base.old }
    ensures stays { (s : Db) → B.schema base.old ≡ Some s → B.schema base.new ≡ Some s }
    ensures asked { (b : B) → B.asked b base.old → B.asked b base.new }
    ensures cause { HasCause (λ db var. (query_permitted db (who_of (option_map (λ n. n.now) who.entry)) query.now ≡ false) × IsRefusedIn db (who_of (option_map (λ n. n.now) who.entry)) query.now var) (B.database base.old) (B.faults base.old) (B.faults base.new) result }
{
    let mut expansions = Vec::new(alloc);
    match put_expansions(alloc, base, who, query, &mut expansions, found) {
        Ok(()) => expanded_over_few(alloc, base, who, query, &expansions, found),
        Err(fault) => Err(fault),
    }
}
