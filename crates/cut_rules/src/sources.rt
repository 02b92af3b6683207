//! What an aggregate is over once views are expanded, and the conditions on its rows.

ghost use Rattle.std.specs.Prelude.{◌≡◌, ◌≤◌, true, false, [], length, Some, IfOk, OnOk, option_map};
ghost use Rattle.std.specs.Option.{option_to_list};
ghost use Rattle.calculus.specs.Database.{Db};
ghost use Rattle.calculus.specs.Permission.{permitted_within, readable, source_permitted, vars_permitted};
ghost use Rattle.calculus.specs.QueryParts.{vars_of};
ghost use Rattle.calculus.specs.Rights.{Retrieve, permitted};
ghost use Rattle.calculus.specs.Sizes.{measure_of, measure_within, query_measure};
ghost use Rattle.calculus.specs.Stored.{range_at};
ghost use Rattle.calculus.specs.Tree.{rows_of_query};
ghost use Rattle.calculus.specs.Used.{used_vars};
ghost use Rattle.calculus.specs.declared.query.AggSource.{Named};
ghost use Rattle.quel_meaning.specs.FitQueries.{kept_or_viewed, source_fits};
ghost use Rattle.view_expand.specs.Asking.{who_of};
ghost use Rattle.view_expand.specs.Causes.{HasCause};
ghost use Rattle.view_expand.specs.Found.{IsFound};
ghost use Rattle.view_text.specs.Expanded.{expanded_plain, expanded_range, expanded_source, range_restriction, source_restriction};
ghost use Rattle.view_text.specs.ExpansionOf.{restriction, expansion_within};

use base_trait::Base;
use calculus::limits::MOST_LEVEL;
use calculus::{AggSource, Boxed, Name, OutOfMemory, QQual, Query, RelKey, TryCopy};
use std::alloc::Global;
use view_expand::{ExpansionFault, ExpansionsFound, Right, expanded_plain, restriction};

/// The rows of a query.
#[tactic(auto, using(calculus::proofs::Forms::rows_is))]
fn rows_of(alloc: Global, query: Query) -> Result<AggSource, OutOfMemory>
    ensures { IfOk result (λ source. source ≡ rows_of_query query) }
{
    match Boxed::new(alloc, query) {
        Ok(query) => Ok(AggSource::Rows(query)),
        Err(error) => Err(error),
    }
}

/// The rows of a query with its variables expanded, which go through at most so many levels of
/// views; they need no further condition. `NoPermit` exactly where a variable that is used may not be
/// read.
fn rows_source<B: Base>(
    alloc: Global,
    base: &mut B,
    who: Option<&Name>,
    query: &Query,
    levels: u8,
    found: &mut ExpansionsFound,
) -> Result<(AggSource, Option<QQual>), ExpansionFault>
    requires listed { (db : Db) → B.database base.old ≡ Some db → length (vars_of query.now) ≤ 256 }
    requires expanded { (db : Db) → B.database base.old ≡ Some db → (query_measure (measure_within levels db) query.now).variables ≤ 256 }
    requires found { (db : Db) → B.database base.old ≡ Some db → IsFound db (who_of (option_map (λ n. n.now) who)) found.old }
    ensures known { (db : Db) → B.database base.old ≡ Some db → IfOk result (λ made. made.0 ≡ rows_of_query (expanded_plain (expansion_within levels db (who_of (option_map (λ n. n.now) who.entry))) query.now)) }
    ensures unrestricted { IfOk result (λ made. option_to_list made.1 ≡ []) }
    ensures permitted { (db : Db) → B.database base.old ≡ Some db → OnOk result (vars_permitted (permitted_within levels db (who_of (option_map (λ n. n.now) who.entry))) query.now (used_vars query.now) ≡ true) }
    ensures found { (db : Db) → B.database base.old ≡ Some db → IsFound db (who_of (option_map (λ n. n.now) who.entry)) found.new }
    ensures kept { B.database base.new ≡ B.database base.old }
    ensures stays { (s : Db) → B.schema base.old ≡ Some s → B.schema base.new ≡ Some s }
    ensures asked { (b : B) → B.asked b base.old → B.asked b base.new }
    ensures cause { HasCause (λ db. vars_permitted (permitted_within levels db (who_of (option_map (λ n. n.now) who.entry))) query.now (used_vars query.now) ≡ false) (B.database base.old) (B.faults base.old) (B.faults base.new) result }
{
    match expanded_plain(alloc, base, who, query, levels, found) {
        Ok(query) => match rows_of(alloc, query) {
            Ok(source) => Ok((source, None)),
            Err(_) => Err(ExpansionFault::OutOfMemory),
        },
        Err(error) => Err(error),
    }
}

/// What has a key and is no view, with the condition on its rows with which one may read these
/// attributes. `NoPermit` exactly where they may not be read.
fn kept_source<B: Base>(
    alloc: Global,
    base: &mut B,
    who: Option<&Name>,
    key: &RelKey,
    attrs: &[u8],
    found: &mut ExpansionsFound,
) -> Result<(AggSource, Option<QQual>), ExpansionFault>
    requires found { (db : Db) → B.database base.old ≡ Some db → IsFound db (who_of (option_map (λ n. n.now) who)) found.old }
    ensures named { IfOk result (λ made. made.0 ≡ Named key.now) }
    ensures known { (db : Db) → B.database base.old ≡ Some db → IfOk result (λ made. option_to_list made.1 ≡ restriction db (who_of (option_map (λ n. n.now) who.entry)) Retrieve attrs.now key.now) }
    ensures permitted { (db : Db) → B.database base.old ≡ Some db → OnOk result (permitted db (who_of (option_map (λ n. n.now) who.entry)) Retrieve attrs.now key.now ≡ true) }
    ensures found { (db : Db) → B.database base.old ≡ Some db → IsFound db (who_of (option_map (λ n. n.now) who.entry)) found.new }
    ensures kept { B.database base.new ≡ B.database base.old }
    ensures stays { (s : Db) → B.schema base.old ≡ Some s → B.schema base.new ≡ Some s }
    ensures asked { (b : B) → B.asked b base.old → B.asked b base.new }
    ensures cause { HasCause (λ db. permitted db (who_of (option_map (λ n. n.now) who.entry)) Retrieve attrs.now key.now ≡ false) (B.database base.old) (B.faults base.old) (B.faults base.new) result }
{
    match restriction(alloc, base, who, Right::Retrieve, attrs, key, found) {
        Ok(condition) => match key.copy(alloc) {
            Ok(key) => Ok((AggSource::Named(key), condition)),
            Err(_) => Err(ExpansionFault::OutOfMemory),
        },
        Err(error) => Err(error),
    }
}

/// What has a key, for one who reads these attributes of it: of a view the rows of its query, else
/// itself, with the condition on its rows. `NoPermit` exactly where they may not be read.
fn named_source<B: Base>(
    alloc: Global,
    base: &mut B,
    who: Option<&Name>,
    key: &RelKey,
    attrs: &[u8],
    found: &mut ExpansionsFound,
) -> Result<(AggSource, Option<QQual>), ExpansionFault>
    requires few { (db : Db) → B.database base.old ≡ Some db → (measure_of db key.now).variables ≤ 256 }
    requires found { (db : Db) → B.database base.old ≡ Some db → IsFound db (who_of (option_map (λ n. n.now) who)) found.old }
    ensures known { (db : Db) → B.database base.old ≡ Some db → IfOk result (λ made. made.0 ≡ expanded_range db (who_of (option_map (λ n. n.now) who.entry)) key.now (range_at db key.now)) }
    ensures cuts { (db : Db) → B.database base.old ≡ Some db → IfOk result (λ made. option_to_list made.1 ≡ range_restriction db (who_of (option_map (λ n. n.now) who.entry)) attrs.now key.now (range_at db key.now)) }
    ensures permitted { (db : Db) → B.database base.old ≡ Some db → OnOk result (readable db (who_of (option_map (λ n. n.now) who.entry)) key.now attrs.now ≡ true) }
    ensures found { (db : Db) → B.database base.old ≡ Some db → IsFound db (who_of (option_map (λ n. n.now) who.entry)) found.new }
    ensures kept { B.database base.new ≡ B.database base.old }
    ensures stays { (s : Db) → B.schema base.old ≡ Some s → B.schema base.new ≡ Some s }
    ensures asked { (b : B) → B.asked b base.old → B.asked b base.new }
    ensures cause { HasCause (λ db. readable db (who_of (option_map (λ n. n.now) who.entry)) key.now attrs.now ≡ false) (B.database base.old) (B.faults base.old) (B.faults base.new) result }
{
    match base.view(alloc, key)? {
        Some(query) => {
            let made = rows_source(alloc, base, who, &query, MOST_LEVEL - 1, found);
            drop(query);
            made
        }
        None => kept_source(alloc, base, who, key, attrs, found),
    }
}

/// What an aggregate is over that was over this, where it reads these attributes, with the condition on
/// the rows. `NoPermit` exactly where what the source names may not be read.
pub(crate) fn expanded_source<B: Base>(
    alloc: Global,
    base: &mut B,
    who: Option<&Name>,
    source: &AggSource,
    attrs: &[u8],
    found: &mut ExpansionsFound,
) -> Result<(AggSource, Option<QQual>), ExpansionFault>
    requires fits { (db : Db) → B.database base.old ≡ Some db → source_fits (kept_or_viewed db) db source.now ≡ true }
    requires found { (db : Db) → B.database base.old ≡ Some db → IsFound db (who_of (option_map (λ n. n.now) who)) found.old }
    ensures known { (db : Db) → B.database base.old ≡ Some db → IfOk result (λ made. made.0 ≡ expanded_source db (who_of (option_map (λ n. n.now) who.entry)) source.now) }
    ensures cuts { (db : Db) → B.database base.old ≡ Some db → IfOk result (λ made. option_to_list made.1 ≡ source_restriction db (who_of (option_map (λ n. n.now) who.entry)) attrs.now source.now) }
    ensures permitted { (db : Db) → B.database base.old ≡ Some db → OnOk result (source_permitted (readable db (who_of (option_map (λ n. n.now) who.entry))) attrs.now source.now ≡ true) }
    ensures found { (db : Db) → B.database base.old ≡ Some db → IsFound db (who_of (option_map (λ n. n.now) who.entry)) found.new }
    ensures kept { B.database base.new ≡ B.database base.old }
    ensures stays { (s : Db) → B.schema base.old ≡ Some s → B.schema base.new ≡ Some s }
    ensures asked { (b : B) → B.asked b base.old → B.asked b base.new }
    ensures cause { HasCause (λ db. source_permitted (readable db (who_of (option_map (λ n. n.now) who.entry))) attrs.now source.now ≡ false) (B.database base.old) (B.faults base.old) (B.faults base.new) result }
{
    match source {
        AggSource::Named(key) => named_source(alloc, base, who, key, attrs, found),
        AggSource::Rows(query) => rows_source(alloc, base, who, query.get(), MOST_LEVEL, found),
    }
}
