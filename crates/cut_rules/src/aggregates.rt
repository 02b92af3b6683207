//! Aggregates over what their sources stand for, restricted to what may be read.

ghost use Rattle.std.specs.Prelude.{◌≡◌, ◌≤◌, [], ◌∷◌, ◌++◌, true, false, map, length, Some, IfOk, OnOk, option_map};
ghost use Rattle.std.specs.List.{list_all};
ghost use Rattle.std.specs.Option.{option_to_list};
ghost use Rattle.calculus.specs.Database.{Db};
ghost use Rattle.calculus.specs.Permission.{aggregates_permitted, readable, source_permitted};
ghost use Rattle.calculus.specs.QueryParts.{query_aggregates};
ghost use Rattle.calculus.specs.Used.{used_in_aggregate};
ghost use Rattle.calculus.specs.declared.query.QAgg.{QAgg as Aggregate};
ghost use Rattle.quel_meaning.specs.FitQueries.{kept_or_viewed, source_fits, sources_fit};
ghost use Rattle.view_expand.specs.Asking.{who_of};
ghost use Rattle.view_expand.specs.Causes.{HasCause};
ghost use Rattle.view_expand.specs.Found.{IsFound};
ghost use Rattle.view_text.specs.Halves.{all_of};
ghost use Rattle.view_text.specs.Expanded.{expanded_aggregate};
ghost use Rattle.view_text.specs.Replaced.{no_aggregate, replaced};
ghost use Rattle.view_text.specs.Scoped.{is_scoped};
ghost use Rattle.view_text.specs.Expansions.{substituted_from, expansions_vars};

use crate::attributes::aggregate_uses;
use crate::sources::expanded_source;
use base_trait::Base;
use calculus::{AggSource, List, Name, OutOfMemory, QAgg, QQual, QTerm, Query, TryCopy};
use memory::{both, push};
use ovqp::aggregates_of;
use std::alloc::Global;
use view_expand::{ExpansionFault, ExpansionsFound};
use view_text::{Expansion, all_of, substituted_term};

/// Puts the terms, with the expansions substituted, behind those that are there.
fn put_links(
    alloc: Global,
    expansions: &[Expansion],
    terms: &[QTerm],
    made: &mut Vec<QTerm>,
) -> Result<(), OutOfMemory>
    requires scoped { list_all is_scoped expansions.now ≡ true }
    requires fits { length (expansions_vars expansions.now) ≤ 256 }
    ensures { OnOk result (made.new.items ≡ made.old.items ++ map (replaced no_aggregate (substituted_from 0 expansions.now)) terms.now) }
{
    for term in terms {
        made.push(substituted_term(alloc, expansions, term)?)?;
    }
    Ok(())
}

/// Puts the qualification, and the condition where there is one, behind those that are there.
fn put_conditions(
    alloc: Global,
    qual: &QQual,
    condition: Option<QQual>,
    made: &mut Vec<QQual>,
) -> Result<(), OutOfMemory>
    ensures { OnOk result (made.new.items ≡ made.old.items ++ qual.now ∷ option_to_list condition) }
{
    made.push(qual.copy(alloc)?)?;
    if let Some(condition) = condition {
        made.push(condition)?;
    }
    Ok(())
}

/// That the qualification holds, and the condition where there is one.
fn own_qual(alloc: Global, qual: &QQual, condition: Option<QQual>) -> Result<QQual, OutOfMemory>
    ensures { IfOk result (λ all. all ≡ all_of (qual.now ∷ option_to_list condition)) }
{
    let mut quals = Vec::new(alloc);
    match put_conditions(alloc, qual, condition, &mut quals) {
        Ok(()) => all_of(alloc, quals),
        Err(error) => Err(error),
    }
}

/// The terms with the expansions substituted.
fn links(
    alloc: Global,
    expansions: &[Expansion],
    terms: &[QTerm],
) -> Result<List<QTerm>, OutOfMemory>
    requires scoped { list_all is_scoped expansions.now ≡ true }
    requires fits { length (expansions_vars expansions.now) ≤ 256 }
    ensures { IfOk result (λ made. made ≡ map (replaced no_aggregate (substituted_from 0 expansions.now)) terms.now) }
{
    let mut made = Vec::new(alloc);
    match put_links(alloc, expansions, terms, &mut made) {
        Ok(()) => Ok(List::of(made)),
        Err(error) => Err(error),
    }
}

/// The aggregate over this source, whose rows meet the condition where there is one, with the expansions'
/// terms in its links.
fn aggregate_over(
    alloc: Global,
    g: &QAgg,
    expansions: &[Expansion],
    source: AggSource,
    condition: Option<QQual>,
) -> Result<QAgg, OutOfMemory>
    requires scoped { list_all is_scoped expansions.now ≡ true }
    requires fits { length (expansions_vars expansions.now) ≤ 256 }
    ensures { IfOk result (λ made. made ≡ record g.now { source = source; link = map (replaced no_aggregate (substituted_from 0 expansions.now)) g.now.link; qual = all_of (g.now.qual ∷ option_to_list condition) }) }
{
    let own = both(g.arg.copy(alloc), g.by.copy(alloc));
    let link = links(alloc, expansions, g.link.items());
    let around = both(link, own_qual(alloc, &g.qual, condition));
    match both(own, around) {
        Ok(((arg, by), (link, qual))) => Ok(QAgg {
            slot: g.slot,
            op: g.op,
            source,
            arg,
            by,
            link,
            qual,
        }),
        Err(error) => Err(error),
    }
}

/// The aggregate over what its source stands for, restricted to what may be read, with the expansions' terms in
/// its links. `NoPermit` exactly where what it names may not be read.
fn expanded_aggregate<B: Base>(
    alloc: Global,
    base: &mut B,
    who: Option<&Name>,
    g: &QAgg,
    expansions: &[Expansion],
    found: &mut ExpansionsFound,
) -> Result<QAgg, ExpansionFault>
    requires source { (db : Db) → B.database base.old ≡ Some db → source_fits (kept_or_viewed db) db g.now.source ≡ true }
    requires scoped { list_all is_scoped expansions.now ≡ true }
    requires fits { length (expansions_vars expansions.now) ≤ 256 }
    requires found { (db : Db) → B.database base.old ≡ Some db → IsFound db (who_of (option_map (λ n. n.now) who)) found.old }
    ensures known { (db : Db) → B.database base.old ≡ Some db → IfOk result (λ made. made ≡ expanded_aggregate db (who_of (option_map (λ n. n.now) who.entry)) (substituted_from 0 expansions.now) g.now) }
    ensures permitted { (db : Db) → B.database base.old ≡ Some db → OnOk result (source_permitted (readable db (who_of (option_map (λ n. n.now) who.entry))) (used_in_aggregate g.now) g.now.source ≡ true) }
    ensures found { (db : Db) → B.database base.old ≡ Some db → IsFound db (who_of (option_map (λ n. n.now) who.entry)) found.new }
    ensures kept { B.database base.new ≡ B.database base.old }
    ensures stays { (s : Db) → B.schema base.old ≡ Some s → B.schema base.new ≡ Some s }
    ensures asked { (b : B) → B.asked b base.old → B.asked b base.new }
    ensures cause { HasCause (λ db. source_permitted (readable db (who_of (option_map (λ n. n.now) who.entry))) (used_in_aggregate g.now) g.now.source ≡ false) (B.database base.old) (B.faults base.old) (B.faults base.new) result }
{
    let attrs = aggregate_uses(alloc, g)?;
    match expanded_source(alloc, base, who, &g.source, &attrs, found) {
        Ok((source, condition)) => match aggregate_over(alloc, g, expansions, source, condition) {
            Ok(made) => Ok(made),
            Err(_) => Err(ExpansionFault::OutOfMemory),
        },
        Err(error) => Err(error),
    }
}

/// Puts what is made of these aggregates behind those that are there.
fn put_all<B: Base>(
    alloc: Global,
    base: &mut B,
    who: Option<&Name>,
    aggregates: &[&QAgg],
    expansions: &[Expansion],
    made: &mut Vec<QAgg>,
    found: &mut ExpansionsFound,
) -> Result<(), ExpansionFault>
    requires sources { (db : Db) → B.database base.old ≡ Some db → list_all (λ g. source_fits (kept_or_viewed db) db g.now.source) aggregates.now ≡ true }
    requires scoped { list_all is_scoped expansions.now ≡ true }
    requires fits { length (expansions_vars expansions.now) ≤ 256 }
    requires found { (db : Db) → B.database base.old ≡ Some db → IsFound db (who_of (option_map (λ n. n.now) who)) found.old }
    ensures known { (db : Db) → B.database base.old ≡ Some db → OnOk result (made.new.items ≡ made.old.items ++ map (λ g. expanded_aggregate db (who_of (option_map (λ n. n.now) who.entry)) (substituted_from 0 expansions.now) g.now) aggregates.now) }
    ensures permitted { (db : Db) → B.database base.old ≡ Some db → OnOk result (list_all (λ g. source_permitted (readable db (who_of (option_map (λ n. n.now) who.entry))) (used_in_aggregate g.now) g.now.source) aggregates.now ≡ true) }
    ensures found { (db : Db) → B.database base.old ≡ Some db → IsFound db (who_of (option_map (λ n. n.now) who.entry)) found.new }
    ensures kept { B.database base.new ≡ B.database base.old }
    ensures stays { (s : Db) → B.schema base.old ≡ Some s → B.schema base.new ≡ Some s }
    ensures asked { (b : B) → B.asked b base.old → B.asked b base.new }
    ensures cause { HasCause (λ db. list_all (λ g. source_permitted (readable db (who_of (option_map (λ n. n.now) who.entry))) (used_in_aggregate g.now) g.now.source) aggregates.now ≡ false) (B.database base.old) (B.faults base.old) (B.faults base.new) result }
{
    for aggregate in aggregates {
        match expanded_aggregate(alloc, base, who, *aggregate, expansions, found) {
            Ok(one) => push(made, one)?,
            Err(error) => return Err(error),
        }
    }
    Ok(())
}

/// The aggregates of a query, by their slots, whose variables have these expansions: each over what its source
/// stands for, restricted to what may be read, with the expansions' terms in its links. `NoPermit` exactly where
/// what one of them names may not be read.
pub(crate) fn put_aggregates<B: Base>(
    alloc: Global,
    base: &mut B,
    who: Option<&Name>,
    query: &Query,
    expansions: &[Expansion],
    found: &mut ExpansionsFound,
) -> Result<Vec<QAgg>, ExpansionFault>
    requires sources { (db : Db) → B.database base.old ≡ Some db → sources_fit (kept_or_viewed db) db query.now ≡ true }
    requires scoped { list_all is_scoped expansions.now ≡ true }
    requires fits { length (expansions_vars expansions.now) ≤ 256 }
    requires found { (db : Db) → B.database base.old ≡ Some db → IsFound db (who_of (option_map (λ n. n.now) who)) found.old }
    ensures known { (db : Db) → B.database base.old ≡ Some db → IfOk result (λ made. made.items ≡ map (expanded_aggregate db (who_of (option_map (λ n. n.now) who.entry)) (substituted_from 0 expansions.now)) (query_aggregates query.now)) }
    ensures permitted { (db : Db) → B.database base.old ≡ Some db → OnOk result (aggregates_permitted (readable db (who_of (option_map (λ n. n.now) who.entry))) query.now ≡ true) }
    ensures found { (db : Db) → B.database base.old ≡ Some db → IsFound db (who_of (option_map (λ n. n.now) who.entry)) found.new }
    ensures kept { B.database base.new ≡ B.database base.old }
    ensures stays { (s : Db) → B.schema base.old ≡ Some s → B.schema base.new ≡ Some s }
    ensures asked { (b : B) → B.asked b base.old → B.asked b base.new }
    ensures cause { HasCause (λ db. aggregates_permitted (readable db (who_of (option_map (λ n. n.now) who.entry))) query.now ≡ false) (B.database base.old) (B.faults base.old) (B.faults base.new) result }
{
    let aggregates = aggregates_of(alloc, query)?;
    let mut made = Vec::new(alloc);
    match put_all(alloc, base, who, &aggregates, expansions, &mut made, found) {
        Ok(()) => Ok(made),
        Err(error) => Err(error),
    }
}
