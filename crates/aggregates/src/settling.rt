//! The tables of a query's aggregates.

ghost use Rattle.std.specs.Prelude.{◌≡◌, [], ◌∷◌, ◌++◌, List, filter, length, map, Some, IsTrue, IfOk, OnOk};
ghost use Rattle.std.specs.List.{list_all};
ghost use Rattle.std.specs.Ordering.{is_eq};
ghost use Rattle.base_trait.specs.Causes.{HasCause};
ghost use Rattle.calculus.specs.declared.value.Value.{Value as Cell};
ghost use Rattle.calculus.specs.Aggregate.{aggregates, fold_values};
ghost use Rattle.calculus.specs.Database.{Db};
ghost use Rattle.calculus.specs.Groups.{GroupsAscend};
ghost use Rattle.calculus.specs.QueryParts.{qual_of, query_aggregates, targets_of};
ghost use Rattle.calculus.specs.Rows.{Row as Values};
ghost use Rattle.calculus.specs.Table.{HasAllTables, StandsFor, in_groups, tabled};
ghost use Rattle.calculus.specs.Targets.{rows_given, some_lacks, target_values};
ghost use Rattle.calculus.specs.Term.{Env, holds};
ghost use Rattle.calculus.specs.Value.{row_cmp};
ghost use Rattle.calculus.specs.Who.{Unrestricted};
ghost use Rattle.quel_meaning.specs.FitQueries.{kept_alone, source_fits, sources_fit, slots_count_up};
ghost use Rattle.aggregates.specs.Members.{members};
ghost use Rattle.aggregates.specs.Runs.{folded};
ghost use Rattle.aggregates.specs.Settled.{AllAscend, AllStand, TargetsHaveTables};

use crate::grouping::grouped;
use crate::kinds::none_value;
use crate::members::members;
use crate::sources::source_rows;
use base_trait::{Base, BaseFault};
use calculus::{AggOp, AggTable, Groups, OutOfMemory, QAgg, Query, Row, RowSet, TryCopy, Value};
use ovqp::aggregates_of;
use std::alloc::Global;

/// What an operation makes of no values, where `none` is the least and the greatest of them.
fn of_no_values(alloc: Global, op: AggOp, none: &Value) -> Result<Value, OutOfMemory>
    ensures { IfOk result (λ v. fold_values op none.now [] ≡ Some v) }
{
    match op {
        AggOp::Min | AggOp::Max => none.copy(alloc),
        AggOp::Count
        | AggOp::Countu
        | AggOp::Sum
        | AggOp::Sumu
        | AggOp::Avg
        | AggOp::Avgu
        | AggOp::Any => Ok(Value::Int(0)),
    }
}

/// The groups that an aggregate makes of these rows.
fn groups_over(
    alloc: Global,
    agg: &QAgg,
    none: &Value,
    rows: &[Row],
) -> Result<Vec<(Row, Option<Value>)>, OutOfMemory>
    ensures ascend { IfOk result (λ groups. GroupsAscend groups.items) }
    ensures found { (empty : Cell) → fold_values agg.now.op none.now [] ≡ Some empty → (link : Values)
        → IfOk result (λ groups. in_groups empty groups.items link ≡ folded agg.now.op none.now (map (λ m. m.1) (filter (λ m. is_eq (row_cmp link m.0)) (members agg.now rows.now)))) }
{
    let members = members(alloc, agg, rows)?;
    grouped(alloc, agg.op, none, members)
}

/// The table that an aggregate makes of these rows.
fn table_over(
    alloc: Global,
    agg: &QAgg,
    none: &Value,
    rows: &[Row],
) -> Result<AggTable, OutOfMemory>
    ensures ascend { IfOk result (λ table. GroupsAscend table.groups) }
    ensures found { (link : Values)
        → IfOk result (λ table. in_groups table.empty table.groups link ≡ folded agg.now.op none.now (map (λ m. m.1) (filter (λ m. is_eq (row_cmp link m.0)) (members agg.now rows.now)))) }
{
    let empty = of_no_values(alloc, agg.op, none)?;
    match groups_over(alloc, agg, none, rows) {
        Ok(groups) => Ok(AggTable {
            groups: Groups::of(groups),
            empty,
        }),
        Err(error) => Err(error),
    }
}

/// The same, where the rows and the least of no value are given away.
fn table_of(alloc: Global, agg: &QAgg, none: Value, rows: RowSet) -> Result<AggTable, OutOfMemory>
    ensures ascend { IfOk result (λ table. GroupsAscend table.groups) }
    ensures found { (link : Values)
        → IfOk result (λ table. in_groups table.empty table.groups link ≡ folded agg.now.op none (map (λ m. m.1) (filter (λ m. is_eq (row_cmp link m.0)) (members agg.now rows)))) }
{
    table_over(alloc, agg, &none, rows.rows())
}

/// The table of an aggregate.
fn table<B: Base>(alloc: Global, base: &mut B, agg: &QAgg) -> Result<AggTable, BaseFault>
    requires { (db : Db) → B.database base.old ≡ Some db → IsTrue (source_fits (kept_alone db) db agg.now.source) }
    ensures ascend { IfOk result (λ table. GroupsAscend table.groups) }
    ensures known { (db : Db) → B.database base.old ≡ Some db → IfOk result (λ table. StandsFor table agg.now (aggregates db Unrestricted)) }
    ensures kept { B.database base.new ≡ B.database base.old }
    ensures stays { (s : Db) → B.schema base.old ≡ Some s → B.schema base.new ≡ Some s }
    ensures asked { (b : B) → B.asked b base.old → B.asked b base.new }
    ensures cause { HasCause (B.database base.old) (B.faults base.old) (B.faults base.new) result }
{
    let rows = source_rows(alloc, base, agg)?;
    match none_value(alloc, base, agg) {
        Ok(none) => Ok(table_of(alloc, agg, none, rows)?),
        Err(fault) => Err(fault),
    }
}

/// The table behind the others.
fn put_behind(tables: &mut Vec<AggTable>, table: AggTable) -> Result<(), OutOfMemory>
    ensures { OnOk result (tables.new.items ≡ tables.old.items ++ table ∷ []) }
{
    tables.push(table)?;
    Ok(())
}

/// The tables of these aggregates, in their order.
fn tables_of<B: Base>(
    alloc: Global,
    base: &mut B,
    aggs: &[&QAgg],
) -> Result<Vec<AggTable>, BaseFault>
    requires { (db : Db) → B.database base.old ≡ Some db → IsTrue (list_all (λ g. source_fits (kept_alone db) db g.now.source) aggs.now) }
    ensures many { IfOk result (λ tables. length tables.items ≡ length aggs.now) }
    ensures ascend { IfOk result (λ tables. AllAscend tables.items) }
    ensures known { (db : Db) → B.database base.old ≡ Some db → IfOk result (λ tables. AllStand db tables.items (map (λ g. g.now) aggs.now)) }
    ensures kept { B.database base.new ≡ B.database base.old }
    ensures stays { (s : Db) → B.schema base.old ≡ Some s → B.schema base.new ≡ Some s }
    ensures asked { (b : B) → B.asked b base.old → B.asked b base.new }
    ensures cause { HasCause (B.database base.old) (B.faults base.old) (B.faults base.new) result }
{
    let mut tables = Vec::new(alloc);
    for agg in aggs {
        let table = table(alloc, base, agg)?;
        put_behind(&mut tables, table)?;
    }
    Ok(tables)
}

/// The tables of a query's aggregates, unrestricted: one for each, at its slot, which
/// stands for it. The source of each is read once, whole, and its rows are sorted by their by-values;
/// the groups of each table ascend strictly by these. A fault is one of the database: where a group or
/// a term has no value, the table says so.
pub fn settle<B: Base>(alloc: Global, base: &mut B, q: &Query) -> Result<Vec<AggTable>, BaseFault>
    requires fit { (db : Db) → B.database base.old ≡ Some db → IsTrue (sources_fit (kept_alone db) db q.now) }
    requires numbered { (db : Db) → B.database base.old ≡ Some db → IsTrue (slots_count_up q.now) }
    ensures many { IfOk result (λ tables. length tables.items ≡ length (query_aggregates q.now)) }
    ensures ascend { IfOk result (λ tables. AllAscend tables.items) }
    ensures targets { (db : Db) → B.database base.old ≡ Some db → IfOk result (λ tables. TargetsHaveTables tables.items db q.now) }
    ensures qual { (db : Db) → B.database base.old ≡ Some db → IfOk result (λ tables. HasAllTables tables.items (aggregates db Unrestricted) (qual_of q.now)) }
    ensures values { (db : Db) → B.database base.old ≡ Some db
        → IfOk result (λ tables. (e : Env) → target_values (tabled tables.items) (targets_of q.now) e ≡ target_values (aggregates db Unrestricted) (targets_of q.now) e) }
    ensures truth { (db : Db) → B.database base.old ≡ Some db
        → IfOk result (λ tables. (e : Env) → holds (tabled tables.items) (qual_of q.now) e ≡ holds (aggregates db Unrestricted) (qual_of q.now) e) }
    ensures rows { (db : Db) → B.database base.old ≡ Some db
        → IfOk result (λ tables. (es : List Env) → rows_given (tabled tables.items) q.now es ≡ rows_given (aggregates db Unrestricted) q.now es) }
    ensures lacks { (db : Db) → B.database base.old ≡ Some db
        → IfOk result (λ tables. (es : List Env) → some_lacks (tabled tables.items) q.now es ≡ some_lacks (aggregates db Unrestricted) q.now es) }
    ensures kept { B.database base.new ≡ B.database base.old }
    ensures stays { (s : Db) → B.schema base.old ≡ Some s → B.schema base.new ≡ Some s }
    ensures asked { (b : B) → B.asked b base.old → B.asked b base.new }
    ensures cause { HasCause (B.database base.old) (B.faults base.old) (B.faults base.new) result }
{
    let aggs = aggregates_of(alloc, q)?;
    let tables = tables_of(alloc, base, &aggs);
    drop(aggs);
    tables
}
