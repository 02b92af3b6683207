//! The tables of queries over a database.

ghost use Rattle.std.specs.Prelude.{◌≡◌, Some, IsTrue, IsFalse, IfOk, OnOk, All, map};
ghost use Rattle.std.specs.List.{list_all};
ghost use Rattle.calculus.specs.Answer.{answer, lacks};
ghost use Rattle.calculus.specs.Assignments.{assigned};
ghost use Rattle.calculus.specs.Database.{Db};
ghost use Rattle.calculus.specs.QueryParts.{targets_of, vars_of};
ghost use Rattle.calculus.specs.Table.{tabled};
ghost use Rattle.calculus.specs.Targets.{rows_given, some_lacks};
ghost use Rattle.calculus.specs.VariableRows.{rows_of};
ghost use Rattle.calculus.specs.Who.{Unrestricted};
ghost use Rattle.ovqp.specs.Causes.{HasCause as HasAnswerCause};
ghost use Rattle.quel_meaning.specs.FitQueries.{is_kept, kept_alone, slots_count_up, sources_fit};
ghost use Rattle.quel_meaning.specs.Tables.{column_of, table_of, some_query_lacks};
ghost use Rattle.stage_proc.specs.TableCauses.{CanBeAnswered, HasCause, HasOneCause};

use crate::columns::columns_of;
use crate::sorting::sorted;
use aggregates::settle;
use base_trait::Base;
use calculus::{AggTable, Asked, List, OutOfMemory, Query, RowSet, Table};
use decompose::{QueryFault, answer};
use memory::push;
use std::alloc::Global;

/// The table of these rows, which are a query's answer: a column for each target, and the rows in the
/// order that is asked for.
fn table_with(alloc: Global, asked: &Asked, set: RowSet) -> Result<Table, OutOfMemory>
    ensures columns { IfOk result (λ table. table.columns ≡ map column_of (targets_of asked.now.query)) }
    ensures known { IfOk result (λ table. (db : Db) → set ≡ answer db Unrestricted asked.now.query → table ≡ table_of db Unrestricted asked.now) }
{
    match columns_of(alloc, asked.query.targets.items()) {
        Ok(columns) => Ok(Table {
            columns: List::of(columns),
            rows: List::of(sorted(set.into_rows(), asked.sort.items())),
        }),
        Err(error) => {
            drop(set);
            Err(error)
        }
    }
}

/// The answer of a query over a database, where the tables of its aggregates are given away.
fn answer_by<B: Base>(
    alloc: Global,
    base: &mut B,
    q: &Query,
    tables: Vec<AggTable>,
) -> Result<RowSet, QueryFault>
    requires { (db : Db) → B.database base.old ≡ Some db → IsTrue (list_all (is_kept db) (vars_of q.now)) }
    ensures rows { (db : Db) → B.database base.old ≡ Some db
        → IfOk result (λ set. set ≡ rows_given (tabled tables.items) q.now (assigned (rows_of db Unrestricted) q.now)) }
    ensures none_lacks { (db : Db) → B.database base.old ≡ Some db
        → OnOk result (IsFalse (some_lacks (tabled tables.items) q.now (assigned (rows_of db Unrestricted) q.now))) }
    ensures kept { B.database base.new ≡ B.database base.old }
    ensures stays { (s : Db) → B.schema base.old ≡ Some s → B.schema base.new ≡ Some s }
    ensures asked { (b : B) → B.asked b base.old → B.asked b base.new }
    ensures cause { HasAnswerCause (tabled tables.items) q.now (B.database base.old) (B.faults base.old) (B.faults base.new) result }
{
    let set = answer(alloc, base, q, &tables);
    drop(tables);
    set
}

/// The answer of a query over a database, unrestricted, its aggregates settled first.
fn settled_answer<B: Base>(alloc: Global, base: &mut B, q: &Query) -> Result<RowSet, QueryFault>
    requires read { (db : Db) → B.database base.old ≡ Some db → IsTrue (list_all (is_kept db) (vars_of q.now)) }
    requires fit { (db : Db) → B.database base.old ≡ Some db → IsTrue (sources_fit (kept_alone db) db q.now) }
    requires numbered { (db : Db) → B.database base.old ≡ Some db → IsTrue (slots_count_up q.now) }
    ensures known { (db : Db) → B.database base.old ≡ Some db → IfOk result (λ set. set ≡ answer db Unrestricted q.now) }
    ensures none_lacks { (db : Db) → B.database base.old ≡ Some db → OnOk result (IsFalse (lacks db Unrestricted q.now)) }
    ensures kept { B.database base.new ≡ B.database base.old }
    ensures stays { (s : Db) → B.schema base.old ≡ Some s → B.schema base.new ≡ Some s }
    ensures asked { (b : B) → B.asked b base.old → B.asked b base.new }
    ensures cause { HasOneCause q.now (B.database base.old) (B.faults base.old) (B.faults base.new) result }
{
    let tables = settle(alloc, base, q)?;
    answer_by(alloc, base, q, tables)
}

/// The table of a query over a database, unrestricted: a column for each target, and the
/// rows of the answer in the order that is asked for. It is `NoValue` exactly where a target has no value
/// in an assignment in which the qualification holds. What its aggregates are over is read once, before
/// the variables are.
pub fn table_of<B: Base>(alloc: Global, base: &mut B, asked: &Asked) -> Result<Table, QueryFault>
    requires read { (db : Db) → B.database base.old ≡ Some db → IsTrue (list_all (is_kept db) (vars_of asked.now.query)) }
    requires fit { (db : Db) → B.database base.old ≡ Some db → IsTrue (sources_fit (kept_alone db) db asked.now.query) }
    requires numbered { (db : Db) → B.database base.old ≡ Some db → IsTrue (slots_count_up asked.now.query) }
    // Whatever is known of the base, the columns are those of the tree.
    ensures columns { IfOk result (λ table. table.columns ≡ map column_of (targets_of asked.now.query)) }
    ensures known { (db : Db) → B.database base.old ≡ Some db → IfOk result (λ table. table ≡ table_of db Unrestricted asked.now) }
    ensures none_lacks { (db : Db) → B.database base.old ≡ Some db → OnOk result (IsFalse (lacks db Unrestricted asked.now.query)) }
    ensures kept { B.database base.new ≡ B.database base.old }
    ensures stays { (s : Db) → B.schema base.old ≡ Some s → B.schema base.new ≡ Some s }
    ensures asked { (b : B) → B.asked b base.old → B.asked b base.new }
    ensures cause { HasOneCause asked.now.query (B.database base.old) (B.faults base.old) (B.faults base.new) result }
{
    let set = settled_answer(alloc, base, &asked.query)?;
    Ok(table_with(alloc, asked, set)?)
}

/// The tables of queries over a database, in their order, unrestricted. It is `NoValue`
/// exactly where in one of them a target has no value in an assignment in which the qualification holds.
pub fn tables_of<B: Base>(
    alloc: Global,
    base: &mut B,
    asked: &[Asked],
) -> Result<List<Table>, QueryFault>
    requires { (db : Db) → B.database base.old ≡ Some db → All (λ a. CanBeAnswered db a.query) asked.now }
    // Whatever is known of the base, there is a table for each query, with the columns of its tree.
    ensures columns { IfOk result (λ tables. map (λ t. t.columns) tables ≡ map (λ a. map column_of (targets_of a.query)) asked.now) }
    ensures known { (db : Db) → B.database base.old ≡ Some db → IfOk result (λ tables. tables ≡ map (table_of db Unrestricted) asked.now) }
    ensures none_lacks { (db : Db) → B.database base.old ≡ Some db → OnOk result (IsFalse (some_query_lacks db Unrestricted asked.now)) }
    ensures kept { B.database base.new ≡ B.database base.old }
    ensures stays { (s : Db) → B.schema base.old ≡ Some s → B.schema base.new ≡ Some s }
    ensures asked { (b : B) → B.asked b base.old → B.asked b base.new }
    ensures cause { HasCause asked.now (B.database base.old) (B.faults base.old) (B.faults base.new) result }
{
    let mut tables = Vec::new(alloc);
    for one in asked {
        let table = table_of(alloc, base, one)?;
        push(&mut tables, table)?;
    }
    let tables = List::of(tables);
    Ok(tables)
}
