//! Laws of the definitions: each is what a function without parameters ensures.

ghost use Rattle.std.specs.Prelude.{◌≡◌, List, []};
ghost use Rattle.calculus.specs.declared.query.QTerm.{QTerm};
ghost use Rattle.calculus.specs.declared.query.QQual.{QQual};
ghost use Rattle.calculus.specs.declared.query.Query.{Query};
ghost use Rattle.calculus.specs.Answer.{answer, lacks};
ghost use Rattle.calculus.specs.Assignments.{assigned};
ghost use Rattle.calculus.specs.Database.{Db};
ghost use Rattle.calculus.specs.QueryParts.{term_aggregates, qual_aggregates, query_aggregates};
ghost use Rattle.calculus.specs.Targets.{rows_given, some_lacks};
ghost use Rattle.calculus.specs.Term.{Aggs, Env, val, holds};
ghost use Rattle.calculus.specs.VariableRows.{rows_of};
ghost use Rattle.calculus.specs.Who.{Who};

/// Where a term or a qualification has no aggregates, what aggregates give doesn't count for its value
/// or truth; where a query has none, it counts neither for its rows nor for whether a target lacks a
/// value, and these are its answer and whether it lacks one.
pub fn no_aggregates_need_no_tables()
    ensures values { (aggs others : Aggs) (t : QTerm) (e : Env) → term_aggregates t ≡ [] → val aggs t e ≡ val others t e }
    ensures truths { (aggs others : Aggs) (q : QQual) (e : Env) → qual_aggregates q ≡ [] → holds aggs q e ≡ holds others q e }
    ensures rows { (aggs others : Aggs) (q : Query) (es : List Env) → query_aggregates q ≡ [] → rows_given aggs q es ≡ rows_given others q es }
    ensures lacking { (aggs others : Aggs) (q : Query) (es : List Env) → query_aggregates q ≡ [] → some_lacks aggs q es ≡ some_lacks others q es }
    ensures answers { (db : Db) (who : Who) (aggs : Aggs) (q : Query) → query_aggregates q ≡ []
        → rows_given aggs q (assigned (rows_of db who) q) ≡ answer db who q }
    ensures lacks { (db : Db) (who : Who) (aggs : Aggs) (q : Query) → query_aggregates q ≡ []
        → some_lacks aggs q (assigned (rows_of db who) q) ≡ lacks db who q }
{}
