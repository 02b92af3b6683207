//! Conditions on one variable, applied to its rows before they are joined with others.

ghost use Rattle.std.specs.Prelude.{◌≡◌, ◌<◌, ℕ, List, map, length};
ghost use Rattle.calculus.specs.declared.query.RelKey.{RelKey};
ghost use Rattle.calculus.specs.declared.query.QQual.{QQual};
ghost use Rattle.calculus.specs.declared.query.Query.{Query};
ghost use Rattle.calculus.specs.declared.request.Update.{Update};
ghost use Rattle.calculus.specs.Tree.{both};
ghost use Rattle.calculus.specs.Rows.{Row};
ghost use Rattle.calculus.specs.Term.{Aggs};
ghost use Rattle.calculus.specs.Who.{Who};
ghost use Rattle.calculus.specs.Database.{Db};
ghost use Rattle.calculus.specs.QueryParts.{vars_of, qual_of};
ghost use Rattle.calculus.specs.Assignments.{assigned_by, variable_rows, changing_by, update_rows};
ghost use Rattle.calculus.specs.Targets.{qualifying, rows_given, some_lacks};
ghost use Rattle.calculus.specs.VariableRows.{rows_of};
ghost use Rattle.calculus.specs.Aggregate.{aggregates};
ghost use Rattle.calculus.specs.Answer.{answer, lacks};
ghost use Rattle.calculus.specs.Pairs.{qualifying_updates};
ghost use Rattle.calculus_laws.specs.Detaching.{AsksForBoth, IsOfOne, cut_down, seen_cut_down, qualifying_changes, with_qual};

/// `p and q` asks for what `p` and `q` ask for, and so does `q and p`.
pub fn and_asks_for_both()
    ensures left { (p q : QQual) → AsksForBoth (both p q) p q }
    ensures right { (p q : QQual) → AsksForBoth (both q p) p q }
{}

/// A condition on one variable may be applied to its rows first: then the rest of the qualification
/// holds in the same assignments, wherever the rows of the variables come from.
pub fn a_condition_is_detached()
    ensures { (aggs : Aggs) (q : Query) (p rest : QQual) (v : ℕ)
        → AsksForBoth (qual_of q) p rest → IsOfOne v p → v < length (vars_of q) → (rows : ℕ → RelKey → List Row)
        → qualifying aggs q (assigned_by rows q) ≡ qualifying aggs (with_qual rest q) (assigned_by (cut_down v p rows) q) }
{}

/// So a query answers the same where the condition is applied to the variable's rows first.
pub fn an_answer_is_detached()
    ensures { (db : Db) (who : Who) (q : Query) (p rest : QQual) (v : ℕ)
        → AsksForBoth (qual_of q) p rest → IsOfOne v p → v < length (vars_of q)
        → answer db who q ≡ rows_given (aggregates db who) (with_qual rest q) (assigned_by (cut_down v p (variable_rows (rows_of db who) q)) q) }
{}

/// And it lacks the value of a target in the same cases.
pub fn a_lack_is_detached()
    ensures { (db : Db) (who : Who) (q : Query) (p rest : QQual) (v : ℕ)
        → AsksForBoth (qual_of q) p rest → IsOfOne v p → v < length (vars_of q)
        → lacks db who q ≡ some_lacks (aggregates db who) (with_qual rest q) (assigned_by (cut_down v p (variable_rows (rows_of db who) q)) q) }
{}

/// An update has the same assignments where the condition is applied first, with the same rows that are
/// replaced or deleted.
pub fn an_update_is_detached()
    ensures { (db : Db) (who : Who) (u : Update) (p rest : QQual) (v : ℕ)
        → AsksForBoth (qual_of u.query) p rest → IsOfOne v p → v < length (vars_of u.query)
        → qualifying_updates db who u
        ≡ qualifying_changes (aggregates db who) (with_qual rest u.query)
        (map changing_by (assigned_by (seen_cut_down v p (update_rows db who (rows_of db who) u)) u.query)) }
{}
