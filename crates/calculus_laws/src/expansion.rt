//! What a query over a view means.

ghost use Rattle.std.specs.Prelude.{◌≡◌, List, [], ◌∷◌, Some, is_some};
ghost use Rattle.calculus.specs.declared.query.QTerm.{QTerm};
ghost use Rattle.calculus.specs.declared.query.QQual.{QQual};
ghost use Rattle.calculus.specs.declared.query.Target.{Target};
ghost use Rattle.calculus.specs.declared.query.Query.{Query};
ghost use Rattle.calculus.specs.Rows.{Row};
ghost use Rattle.calculus.specs.Term.{Env, Aggs, val, holds};
ghost use Rattle.calculus.specs.Who.{Who};
ghost use Rattle.calculus.specs.Database.{Db, View};
ghost use Rattle.calculus.specs.QueryParts.{term_aggregates, qual_aggregates};
ghost use Rattle.calculus.specs.Targets.{target_values};
ghost use Rattle.calculus.specs.Answer.{answer, lacks};
ghost use Rattle.calculus_laws.specs.Expansion.{substituted, substituted_qual, have_values, expanded, IsOverView};

/// A query over a view answers what the query over the view's own variables answers, with the view's
/// targets put in for its attributes, the view's qualification joined, and each target of the view
/// required to have a value. It holds since in an assignment of the view's text the term that was put
/// into has the value that the term has at the view's row. The one query lacks a value exactly where the
/// other does.
pub fn a_view_is_its_text()
    ensures term { (aggs : Aggs) (targets : List Target) (e : Env) (row : Row) (t : QTerm)
        → target_values aggs targets e ≡ Some row → term_aggregates t ≡ [] → val aggs (substituted targets t) e ≡ val aggs t (row ∷ []) }
    ensures qualification { (aggs : Aggs) (targets : List Target) (e : Env) (row : Row) (q : QQual)
        → target_values aggs targets e ≡ Some row → qual_aggregates q ≡ [] → holds aggs (substituted_qual targets q) e ≡ holds aggs q (row ∷ []) }
    ensures values { (aggs : Aggs) (targets : List Target) (e : Env) → holds aggs (have_values targets) e ≡ is_some (target_values aggs targets e) }
    ensures query { (db : Db) (who : Who) (view : View) (q : Query)
        → IsOverView db view q → answer db who q ≡ answer db who (expanded view.query q) }
    ensures lack { (db : Db) (who : Who) (view : View) (q : Query)
        → IsOverView db view q → lacks db who q ≡ lacks db who (expanded view.query q) }
{}
