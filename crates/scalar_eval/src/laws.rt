//! Laws of the definitions: each is what a function without parameters ensures.

ghost use Rattle.std.specs.Prelude.{◌≡◌, ◌↔◌, List, ℕ, IsTrue};
ghost use Rattle.calculus.specs.declared.agg_table.AggTable.{AggTable};
ghost use Rattle.calculus.specs.declared.query.QTerm.{QTerm};
ghost use Rattle.calculus.specs.declared.query.QQual.{QQual};
ghost use Rattle.calculus.specs.Term.{Aggs, Env, val, holds};
ghost use Rattle.calculus.specs.Table.{tabled, HasTables, HasAllTables};
ghost use Rattle.calculus.specs.Pattern.{Matches, matches};

/// The test that tells whether a text matches a pattern is true exactly where the relation holds that
/// says what it is to match: item by item from the front, with any split of the text at a `*`.
pub fn matches_are_by_the_relation()
    ensures { (pattern text : List ℕ) → IsTrue (matches pattern text) ↔ Matches pattern text }
{}

/// Where each aggregate of a term or a qualification has at its slot a table that stands for it, the
/// value and the truth by the tables are those by the aggregates, in every assignment.
pub fn tables_stand_for_aggregates()
    ensures value { (tables : List AggTable) (aggs : Aggs) (t : QTerm) (e : Env) → HasTables tables aggs t → val (tabled tables) t e ≡ val aggs t e }
    ensures truth { (tables : List AggTable) (aggs : Aggs) (q : QQual) (e : Env) → HasAllTables tables aggs q → holds (tabled tables) q e ≡ holds aggs q e }
{}
