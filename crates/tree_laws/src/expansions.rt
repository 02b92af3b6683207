//! What the expansions of keys are.

ghost use Rattle.std.specs.Prelude.{◌≡◌, true, ℕ, List, length};
ghost use Rattle.std.specs.List.{list_all};
ghost use Rattle.calculus.specs.declared.query.QTerm.{QTerm};
ghost use Rattle.calculus.specs.declared.query.Query.{Query};
ghost use Rattle.calculus.specs.declared.query.RelKey.{RelKey};
ghost use Rattle.calculus.specs.Database.{Db};
ghost use Rattle.calculus.specs.IsDatabase.{IsDatabase};
ghost use Rattle.calculus.specs.QueryParts.{vars_of};
ghost use Rattle.calculus.specs.Rows.{Row};
ghost use Rattle.calculus.specs.Stored.{range_at};
ghost use Rattle.calculus.specs.VariableRows.{rows_of};
ghost use Rattle.calculus.specs.Who.{Who};
ghost use Rattle.calculus_laws.specs.Expansion.{is_no_view};
ghost use Rattle.tree_laws.specs.Denoting.{DenotesOf};
ghost use Rattle.view_text.specs.Expanded.{expanded};
ghost use Rattle.view_text.specs.Scoped.{is_scoped};
ghost use Rattle.view_text.specs.ExpansionOf.{expansion_of};

/// The expansion of what stands under a key tells of the rows that the one who asks has of it: of each of
/// them, and of no other.
pub fn an_expansion_denotes_its_rows()
    ensures { (db : Db) (who : Who) (key : RelKey) (attrs : List ℕ) → DenotesOf db (rows_of db who key attrs) (expansion_of db who key attrs) }
{}

/// In a database the variables of an expansion range over no views, and its terms and conditions name these
/// variables alone; and so a query with its expansions substituted ranges over no views.
pub fn expansions_name_what_is_kept()
    ensures kept { (db : Db) → IsDatabase db → (who : Who) (key : RelKey) (attrs : List ℕ) → list_all (λ key. is_no_view (range_at db key)) (expansion_of db who key attrs).vars ≡ true }
    ensures scoped { (db : Db) (who : Who) (key : RelKey) (attrs : List ℕ) → is_scoped (expansion_of db who key attrs) ≡ true }
    ensures query { (db : Db) → IsDatabase db → (who : Who) (q : Query) → list_all (λ key. is_no_view (range_at db key)) (vars_of (expanded db who q)) ≡ true }
{}
