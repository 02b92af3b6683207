//! What queries answer.

ghost use Rattle.std.specs.Prelude.{◌≡◌, true};
ghost use Rattle.calculus.specs.declared.query.Query.{Query};
ghost use Rattle.calculus.specs.Answer.{answer, lacks};
ghost use Rattle.calculus.specs.Database.{Db};
ghost use Rattle.calculus.specs.IsDatabase.{IsDatabase};
ghost use Rattle.calculus.specs.Who.{Who, Unrestricted};
ghost use Rattle.tree_laws.specs.Nesting.{aggregates_nest_none};
ghost use Rattle.view_text.specs.Expanded.{expanded};

/// In a database a query answers for the one who asks what it answers unrestricted once the
/// expansions of its variables and of its aggregates' sources are put in, views and permits and all; and it
/// lacks the value of a target in the same cases. So it is of every query in whose aggregates no other
/// stands.
pub fn what_is_put_in_answers_the_same()
    ensures answers { (db : Db) → IsDatabase db → (who : Who) (q : Query) → aggregates_nest_none q ≡ true → answer db who q ≡ answer db Unrestricted (expanded db who q) }
    ensures lacks { (db : Db) → IsDatabase db → (who : Who) (q : Query) → aggregates_nest_none q ≡ true → lacks db who q ≡ lacks db Unrestricted (expanded db who q) }
{}
