//! What updates change.

ghost use Rattle.std.specs.Prelude.{◌≡◌, true};
ghost use Rattle.calculus.specs.declared.request.Update.{Update};
ghost use Rattle.calculus.specs.Database.{Db};
ghost use Rattle.calculus.specs.IsDatabase.{IsDatabase};
ghost use Rattle.calculus.specs.Pairs.{ruled};
ghost use Rattle.calculus.specs.Replacement.{updated};
ghost use Rattle.calculus.specs.Who.{Who, Unrestricted};
ghost use Rattle.tree_laws.specs.Nesting.{IsOverNoView, aggregates_nest_none};
ghost use Rattle.view_text.specs.Expanded.{expanded_update};

/// In a database an update makes for the one who asks the change that it makes unrestricted
/// once the expansions of its variables are put in, or is refused by the same number. So it is of every update
/// in whose aggregates no other stands, and of which no view is replaced in or deleted from.
pub fn what_is_put_in_changes_the_same()
    ensures { (db : Db) → IsDatabase db → (who : Who) (u : Update) → aggregates_nest_none u.query ≡ true → IsOverNoView db u
        → updated db who u ≡ updated db Unrestricted (expanded_update db who u) }
{}

/// The rules of a relation join the checks of an update before its expansions are put in or after it.
#[tactic(auto, using(crate::proofs::Ruled::ruled_put))]
pub fn rules_join_what_is_put_in()
    ensures { (db : Db) (who : Who) (u : Update) → expanded_update db who (ruled db u) ≡ ruled db (expanded_update db who u) }
{}
