//! Views that are defined.

ghost use Rattle.std.specs.Prelude.{◌≡◌, ℕ, List, Ok};
ghost use Rattle.calculus.specs.declared.query.RelKey.{RelKey};
ghost use Rattle.calculus.specs.declared.query.Query.{Query};
ghost use Rattle.calculus.specs.declared.request.Utility.TheVariants as utility;
ghost use Rattle.calculus.specs.declared.change.DbChange.{DbChange};
ghost use Rattle.calculus.specs.Database.{Db};
ghost use Rattle.calculus.specs.IsDatabase.{IsDatabase};
ghost use Rattle.calculus.specs.Change.{IsLawful};
ghost use Rattle.quel_meaning.specs.Planned.{planned};
ghost use Rattle.plan_laws.specs.Fitting.{IsFitView};

/// A view that is defined, under a key that nothing has, is a lawful change.
pub fn a_new_view_is_lawful()
    ensures { (db : Db) (user : List ℕ) (rel : RelKey) (q : Query) (made : DbChange)
        → IsDatabase db → IsFitView db rel q → planned db user (utility.View rel q) ≡ Ok made → IsLawful db made }
{}
