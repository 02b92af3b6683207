//! Permits and rules.

ghost use Rattle.std.specs.Prelude.{◌≡◌, ℕ, List, IsTrue, Ok};
ghost use Rattle.calculus.specs.declared.query.RelKey.{RelKey};
ghost use Rattle.calculus.specs.declared.schema.Permit.{Permit};
ghost use Rattle.calculus.specs.declared.schema.Rule.{Rule};
ghost use Rattle.calculus.specs.declared.request.Utility.TheVariants as utility;
ghost use Rattle.calculus.specs.declared.change.DbChange.{DbChange};
ghost use Rattle.calculus.specs.Database.{Db};
ghost use Rattle.calculus.specs.IsDatabase.{IsDatabase};
ghost use Rattle.calculus.specs.Change.{IsLawful};
ghost use Rattle.quel_meaning.specs.Planned.{planned};
ghost use Rattle.plan_laws.specs.Fitting.{is_ranged, IsFitPermit, IsFitRule};

/// A permit or a rule that fits, where it isn't refused, makes a lawful change: it gets a number that
/// none of the relation's has, and what it leaves is a database.
pub fn new_permits_and_rules_are_lawful()
    ensures permit { (db : Db) (user : List ℕ) (rel : RelKey) (permit : Permit) (change : DbChange)
        → IsDatabase db → IsFitPermit db rel permit → planned db user (utility.Permit rel permit) ≡ Ok change → IsLawful db change }
    ensures rule { (db : Db) (user : List ℕ) (rel : RelKey) (rule : Rule) (change : DbChange)
        → IsDatabase db → IsFitRule db rel rule → planned db user (utility.Rule rel rule) ≡ Ok change → IsLawful db change }
{}

/// Permits or rules that go, by their numbers or all of them, where that isn't refused, make a lawful
/// change: each number stands and is listed once.
pub fn dropping_permits_and_rules_is_lawful()
    ensures permits { (db : Db) (user : List ℕ) (rel : RelKey) (numbers : List ℕ) (change : DbChange)
        → IsDatabase db → IsTrue (is_ranged db rel) → planned db user (utility.DropPermits rel numbers) ≡ Ok change → IsLawful db change }
    ensures rules { (db : Db) (user : List ℕ) (rel : RelKey) (numbers : List ℕ) (change : DbChange)
        → IsDatabase db → IsTrue (is_ranged db rel) → planned db user (utility.DropRules rel numbers) ≡ Ok change → IsLawful db change }
{}
