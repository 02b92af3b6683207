//! For each kind of change a test of it that is true exactly where the change is lawful.

ghost use Rattle.std.specs.Prelude.{◌≡◌, ◌↔◌, ℕ, true, List};
ghost use Rattle.calculus.specs.declared.query.Query.{Query};
ghost use Rattle.calculus.specs.declared.query.RelKey.{RelKey};
ghost use Rattle.calculus.specs.declared.schema.Permit.{Permit};
ghost use Rattle.calculus.specs.declared.schema.RelInfo.{RelInfo};
ghost use Rattle.calculus.specs.declared.schema.Rule.{Rule};
ghost use Rattle.calculus.specs.declared.schema.Spec.{Spec};
ghost use Rattle.calculus.specs.declared.change.DbChange.{DbChange};
ghost use Rattle.calculus.specs.declared.change.DbChange.TheVariants as change;
ghost use Rattle.calculus.specs.Rows.{Row};
ghost use Rattle.calculus.specs.Database.{Db};
ghost use Rattle.calculus.specs.IsDatabase.{IsDatabase};
ghost use Rattle.calculus.specs.Change.{IsLawful};
ghost use Rattle.change_laws.specs.Fit.{rows_are_fit, relation_is_fit, destroying_is_fit, structure_is_fit, index_is_fit, view_is_fit, permit_is_fit, rule_is_fit, permits_may_go, rules_may_go, change_is_fit};

/// Rows may go and come exactly where the relation is there, those that go are its own, those that
/// come are not and fit it, none is listed twice, and there are no more then than may be.
pub fn rows_are_fit_exactly_where_lawful()
    ensures { (db : Db) (rel : RelKey) (remove add : List Row) → IsDatabase db
        → (rows_are_fit db rel remove add ≡ true) ↔ IsLawful db (change.Rows rel remove add) }
{}

/// A relation may be made exactly where its key is free, what is known of it stands, and its rows
/// differ, fit and are no more than may be.
pub fn relation_is_fit_exactly_where_lawful()
    ensures { (db : Db) (info : RelInfo) (rows : List Row) → IsDatabase db
        → (relation_is_fit db info rows ≡ true) ↔ IsLawful db (change.Create info rows) }
{}

/// Relations, views and indexes may go exactly where each is there, none is listed twice, and no
/// view that stays names one.
pub fn destroying_is_fit_exactly_where_lawful()
    ensures { (db : Db) (rels : List RelKey) → IsDatabase db
        → (destroying_is_fit db rels ≡ true) ↔ IsLawful db (change.Destroy rels) }
{}

/// A relation may be stored in another structure exactly where it is there and the structure stands
/// for its attributes.
pub fn structure_is_fit_exactly_where_lawful()
    ensures { (db : Db) (rel : RelKey) (to : Spec) (keys : List ℕ) → IsDatabase db
        → (structure_is_fit db rel to keys ≡ true) ↔ IsLawful db (change.Modify rel to keys) }
{}

/// An index may be made exactly where its relation is there, it has key attributes of that, and its
/// key is free.
pub fn index_is_fit_exactly_where_lawful()
    ensures { (db : Db) (base : RelKey) (name keys : List ℕ) → IsDatabase db
        → (index_is_fit db base name keys ≡ true) ↔ IsLawful db (change.Index base name keys) }
{}

/// A view may be made exactly where its key is free, what is known of it is what its query gives,
/// what this names is there, and it is within the limits.
pub fn view_is_fit_exactly_where_lawful()
    ensures { (db : Db) (info : RelInfo) (query : Query) → IsDatabase db
        → (view_is_fit db info query ≡ true) ↔ IsLawful db (change.View info query) }
{}

/// A permit may be made exactly where it stands on a relation of the administrator, is small
/// enough, and has a free number.
pub fn permit_is_fit_exactly_where_lawful()
    ensures { (db : Db) (rel : RelKey) (permit : Permit) → IsDatabase db
        → (permit_is_fit db rel permit ≡ true) ↔ IsLawful db (change.Permit rel permit) }
{}

/// A rule may be made exactly where it stands on a relation, is small enough, and has a free
/// number.
pub fn rule_is_fit_exactly_where_lawful()
    ensures { (db : Db) (rel : RelKey) (rule : Rule) → IsDatabase db
        → (rule_is_fit db rel rule ≡ true) ↔ IsLawful db (change.Rule rel rule) }
{}

/// Permits may go exactly where the relation is there, each number is that of one of its permits,
/// and none is listed twice.
pub fn permits_may_go_exactly_where_lawful()
    ensures { (db : Db) (rel : RelKey) (numbers : List ℕ) → IsDatabase db
        → (permits_may_go db rel numbers ≡ true) ↔ IsLawful db (change.DropPermits rel numbers) }
{}

/// Rules may go exactly where the relation is there, each number is that of one of its rules, and
/// none is listed twice.
pub fn rules_may_go_exactly_where_lawful()
    ensures { (db : Db) (rel : RelKey) (numbers : List ℕ) → IsDatabase db
        → (rules_may_go db rel numbers ≡ true) ↔ IsLawful db (change.DropRules rel numbers) }
{}

/// A change of any kind is lawful exactly where its test is true.
pub fn change_is_fit_exactly_where_lawful()
    ensures { (db : Db) (made : DbChange) → IsDatabase db → (change_is_fit db made ≡ true) ↔ IsLawful db made }
{}
