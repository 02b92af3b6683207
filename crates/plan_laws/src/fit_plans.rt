//! Every utility that is fit.

ghost use Rattle.std.specs.Prelude.{◌≡◌, ℕ, true, false, List, Ok};
ghost use Rattle.calculus.specs.declared.request.Utility.{Utility};
ghost use Rattle.calculus.specs.declared.request.Checked.TheVariants as checked;
ghost use Rattle.calculus.specs.declared.change.DbChange.{DbChange};
ghost use Rattle.calculus.specs.Database.{Db};
ghost use Rattle.calculus.specs.IsDatabase.{IsDatabase};
ghost use Rattle.calculus.specs.Change.{IsLawful};
ghost use Rattle.quel_meaning.specs.FitQueries.{Allowed};
ghost use Rattle.quel_meaning.specs.Fit.{fits};
ghost use Rattle.quel_meaning.specs.Planned.{planned};
ghost use Rattle.plan_laws.specs.Fitting.{is_copy};

/// What is planned of a utility that is fit for the database and the user, where it isn't refused, is a
/// lawful change. So it is whatever trees may read; a copy, which is no plan, is left out.
pub fn a_fit_plan_is_lawful()
    ensures { (may : Allowed) (db : Db) (user : List ℕ) (work : Utility) (change : DbChange) → IsDatabase db → fits may db user (checked.Utility work) ≡ true
        → is_copy work ≡ false → planned db user work ≡ Ok change → IsLawful db change }
{}
