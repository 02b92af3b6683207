//! Updates that aren't refused.

ghost use Rattle.std.specs.Prelude.{◌≡◌, ℕ, List, true, Ok};
ghost use Rattle.calculus.specs.declared.change.DbChange.{DbChange};
ghost use Rattle.calculus.specs.declared.request.Update.{Update};
ghost use Rattle.calculus.specs.declared.request.Checked.TheVariants as checked;
ghost use Rattle.calculus.specs.Who.{Who};
ghost use Rattle.calculus.specs.Database.{Db};
ghost use Rattle.calculus.specs.IsDatabase.{IsDatabase};
ghost use Rattle.calculus.specs.Replacement.{updated};
ghost use Rattle.calculus.specs.Change.{IsLawful};
ghost use Rattle.quel_meaning.specs.FitQueries.{Allowed};
ghost use Rattle.quel_meaning.specs.Fit.{fits};

/// An update that is fit for the database, where it isn't refused, makes a lawful change, whoever asks: the
/// rows that go are there, those that come are not, and what is left is a database. So it is of what makes
/// a relation of an answer, and whatever is read: base relations, catalogues and views.
pub fn an_update_is_lawful()
    ensures { (may : Allowed) (db : Db) (user : List ℕ) (who : Who) (u : Update) (change : DbChange)
        → IsDatabase db → fits may db user (checked.Update u) ≡ true → updated db who u ≡ Ok change → IsLawful db change }
{}
