//! Copies from files.

ghost use Rattle.std.specs.Prelude.{◌≡◌, ℕ, true, List, IsTrue, Ok};
ghost use Rattle.calculus.specs.declared.query.RelKey.{RelKey};
ghost use Rattle.calculus.specs.declared.request.CopyCol.{CopyCol};
ghost use Rattle.calculus.specs.declared.request.Checked.TheVariants as checked;
ghost use Rattle.calculus.specs.declared.request.Utility.TheVariants as utility;
ghost use Rattle.calculus.specs.declared.change.DbChange.{DbChange};
ghost use Rattle.calculus.specs.Database.{Db};
ghost use Rattle.calculus.specs.IsDatabase.{IsDatabase};
ghost use Rattle.calculus.specs.Change.{IsLawful};
ghost use Rattle.fault_io.specs.Files.{Files};
ghost use Rattle.quel_meaning.specs.Copying.{copied_from};
ghost use Rattle.quel_meaning.specs.Fit.{fits};
ghost use Rattle.quel_meaning.specs.FitQueries.{Allowed};
ghost use Rattle.plan_laws.specs.Fitting.{is_ranged};

/// A copy from a file, where it isn't refused, makes a lawful change: each row that it appends fits the
/// relation and isn't there yet, and what it leaves is a database. So it is whatever the file holds, of each
/// relation that is there, and so of every copy that is fit.
pub fn a_copy_from_a_file_is_lawful()
    ensures fit { (may : Allowed) (db : Db) (shelf : Files) (user : List ℕ) (rel : RelKey) (columns : List CopyCol) (constant : List ℕ) (change : DbChange)
        → IsDatabase db → fits may db user (checked.Utility (utility.Copy rel columns true constant)) ≡ true → copied_from db shelf user rel columns constant ≡ Ok change → IsLawful db change }
    ensures there { (db : Db) (shelf : Files) (user : List ℕ) (rel : RelKey) (columns : List CopyCol) (constant : List ℕ) (change : DbChange)
        → IsDatabase db → IsTrue (is_ranged db rel) → copied_from db shelf user rel columns constant ≡ Ok change → IsLawful db change }
{}
