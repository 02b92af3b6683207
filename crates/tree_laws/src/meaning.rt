//! What trees mean.

ghost use Rattle.std.specs.Prelude.{◌≡◌, ℕ, true, List};
ghost use Rattle.calculus.specs.declared.request.Checked.{Checked};
ghost use Rattle.calculus.specs.Database.{Db};
ghost use Rattle.calculus.specs.IsDatabase.{IsDatabase};
ghost use Rattle.calculus.specs.Who.{Who, Unrestricted};
ghost use Rattle.quel_meaning.specs.Fit.{is_fit_with_views};
ghost use Rattle.quel_meaning.specs.Meaning.{ruled_tree, tree_meaning};
ghost use Rattle.fault_io.specs.Files.{Files};
ghost use Rattle.view_text.specs.Expanded.{expanded_tree};

/// In a database a tree that is fit but for the views in it means for the one who asks what it means for
/// whoever is unrestricted once views and permits were put in. So it is with the rules of the relation that
/// it changes, whether they join it before or after.
pub fn what_is_put_in_means_the_same()
    ensures plain { (db : Db) → IsDatabase db → (shelf : Files) (who : Who) (user : List ℕ) (tree : Checked) → is_fit_with_views db user tree ≡ true
        → tree_meaning db shelf who user tree ≡ tree_meaning db shelf Unrestricted user (expanded_tree db who tree) }
    ensures ruled { (db : Db) → IsDatabase db → (shelf : Files) (who : Who) (user : List ℕ) (tree : Checked) → is_fit_with_views db user tree ≡ true
        → tree_meaning db shelf who user (ruled_tree db tree) ≡ tree_meaning db shelf Unrestricted user (ruled_tree db (expanded_tree db who tree)) }
    ensures commute { (db : Db) (who : Who) (tree : Checked) → expanded_tree db who (ruled_tree db tree) ≡ ruled_tree db (expanded_tree db who tree) }
{}
