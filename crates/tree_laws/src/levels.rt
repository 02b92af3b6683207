//! How deep trees are.

ghost use Rattle.std.specs.Prelude.{◌≡◌, ◌≤◌, ◌+◌, ℕ, true, List};
ghost use Rattle.calculus.specs.declared.request.Checked.{Checked};
ghost use Rattle.calculus.specs.Database.{Db};
ghost use Rattle.calculus.specs.IsDatabase.{IsDatabase};
ghost use Rattle.calculus.specs.Who.{Who};
ghost use Rattle.tree_laws.specs.Levels.{most_put_in_levels};
ghost use Rattle.quel_meaning.specs.Fit.{is_fit_with_views};
ghost use Rattle.quel_meaning.specs.Meaning.{ruled_tree};
ghost use Rattle.reading_laws.specs.Levels.{tree_levels};
ghost use Rattle.view_text.specs.Expanded.{expanded_tree};

/// In a database a tree that is fit but for the views in it has at most so many levels more once views and
/// permits were put in, and so it is with the rules of the relation that it changes.
pub fn what_is_put_in_has_few_levels()
    ensures plain { (db : Db) → IsDatabase db → (who : Who) (user : List ℕ) (tree : Checked) → is_fit_with_views db user tree ≡ true
        → tree_levels (expanded_tree db who tree) ≤ tree_levels tree + most_put_in_levels }
    ensures ruled { (db : Db) → IsDatabase db → (who : Who) (user : List ℕ) (tree : Checked) → is_fit_with_views db user tree ≡ true
        → tree_levels (ruled_tree db (expanded_tree db who tree)) ≤ tree_levels tree + most_put_in_levels }
{}
