//! Which trees are fit.

ghost use Rattle.std.specs.Prelude.{◌≡◌, ◌≤◌, ℕ, true, List, is_some, length};
ghost use Rattle.calculus.specs.declared.query.RelKey.{RelKey};
ghost use Rattle.calculus.specs.declared.request.Checked.{Checked};
ghost use Rattle.calculus.specs.Database.{Db};
ghost use Rattle.calculus.specs.IsDatabase.{IsDatabase};
ghost use Rattle.calculus.specs.Sizes.{measure_of};
ghost use Rattle.calculus.specs.Stored.{range_at};
ghost use Rattle.calculus.specs.Who.{Who};
ghost use Rattle.quel_meaning.specs.Fit.{is_fit, is_fit_with_views};
ghost use Rattle.quel_meaning.specs.Meaning.{ruled_tree};
ghost use Rattle.quel_meaning.specs.SpelledTree.{tree_is_spelled};
ghost use Rattle.tree_laws.specs.FitExpansions.{IsFit};
ghost use Rattle.view_text.specs.Expanded.{expanded_tree};
ghost use Rattle.view_text.specs.ExpansionOf.{expansion_of};

/// In a database the expansion of what stands under a key ranges over base relations and catalogues alone, its
/// terms have the kinds of the attributes, and the kinds in its conditions fit. Whatever stands there, it
/// has no more variables than are counted of the key.
pub fn expansions_of_what_is_there_fit()
    ensures fit { (db : Db) → IsDatabase db → (who : Who) (key : RelKey) (attrs : List ℕ) → is_some (range_at db key) ≡ true → IsFit db key (expansion_of db who key attrs) }
    ensures few { (db : Db) (who : Who) (key : RelKey) (attrs : List ℕ) → length (expansion_of db who key attrs).vars ≤ (measure_of db key).variables }
{}

/// In a database a tree that is fit but for the views in it is fit once views and permits were put in, and
/// so it is with the rules of the relation that it changes; where its constants are those of their types,
/// which those of every tree in a program are.
pub fn what_is_put_in_is_fit()
    ensures plain { (db : Db) → IsDatabase db → (who : Who) (user : List ℕ) (tree : Checked) → is_fit_with_views db user tree ≡ true
        → tree_is_spelled (expanded_tree db who tree) ≡ true → is_fit db user (expanded_tree db who tree) ≡ true }
    ensures ruled { (db : Db) → IsDatabase db → (who : Who) (user : List ℕ) (tree : Checked) → is_fit_with_views db user tree ≡ true
        → tree_is_spelled (ruled_tree db (expanded_tree db who tree)) ≡ true → is_fit db user (ruled_tree db (expanded_tree db who tree)) ≡ true }
{}
