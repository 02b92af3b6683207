//! What statements ask for, before their trees are handed on.

ghost use Rattle.std.specs.Prelude.{◌≡◌, ◌||◌, ℕ, nat_lt, true, false, List, [], ◌∷◌, Ok, Err};
ghost use Rattle.calculus.specs.declared.request.Checked.{Checked};
ghost use Rattle.calculus.specs.declared.statement.Statement.{Statement};
ghost use Rattle.calculus.specs.Database.{Db};
ghost use Rattle.calculus.specs.Lists.{has_number};
ghost use Rattle.calculus.specs.Who.{Asker, AsUser};
ghost use Rattle.quel_meaning.specs.Ranges.{Ranges};
ghost use Rattle.quel_meaning.specs.State.{State};
ghost use Rattle.quel_meaning.specs.Meaning.{Resolving, checked_permitted, checked_tree_by, checked_tree, checked_outcome, is_range, meaning_by};

/// A statement that is refused before rows are looked at is refused by a number below 20, or by 23, 26 or
/// 28. A tree that it asks for is the one that it is resolved to, and all that this reads and
/// changes is permitted to the one who asks.
pub fn what_is_checked_is_permitted()
    ensures refused { (db : Db) (asker : Asker) (ranges : Ranges) (s : Statement) (number : ℕ)
        → checked_tree db asker ranges s ≡ Err number → (nat_lt number 20 || has_number (23 ∷ 26 ∷ 28 ∷ []) number) ≡ true }
    ensures resolved { (resolved : Resolving) (db : Db) (asker : Asker) (ranges : Ranges) (s : Statement) (tree : Checked)
        → checked_tree_by resolved db asker ranges s ≡ Ok tree → resolved db asker.user ranges s ≡ Ok tree }
    ensures permitted { (resolved : Resolving) (db : Db) (asker : Asker) (ranges : Ranges) (s : Statement) (tree : Checked)
        → checked_tree_by resolved db asker ranges s ≡ Ok tree → checked_permitted db (AsUser asker) tree ≡ true }
{}

/// What a statement does, but for one that declares a variable, is what it asks for.
#[tactic(auto, using(crate::proofs::CheckedTrees::meaning_checked))]
pub fn statements_do_what_they_ask_for()
    ensures { (resolved : Resolving) (state : State) (asker : Asker) (s : Statement) → is_range s ≡ false
        → meaning_by resolved state asker s ≡ checked_outcome state asker (checked_tree_by resolved state.db asker state.ranges s) }
{}
