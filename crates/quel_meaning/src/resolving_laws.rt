//! What statements ask for.

ghost use Rattle.std.specs.Prelude.{◌≡◌, ℕ, true, false, List, [], ◌∷◌, map, length, None, Ok, Err};
ghost use Rattle.calculus.specs.declared.request.Checked.{Checked};
ghost use Rattle.std.specs.List.{enumerate_from};
ghost use Rattle.calculus.specs.declared.statement.Item.{Item};
ghost use Rattle.calculus.specs.declared.statement.Qual.{Qual};
ghost use Rattle.calculus.specs.declared.statement.Statement.{Statement};
ghost use Rattle.calculus.specs.declared.statement.Statement.TheVariants.{Replace, Delete};
ghost use Rattle.calculus.specs.Sizes.{update_vars};
ghost use Rattle.calculus.specs.Used.{used_vars};
ghost use Rattle.quel_meaning.specs.Naming.{name_refusal};
ghost use Rattle.quel_meaning.specs.StatementUpdate.{replace_of, delete_of};
ghost use Rattle.calculus.specs.Lists.{has_number};
ghost use Rattle.calculus.specs.Name.{is_name};
ghost use Rattle.calculus.specs.Database.{Db};
ghost use Rattle.quel_meaning.specs.Ranges.{Ranges};
ghost use Rattle.quel_meaning.specs.Scope.{Scope};
ghost use Rattle.quel_meaning.specs.Causes.{refusals};
ghost use Rattle.quel_meaning.specs.Purpose.{purpose_of, purpose, refusal_numbers};
ghost use Rattle.quel_meaning.specs.Resolved.{resolved};
ghost use Rattle.calculus.specs.QueryParts.{vars_of, query_aggregates};
ghost use Rattle.quel_meaning.specs.WrittenParts.{first_vars, text_aggregates};
ghost use Rattle.quel_meaning.specs.WrittenQuery.{query_of};
ghost use Rattle.quel_meaning.specs.FitQueries.{slots_count_up};
ghost use Rattle.quel_meaning.specs.Fit.{is_fit, is_fit_with_views, makes_an_index};
ghost use Rattle.quel_meaning.specs.IsWritten.{is_written};
ghost use Rattle.calculus.specs.IsDatabase.{IsDatabase};

/// What a statement asks for is of the statement's kind: so many tables, an update of its kind, or work
/// for the utilities.
#[tactic(auto, using(crate::proofs::Accepted::resolved_purpose))]
pub fn trees_are_for_what_statements_are_for()
    ensures { (db : Db) (user : List ℕ) (ranges : Ranges) (statement : Statement) (tree : Checked)
        → resolved db user ranges statement ≡ Ok tree → purpose_of tree ≡ purpose statement }
{}

/// What may refuse a statement, by the numbers and in their order: first a name, which is 10, 11 or 12,
/// then what the table of the statement's kind has.
pub fn only_its_numbers_refuse_a_statement()
    ensures in_order { (s : Scope) (statement : Statement) → map (λ c. c.0) (refusals s statement) ≡ refusal_numbers statement }
    ensures no_others { (db : Db) (user : List ℕ) (ranges : Ranges) (statement : Statement) (number : ℕ)
        → resolved db user ranges statement ≡ Err number → has_number (10 ∷ 11 ∷ 12 ∷ refusal_numbers statement) number ≡ true }
{}

/// The aggregates of a statement's query are as many as those of its text that stand in no other, and
/// their slots are 0, 1 and so on, target list first.
pub fn slots_count_the_aggregates_of_a_text()
    ensures slots { (s : Scope) (statement : Statement) → slots_count_up (query_of s statement) ≡ true }
    ensures number { (s : Scope) (statement : Statement) → length (query_aggregates (query_of s statement)) ≡ length (text_aggregates statement) }
{}

/// What a statement that was read asks for is fit for the database and the user, once the views in it
/// are put in. The user's name has to be one.
#[tactic(auto, using(crate::proofs::FitResolved::resolved_fits))]
pub fn what_is_resolved_is_fit()
    ensures { (db : Db) (user : List ℕ) (ranges : Ranges) (statement : Statement) (tree : Checked)
        → IsDatabase db → is_name user ≡ true → is_written statement ≡ true → resolved db user ranges statement ≡ Ok tree → is_fit_with_views db user tree ≡ true }
{}

/// A tree that is fit is fit once the views in it are expanded. Of the user only the name of an index speaks.
pub fn fit_trees_speak_little_of_views_and_users()
    ensures views { (db : Db) (user : List ℕ) (tree : Checked) → is_fit db user tree ≡ true → is_fit_with_views db user tree ≡ true }
    ensures users { (db : Db) (user other : List ℕ) (tree : Checked) → makes_an_index tree ≡ false → is_fit db user tree ≡ is_fit db other tree }
{}

/// All variables that the query of a statement lists are used in it, but that the rows of the first one may
/// be replaced or deleted alone: so those that it lists are those that count.
pub fn listed_variables_are_used()
    ensures used { (s : Scope) → IsDatabase s.db → (statement : Statement) → name_refusal s statement ≡ None → first_vars statement ≡ []
        → used_vars (query_of s statement) ≡ enumerate_from 0 (vars_of (query_of s statement)) }
    ensures replaced { (s : Scope) → IsDatabase s.db → (var : List ℕ) (items : List Item) (qual : Qual) → name_refusal s (Replace var items qual) ≡ None
        → update_vars (replace_of s var (query_of s (Replace var items qual))) ≡ enumerate_from 0 (vars_of (query_of s (Replace var items qual))) }
    ensures deleted { (s : Scope) → IsDatabase s.db → (var : List ℕ) (qual : Qual) → name_refusal s (Delete var qual) ≡ None
        → update_vars (delete_of s var (query_of s (Delete var qual))) ≡ enumerate_from 0 (vars_of (query_of s (Delete var qual))) }
{}
