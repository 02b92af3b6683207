//! What spellings mean. Each function here is a law with no body: its clauses speak of the definitions
//! alone.

ghost use Rattle.std.specs.Prelude.{ℕ};
ghost use Rattle.calculus.specs.TreeLevels.{qual_levels, query_levels, term_levels};
ghost use Rattle.calculus.specs.declared.change.DbChange.{DbChange};
ghost use Rattle.calculus.specs.declared.query.QQual.{QQual};
ghost use Rattle.calculus.specs.declared.query.QTerm.{QTerm};
ghost use Rattle.calculus.specs.declared.query.Query.{Query};
ghost use Rattle.calculus.specs.declared.schema.Permit.{Permit};
ghost use Rattle.calculus.specs.declared.schema.Rule.{Rule};
ghost use Rattle.quel_tree.specs.Changes.{change};
ghost use Rattle.quel_tree.specs.Levels.{HasLevels, change_levels};
ghost use Rattle.quel_tree.specs.Permits.{permit, rule};
ghost use Rattle.quel_tree.specs.Queries.{qual, query, term};

/// How many levels a spelling asks for: as many as the tree has, and no more; its bytes are the same
/// with any number of levels. A permit and a rule have the levels of their qualification, a change those
/// of its query or qualification.
pub fn levels_are_those_of_the_tree()
    ensures term { (n : ℕ) (t : QTerm) → (term n).Fits t → HasLevels term t (term_levels t) n }
    ensures qual { (n : ℕ) (q : QQual) → (qual n).Fits q → HasLevels qual q (qual_levels q) n }
    ensures query { (n : ℕ) (q : Query) → (query n).Fits q → HasLevels query q (query_levels q) n }
    ensures permit { (n : ℕ) (p : Permit) → (permit n).Fits p → HasLevels permit p (qual_levels p.qual) n }
    ensures rule { (n : ℕ) (r : Rule) → (rule n).Fits r → HasLevels rule r (qual_levels r.qual) n }
    ensures change { (n : ℕ) (c : DbChange) → (change n).Fits c → HasLevels change c (change_levels c) n }
{}
