//! The values of terms.

ghost use Rattle.std.specs.Prelude.{◌≡◌, IsTrue, Some};
ghost use Rattle.std.specs.List.{AllByRecursion};
ghost use Rattle.calculus.specs.declared.query.QTerm.{QTerm};
ghost use Rattle.calculus.specs.declared.value.Value.{Value};
ghost use Rattle.calculus.specs.Term.{Env, Aggs, val};
ghost use Rattle.calculus.specs.QueryParts.{term_aggregates};
ghost use Rattle.calculus.specs.Spelled.{term_is_spelled};
ghost use Rattle.update_laws.specs.Proper.{is_proper, rows_are_proper};

/// A value of a term, over rows that hold numbers and texts in the language's sense, is one of these itself,
/// where each aggregate in the term gives one: a text that comes out has at most 255 bytes from 32 to 126,
/// the last of them no blank.
pub fn the_values_of_terms_are_proper()
    ensures { (aggs : Aggs) (t : QTerm) (e : Env) (v : Value) → IsTrue (term_is_spelled t) → IsTrue (rows_are_proper e)
        → AllByRecursion (λ g. (w : Value) → aggs g e ≡ Some w → IsTrue (is_proper w)) (term_aggregates t) → val aggs t e ≡ Some v → IsTrue (is_proper v) }
{}
