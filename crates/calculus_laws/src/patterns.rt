//! Texts that match patterns.

ghost use Rattle.std.specs.Prelude.{◌↔◌, ℕ, List, IsTrue};
ghost use Rattle.calculus.specs.Pattern.{Matches, matches};

/// The test that tells whether a text matches a pattern is true exactly where the relation holds that
/// says what it is to match: item by item from the front, with any split of the text at a `*`.
pub fn a_text_matches_where_the_relation_holds()
    ensures { (pattern text : List ℕ) → IsTrue (matches pattern text) ↔ Matches pattern text }
{}
