//! The numbers of permits and rules.

ghost use Rattle.std.specs.Prelude.{◌≡◌, ◌<◌, ℕ, List, [], IsTrue};
ghost use Rattle.std.specs.List.Sorted.{IsStrictlySortedBy};
ghost use Rattle.std.specs.Ordering.{nat_cmp};
ghost use Rattle.calculus.specs.Lists.{has_number};
ghost use Rattle.quel_meaning.specs.Planned.{next_number, ascending};

/// The number of a new permit or rule is greater than each that stands, and 1 where none stands.
pub fn a_new_number_is_greater()
    ensures greater { (numbers : List ℕ) (n : ℕ) → IsTrue (has_number numbers n) → n < next_number numbers }
    ensures first { next_number [] ≡ 1 }
{}

/// The numbers of those that go are the ones that are listed, ascending, each once.
pub fn listed_numbers_ascend()
    ensures same { (numbers : List ℕ) (n : ℕ) → has_number (ascending numbers) n ≡ has_number numbers n }
    ensures ascend { (numbers : List ℕ) → IsStrictlySortedBy nat_cmp (ascending numbers) }
{}
