//! The slots of aggregates, which count up in the order of the text.

ghost use Rattle.std.specs.Prelude.{◌≡◌, map};
ghost use Rattle.quel_meaning.specs.FitQueries.{slots_count_from};

use calculus::QAgg;

/// Whether the slots of these aggregates are 0, 1, .. in their order. Takes no memory.
pub(crate) fn slots_count_up(aggregates: &[&QAgg]) -> bool
    ensures { result ≡ slots_count_from 0 (map (λ g. g.now) aggregates.now) }
{
    let mut places = aggregates.iter().enumerate();
    places.all(|(place, aggregate)| aggregate.slot as usize == place)
}
