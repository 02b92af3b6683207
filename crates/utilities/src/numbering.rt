//! The number of a new permit or rule.

ghost use Rattle.std.specs.Prelude.{◌≡◌, max, true, false, MatchOption};
ghost use Rattle.quel_meaning.specs.Planned.{greatest, is_past_limit, next_number};

use calculus::limits::MOST_NUMBERED;

/// The greater of two numbers.
fn greater(first: u32, second: u32) -> u32
    ensures { result ≡ max first second }
{
    if first < second { second } else { first }
}

/// The greatest of these numbers; 0 where there is none.
fn greatest(numbers: &[u32]) -> u32
    ensures { result ≡ greatest numbers.now }
{
    let mut found: u32 = 0;
    let mut rest = numbers;
    while let Some((first, others)) = rest.split_first() {
        found = greater(found, *first);
        rest = others;
    }
    found
}

/// The number of a new permit or rule beside those with these numbers: one more than the greatest of
/// them, from 1 on. `None` exactly where there may be no more, or its number would be too great.
pub(crate) fn next_number(standing: &[u32]) -> Option<u32>
    ensures { MatchOption result (is_past_limit 100 standing.now ≡ true) (λ number. (is_past_limit 100 standing.now ≡ false) × (number ≡ next_number standing.now)) }
{
    if standing.len() >= MOST_NUMBERED {
        return None;
    }
    greatest(standing).checked_add(1)
}
