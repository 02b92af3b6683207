//! The numbers of permits or rules that are to go.

ghost use Rattle.std.specs.Prelude.{◌≡◌, ◌∷◌, [], not, IfOk};
ghost use Rattle.std.specs.List.{list_all};
ghost use Rattle.calculus.specs.Lists.{has_number};
ghost use Rattle.calculus.specs.Replacement.{first_refusal};
ghost use Rattle.quel_meaning.specs.Planned.{ascending, dropped};

use calculus::refusals::NO_SUCH_NUMBER;
use calculus::{List, OutOfMemory};
use std::alloc::Global;

/// Whether the number is one of these.
fn has_number(numbers: &[u32], number: u32) -> bool
    ensures { result ≡ has_number numbers.now number }
{
    numbers.iter().any(|other| *other == number)
}

/// Whether each number is one of those that stand.
fn all_stand(standing: &[u32], numbers: &[u32]) -> bool
    ensures { result ≡ list_all (has_number standing.now) numbers.now }
{
    numbers.iter().all(|number| has_number(standing, *number))
}

/// The cause that a listed number isn't one of those that stand, where one isn't.
pub(crate) fn listed_refusal(standing: &[u32], numbers: &[u32]) -> Option<u8>
    ensures { result ≡ first_refusal ((19, not (list_all (has_number standing.now) numbers.now)) ∷ []) }
{
    if all_stand(standing, numbers) {
        None
    } else {
        Some(NO_SUCH_NUMBER)
    }
}

/// Puts the numbers into ascending order, each once. Takes no memory.
fn sort_once(numbers: &mut Vec<u32>)
    ensures { numbers.new.items ≡ ascending numbers.old.items }
{
    numbers.sort_unstable();
    numbers.dedup();
}

/// The numbers in ascending order, each once. Costs a sort.
fn ascending(alloc: Global, numbers: &[u32]) -> Result<Vec<u32>, OutOfMemory>
    ensures { IfOk result (λ ns. ns.items ≡ ascending numbers.now) }
{
    let mut listed = Vec::from_slice(alloc, numbers)?;
    sort_once(&mut listed);
    Ok(listed)
}

/// The numbers of those that go: the listed ones, ascending and each once, or all that stand where none
/// is listed.
pub(crate) fn dropped(
    alloc: Global,
    standing: Vec<u32>,
    numbers: &[u32],
) -> Result<List<u32>, OutOfMemory>
    ensures { IfOk result (λ ns. ns ≡ dropped standing.items numbers.now) }
{
    if numbers.is_empty() {
        return Ok(List::of(standing));
    }
    match ascending(alloc, numbers) {
        Ok(numbers) => Ok(List::of(numbers)),
        Err(error) => Err(error),
    }
}
