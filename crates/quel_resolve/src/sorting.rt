//! The columns to sort by.

ghost use Rattle.std.specs.Prelude.{◌≡◌, ◌≤◌, length, map, IfOk};
ghost use Rattle.quel_meaning.specs.Causes.{title_place};
ghost use Rattle.quel_meaning.specs.Resolved.{sort_key};

use calculus::{Name, OutOfMemory, SortKey, Target};
use std::alloc::Global;

fn title_found(targets: &[Target], title: &Name) -> Option<usize>
    ensures { result ≡ title_place targets.now title.now }
{
    targets.iter().position(|t| t.name == *title)
}

/// The place of a column; 65535 for all that are further behind.
fn column(place: usize) -> u16
    ensures { place ≤ 255 → result ≡ place }
{
    place.min(65535) as u16
}

/// The column of the first target with this title, or column 0, with whether it descends.
fn sort_key(targets: &[Target], title: &Name, down: bool) -> SortKey
    ensures { length targets.now ≤ 256 → result ≡ sort_key targets.now (title.now, down) }
{
    SortKey {
        column: column(title_found(targets, title).unwrap_or(0)),
        down,
    }
}

/// The columns to sort by, for at most 256 targets.
pub(crate) fn sort_keys(
    alloc: Global,
    targets: &[Target],
    sort: &[(Name, bool)],
) -> Result<Vec<SortKey>, OutOfMemory>
    ensures { IfOk result (λ keys. length targets.now ≤ 256 → keys.items ≡ map (sort_key targets.now) sort.now) }
{
    let mut keys = Vec::new(alloc);
    for (title, down) in sort {
        keys.push(sort_key(targets, title, *down))?;
    }
    Ok(keys)
}
