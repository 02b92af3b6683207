//! Places of attributes.

ghost use Rattle.std.specs.Prelude.{◌≡◌, ◌≤◌, Some, length, map, unwrap_or, IfOk};
ghost use Rattle.quel_meaning.specs.Scope.{attr_place, place_found};

use calculus::{Attr, Name, OutOfMemory, RelInfo};
use std::alloc::Global;

/// A place in a byte; 255 for all that are further behind.
pub(crate) fn byte(place: usize) -> u8
    ensures { place ≤ 255 → result ≡ place }
{
    place.min(255) as u8
}

fn attr_found(attrs: &[Attr], name: &Name) -> Option<usize>
    ensures { result ≡ attr_place attrs.now name.now }
{
    attrs.iter().position(|a| a.name == *name)
}

/// The place of an attribute; 0 where there is none of this name.
pub(crate) fn place_in(attrs: &[Attr], name: &Name) -> usize
    ensures { result ≡ unwrap_or (attr_place attrs.now name.now) 0 }
{
    attr_found(attrs, name).unwrap_or(0)
}

/// The place of an attribute in a byte; 0 where there is none of this name.
#[tactic(auto, using(quel_check::proofs::Found::within))]
pub(crate) fn place_of(info: &RelInfo, name: &Name) -> u8
    ensures { length info.now.attrs ≤ 256 → result ≡ place_found (Some info.now) name.now }
{
    byte(attr_found(info.attrs.items(), name).unwrap_or(0))
}

/// The places of the attributes of these names.
pub(crate) fn places_of(
    alloc: Global,
    info: &RelInfo,
    names: &[Name],
) -> Result<Vec<u8>, OutOfMemory>
    ensures { IfOk result (λ places. length info.now.attrs ≤ 256 → places.items ≡ map (place_found (Some info.now)) names.now) }
{
    let mut places = Vec::new(alloc);
    for name in names {
        places.push(place_of(info, name))?;
    }
    Ok(places)
}
