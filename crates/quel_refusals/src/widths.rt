//! The kinds of rows that are printed or kept, and whether such a row is too wide.

ghost use Rattle.std.specs.Prelude.{◌≡◌, ◌≤◌, map, length, sum_by, IfOk};
ghost use Rattle.calculus.specs.declared.value.Kind.TheVariants.{Of};
ghost use Rattle.calculus.specs.IsDatabase.{kind_bytes};
ghost use Rattle.calculus.specs.Replacement.{made_attr};
ghost use Rattle.quel_meaning.specs.Passing.{is_too_wide};

use calculus::limits::{MOST_ATTRIBUTES, MOST_ROW_BYTES};
use calculus::{Domain, Kind, Name, OutOfMemory, Target, made_kind};
use std::alloc::Global;

/// The bytes that a value of the kind takes in a row.
pub fn kind_bytes(kind: Kind) -> u32
    ensures bytes { result ≡ kind_bytes kind }
    ensures few { result ≤ 255 }
{
    match kind {
        Kind::Wide => 8,
        Kind::Of(Domain::I1) => 1,
        Kind::Of(Domain::I2) => 2,
        Kind::Of(Domain::I4) => 4,
        Kind::Of(Domain::C(width)) => u32::from(width),
    }
}

fn row_bytes(kinds: &[Kind]) -> u32
    requires { length kinds.now ≤ 49 }
    ensures { result ≡ sum_by kind_bytes kinds.now }
{
    let mut bytes = 0;
    for kind in kinds {
        bytes += kind_bytes(*kind);
    }
    bytes
}

/// Whether a row of these kinds has too many attributes or too many bytes. Takes no memory.
#[tactic(auto, unfolding(quel_meaning::specs::Passing::is_too_wide))]
pub fn is_too_wide(kinds: &[Kind]) -> bool
    ensures { result ≡ is_too_wide kinds.now }
{
    kinds.len() > MOST_ATTRIBUTES || row_bytes(kinds) > MOST_ROW_BYTES
}

/// The kinds of the attributes that are made of the targets: a number of 64 bits becomes one of 32.
pub fn made_kinds(alloc: Global, targets: &[Target]) -> Result<Vec<Kind>, OutOfMemory>
    ensures { IfOk result (λ kinds. kinds.items ≡ map (λ t. (made_attr t).kind) targets.now) }
{
    let mut kinds = Vec::new(alloc);
    for target in targets {
        kinds.push(made_kind(target))?;
    }
    Ok(kinds)
}

/// The kinds of attributes with these domains.
pub(crate) fn domain_kinds(
    alloc: Global,
    attrs: &[(Name, Domain)],
) -> Result<Vec<Kind>, OutOfMemory>
    ensures { IfOk result (λ kinds. kinds.items ≡ map (λ a. Of a.1) attrs.now) }
{
    let mut kinds = Vec::new(alloc);
    for (_, domain) in attrs {
        kinds.push(Kind::Of(*domain))?;
    }
    Ok(kinds)
}
