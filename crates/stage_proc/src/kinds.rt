//! The kinds of the values of new rows.

ghost use Rattle.std.specs.Prelude.{◌≡◌, map, slice_get, Some, IfOk};
ghost use Rattle.calculus.specs.Replacement.{made_attr};
ghost use Rattle.stage_proc.specs.Given.{wanted};

use calculus::{Kind, OutOfMemory, Target, Update, UpdateOp, made_kind};
use std::alloc::Global;

/// The kinds of the values of new rows.
pub struct NewKinds {
    /// Those of the relation's attributes, in order.
    pub attributes: Vec<Kind>,
    /// Those of the attributes that the targets' values are for, target by target; `None` where there
    /// is no attribute.
    pub wanted: Vec<Option<Kind>>,
}

impl Drop for NewKinds {
    fn drop(self) {
        let Self {
            attributes: _,
            wanted: _,
        } = self;
    }
}

/// The kind of the attribute at a place.
fn kind_at(kinds: &[Kind], place: u8) -> Option<Kind>
    ensures { result ≡ slice_get kinds.now place }
{
    match kinds.get(place as usize) {
        Some(kind) => Some(*kind),
        None => None,
    }
}

/// The kinds of the attributes at these places.
fn placed(alloc: Global, kinds: &[Kind], places: &[u8]) -> Result<Vec<Option<Kind>>, OutOfMemory>
    ensures { IfOk result (λ wanted. wanted.items ≡ map (slice_get kinds.now) places.now) }
{
    let mut wanted = Vec::new(alloc);
    for place in places {
        wanted.push(kind_at(kinds, *place))?;
    }
    Ok(wanted)
}

/// The kinds of the attributes that are made of targets.
fn made(alloc: Global, targets: &[Target]) -> Result<Vec<Option<Kind>>, OutOfMemory>
    ensures { IfOk result (λ wanted. wanted.items ≡ map (λ t. Some (made_attr t).kind) targets.now) }
{
    let mut wanted = Vec::new(alloc);
    for target in targets {
        wanted.push(Some(made_kind(target)))?;
    }
    Ok(wanted)
}

/// The kinds of the attributes that the values of an update's targets are for.
pub(crate) fn wanted(
    alloc: Global,
    kinds: &[Kind],
    u: &Update,
) -> Result<Vec<Option<Kind>>, OutOfMemory>
    ensures { IfOk result (λ wants. wants.items ≡ wanted kinds.now u.now) }
{
    match u.op {
        UpdateOp::Append => placed(alloc, kinds, u.places.items()),
        UpdateOp::Replace => placed(alloc, kinds, u.places.items()),
        UpdateOp::Delete => placed(alloc, kinds, u.places.items()),
        UpdateOp::Into => made(alloc, u.query.targets.items()),
    }
}
