//! Views that are made.

ghost use Rattle.std.specs.Prelude.{◌≡◌, map, IfOk};
ghost use Rattle.calculus.specs.declared.change.DbChange.TheVariants as change;
ghost use Rattle.quel_meaning.specs.Planned.{target_attr, view_info};

use calculus::{Attr, DbChange, List, OutOfMemory, Query, RelInfo, RelKey, Spec, Target, TryCopy};
use memory::both;
use std::alloc::Global;

/// The attribute of a view that a target is.
fn target_attr(alloc: Global, target: &Target) -> Result<Attr, OutOfMemory>
    ensures { IfOk result (λ attr. attr ≡ target_attr target.now) }
{
    match target.name.copy(alloc) {
        Ok(name) => Ok(Attr {
            name,
            kind: target.kind,
        }),
        Err(error) => Err(error),
    }
}

/// The attributes of a view that targets are.
fn target_attrs(alloc: Global, targets: &[Target]) -> Result<Vec<Attr>, OutOfMemory>
    ensures { IfOk result (λ attrs. attrs.items ≡ map target_attr targets.now) }
{
    let mut attrs = Vec::new(alloc);
    for target in targets {
        attrs.push(target_attr(alloc, target)?)?;
    }
    Ok(attrs)
}

/// What is known of a view.
fn view_info(alloc: Global, rel: &RelKey, query: &Query) -> Result<RelInfo, OutOfMemory>
    ensures { IfOk result (λ info. info ≡ view_info rel.now query.now) }
{
    let attrs = target_attrs(alloc, query.targets.items());
    let (key, attrs) = both(rel.copy(alloc), attrs)?;
    Ok(RelInfo {
        key,
        spec: Spec::View,
        attrs: List::of(attrs),
        keys: List::of(Vec::new(alloc)),
    })
}

/// The change that makes a view: its attributes have the names and kinds of its targets.
pub(crate) fn view_made(alloc: Global, rel: &RelKey, query: &Query) -> Result<DbChange, OutOfMemory>
    ensures { IfOk result (λ c. c ≡ change.View (view_info rel.now query.now) query.now) }
{
    let info = view_info(alloc, rel, query);
    match both(info, query.copy(alloc)) {
        Ok((info, query)) => Ok(DbChange::View { info, query }),
        Err(error) => Err(error),
    }
}
