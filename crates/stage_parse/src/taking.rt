//! Updates that are moved out of their trees.

ghost use Rattle.std.specs.Prelude.{◌≡◌, [], None, IfOk, IfSome};
ghost use Rattle.calculus.specs.Database.{Db};
ghost use Rattle.calculus.specs.declared.request.Checked.TheVariants as checked;
ghost use Rattle.quel_meaning.specs.Meaning.{ruled_tree};

use calculus::{Checked, List, OutOfMemory, QQual, Query, TryCopy, Update};
use std::alloc::Global;
use std::mem::replace;

/// No items.
fn none<T>(alloc: Global) -> List<T>
    ensures { result ≡ [] }
{
    List::of(Vec::new(alloc))
}

/// A query that asks for nothing.
fn no_query(alloc: Global) -> Query {
    Query {
        vars: none(alloc),
        targets: none(alloc),
        qual: QQual::True,
    }
}

/// The update, moved out of its place, where one is left that asks for nothing.
fn taken(alloc: Global, u: &mut Update) -> Result<Update, OutOfMemory>
    ensures { IfOk result (λ taken. taken ≡ u.entry.now) }
{
    let rel = u.rel.copy(alloc)?;
    Ok(Update {
        op: u.op,
        rel,
        old: u.old,
        places: replace(&mut u.places, none(alloc)),
        query: replace(&mut u.query, no_query(alloc)),
        checks: replace(&mut u.checks, none(alloc)),
        new_cut: replace(&mut u.new_cut, QQual::True),
    })
}

/// The update that a tree is, moved out of it. `None` where the tree changes no relation: it stays as it
/// is, and so do its checks with rules.
#[tactic(auto, unfolding(quel_meaning::specs::Meaning::ruled_tree))]
pub(crate) fn update_in(alloc: Global, tree: &mut Checked) -> Result<Option<Update>, OutOfMemory>
    ensures some { IfOk result (λ made. IfSome made (λ u. tree.old ≡ checked.Update u)) }
    ensures none { IfOk result (λ made. made ≡ None → (tree.new ≡ tree.old) × ((db : Db) → ruled_tree db tree.old ≡ tree.old)) }
{
    match tree {
        Checked::Update(u) => Ok(Some(taken(alloc, u)?)),
        Checked::Answer(_) | Checked::Utility(_) => Ok(None),
    }
}
