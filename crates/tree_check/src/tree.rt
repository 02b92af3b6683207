//! Trees.

ghost use Rattle.std.specs.Prelude.{◌≡◌, IfOk, IsTrue, Some};
ghost use Rattle.base_trait.specs.Causes.{HasCause};
ghost use Rattle.calculus.specs.Database.{Db};
ghost use Rattle.calculus.specs.declared.request.Checked.TheVariants as checked;
ghost use Rattle.quel_meaning.specs.Fit.{is_fit, suits};
ghost use Rattle.quel_meaning.specs.FitQueries.{kept_alone};
ghost use Rattle.update_laws.specs.Walked.{names_rights};

use crate::asking::all_asked_fit;
use crate::updates::update_fits;
use crate::utilities::utility_fits;
use base_trait::{Base, BaseFault};
use calculus::{Checked, Name, Utility};
use std::alloc::Global;
use update_laws::tree_is_spelled;

/// The sum of all rights.
const ALL_RIGHTS: u8 = 15;

/// Whether what a utility's permit allows, where it defines one, is a sum of rights.
fn allows_rights(work: &Utility) -> bool
    ensures { result ≡ names_rights (checked.Utility work.now) }
{
    match work {
        Utility::Permit { rel: _, permit } => permit.ops <= ALL_RIGHTS,
        _ => true,
    }
}

/// Whether what a permit that a tree defines allows is a sum of rights.
fn names_rights(tree: &Checked) -> bool
    ensures { result ≡ names_rights tree.now }
{
    match tree {
        Checked::Utility(work) => allows_rights(work),
        _ => true,
    }
}

/// Whether what a tree asks for suits the database and the user.
#[tactic(auto, using(crate::proofs::TreeForms::of_answer, crate::proofs::TreeForms::of_update, crate::proofs::TreeForms::of_utility))]
fn suits<B: Base>(
    alloc: Global,
    base: &mut B,
    user: &Name,
    tree: &Checked,
) -> Result<bool, BaseFault>
    ensures known { (db : Db) → B.schema base.old ≡ Some db → IfOk result (λ fit. fit ≡ suits (kept_alone db) db user.now tree.now) }
    ensures kept { B.database base.new ≡ B.database base.old }
    ensures stays { (s : Db) → B.schema base.old ≡ Some s → B.schema base.new ≡ Some s }
    ensures asked { (b : B) → B.asked b base.old → B.asked b base.new }
    ensures cause { HasCause (B.database base.old) (B.faults base.old) (B.faults base.new) result }
{
    match tree {
        Checked::Answer(asked) => all_asked_fit(alloc, base, asked.items()),
        Checked::Update(u) => update_fits(alloc, base, u),
        Checked::Utility(work) => utility_fits(alloc, base, user, work),
    }
}

/// Whether a tree is fit for a user and a database: true exactly where it reads base relations and
/// catalogues alone, what it names is there and what it makes is new, its places are in range, its kinds
/// fit, its aggregates are numbered, and it is within the limits. Asks the database part by part, up to
/// the first that is false, and doesn't change it. The first question fixes the schema, which decides all.
pub fn fit_tree<B: Base>(
    alloc: Global,
    c: &Checked,
    user: &Name,
    base: &mut B,
) -> Result<bool, BaseFault>
    ensures known { (db : Db) → B.schema base.old ≡ Some db → IfOk result (λ fit. fit ≡ is_fit db user.now c.now) }
    ensures by_schema { IsTrue B.fixes → (s : Db) → B.schema base.new ≡ Some s → IfOk result (λ fit. fit ≡ is_fit s user.now c.now) }
    ensures kept { B.database base.new ≡ B.database base.old }
    ensures stays { (s : Db) → B.schema base.old ≡ Some s → B.schema base.new ≡ Some s }
    ensures asked { (b : B) → B.asked b base.old → B.asked b base.new }
    ensures cause { HasCause (B.database base.old) (B.faults base.old) (B.faults base.new) result }
{
    if !names_rights(c) {
        return Ok(false);
    }
    tree_is_spelled(c);
    let _entries = base.count()?;
    suits(alloc, base, user, c)
}
