//! Trees: that their constants and names are those of their types.

ghost use Rattle.std.specs.Prelude.{◌≡◌, true, IsTrue};
ghost use Rattle.calculus.specs.declared.request.Checked.TheVariants as checked;
ghost use Rattle.calculus.specs.IsDatabase.{user_is_named};
ghost use Rattle.calculus.specs.Rights.{are_rights};
ghost use Rattle.quel_meaning.specs.SpelledTree.{key_is_spelled, permit_is_spelled, update_is_spelled, utility_is_spelled, tree_is_spelled};
ghost use Rattle.update_laws.specs.Walked.{quals_are_walked, asked_are_walked, names_rights};

use crate::constants::{query_is_spelled, walk_chars, walk_qual};
use calculus::{Asked, Checked, Name, Permit, QQual, RelKey, Update, Utility};

/// What is known of the names of a key.
fn walk_key(key: &RelKey)
    ensures { IsTrue (key_is_spelled key.now) }
{
    let _ = key.owner.bytes();
    let _ = key.name.bytes();
}

/// What is known of the constants of qualifications.
#[tactic(auto, unfolding(crate::specs::Walked::quals_are_walked))]
fn walk_quals(quals: &[QQual])
    ensures { IsTrue (quals_are_walked quals.now) }
{
    for qual in quals {
        walk_qual(qual);
    }
}

/// Walks through an update: what it makes has a key of names, each number in it has 64 bits, and each text
/// constant is at most 255 bytes from 32 to 126, in what must hold of new rows too. Takes no memory.
#[tactic(auto, using(crate::proofs::WalkedTrees::walked_update))]
pub fn update_is_spelled(u: &Update)
    ensures { IsTrue (update_is_spelled u.now) }
{
    walk_key(&u.rel);
    query_is_spelled(&u.query);
    walk_qual(&u.new_cut);
    walk_quals(u.checks.items());
}

/// What is known of the user of a permit.
fn walk_user(user: &Option<Name>)
    ensures { IsTrue (user_is_named user.now) }
{
    if let Some(name) = user {
        let _ = name.bytes();
    }
}

/// What is known of a permit whose rights are rights.
#[tactic(auto, using(crate::proofs::WalkedTrees::walked_permit))]
fn walk_permit(permit: &Permit)
    ensures { are_rights permit.now.ops ≡ true → IsTrue (permit_is_spelled permit.now) }
{
    walk_user(&permit.user);
    walk_qual(&permit.qual);
}

/// Walks through what the utilities are asked for: what it makes has a name, and its constants are those of
/// their types. So it is of every utility but a permit whose rights are no sum of rights. Takes no memory.
#[tactic(auto, using(crate::proofs::WalkedTrees::walked_create, crate::proofs::WalkedTrees::walked_destroy, crate::proofs::WalkedTrees::walked_modify, crate::proofs::WalkedTrees::walked_index, crate::proofs::WalkedTrees::walked_copy, crate::proofs::WalkedTrees::walked_view, crate::proofs::WalkedTrees::walked_defined_permit, crate::proofs::WalkedTrees::walked_rule, crate::proofs::WalkedTrees::walked_dropped_permits, crate::proofs::WalkedTrees::walked_dropped_rules))]
pub fn utility_is_spelled(work: &Utility)
    ensures { names_rights (checked.Utility work.now) ≡ true → IsTrue (utility_is_spelled work.now) }
{
    match work {
        Utility::Create { rel, attrs: _ } => walk_key(rel),
        Utility::Destroy { .. } => {}
        Utility::Modify { .. } => {}
        Utility::Index { name, .. } => {
            let _ = name.bytes();
        }
        Utility::Copy { file, .. } => walk_chars(file),
        Utility::View { rel, query } => {
            walk_key(rel);
            query_is_spelled(query);
        }
        Utility::Permit { rel: _, permit } => walk_permit(permit),
        Utility::Rule { rel: _, rule } => walk_qual(&rule.qual),
        Utility::DropPermits { .. } => {}
        Utility::DropRules { .. } => {}
    }
}

/// What is known of the constants of queries whose rows are printed.
#[tactic(auto, unfolding(crate::specs::Walked::asked_are_walked))]
fn walk_asked(asked: &[Asked])
    ensures { IsTrue (asked_are_walked asked.now) }
{
    for one in asked {
        query_is_spelled(&one.query);
    }
}

/// Walks through a tree: what it makes has a name, and its constants are those of their types. So it is of
/// every tree but a permit whose rights are no sum of rights. Takes no memory.
#[tactic(auto, using(crate::proofs::WalkedTrees::walked_answer, crate::proofs::WalkedTrees::walked_change, crate::proofs::WalkedTrees::walked_utility))]
pub fn tree_is_spelled(tree: &Checked)
    ensures { names_rights tree.now ≡ true → IsTrue (tree_is_spelled tree.now) }
{
    match tree {
        Checked::Answer(asked) => walk_asked(asked.items()),
        Checked::Update(u) => update_is_spelled(u),
        Checked::Utility(work) => utility_is_spelled(work),
    }
}
