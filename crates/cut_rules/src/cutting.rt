//! Trees restricted to what a user may see and change.

ghost use Rattle.std.specs.Prelude.{◌≡◌, ◌++◌, [], ◌∷◌, map, true, false, Some, Contains, IfOk, OnOk, option_map};
ghost use Rattle.std.specs.List.{list_all};
ghost use Rattle.calculus.specs.Database.{Db};
ghost use Rattle.calculus.specs.Permission.{query_permitted};
ghost use Rattle.calculus.specs.Who.{Unrestricted, as_user};
ghost use Rattle.calculus.specs.declared.request.Asked.{Asked as AskedFor};
ghost use Rattle.calculus.specs.declared.request.Checked.TheVariants.{Answer};
ghost use Rattle.cut_rules.specs.Causes.{HasCause};
ghost use Rattle.cut_rules.specs.Refused.{IsRefusedBy, IsRefusedIn};
ghost use Rattle.quel_meaning.specs.Fit.{is_fit_with_views};
ghost use Rattle.quel_meaning.specs.FitQueries.{asked_fits, kept_or_viewed};
ghost use Rattle.quel_meaning.specs.Meaning.{checked_permitted, tree_meaning};
ghost use Rattle.fault_io.specs.Files.{Files};
ghost use Rattle.view_expand.specs.Asking.{who_of};
ghost use Rattle.view_expand.specs.Found.{IsFound};
ghost use Rattle.view_text.specs.Expanded.{expanded_asked, expanded_tree};

use crate::CutFault;
use crate::expanded::expanded;
use crate::updates::expanded_update;
use base_trait::Base;
use calculus::{Asked, Checked, List, Name, TryCopy};
use std::alloc::Global;
use view_expand::ExpansionsFound;

/// Puts the query that is asked, with its variables expanded, behind those that are there.
fn put_asked<B: Base>(
    alloc: Global,
    base: &mut B,
    who: Option<&Name>,
    asked: &Asked,
    made: &mut Vec<Asked>,
    found: &mut ExpansionsFound,
) -> Result<(), CutFault>
    requires fit { (db : Db) → B.database base.old ≡ Some db → asked_fits (kept_or_viewed db) db asked.now ≡ true }
    requires found { (db : Db) → B.database base.old ≡ Some db → IsFound db (who_of (option_map (λ n. n.now) who)) found.old }
    ensures known { (db : Db) → B.database base.old ≡ Some db → OnOk result (made.new.items ≡ made.old.items ++ expanded_asked db (who_of (option_map (λ n. n.now) who.entry)) asked.now ∷ []) }
    ensures permitted { (db : Db) → B.database base.old ≡ Some db → OnOk result (query_permitted db (who_of (option_map (λ n. n.now) who.entry)) asked.now.query ≡ true) }
    ensures found { (db : Db) → B.database base.old ≡ Some db → IsFound db (who_of (option_map (λ n. n.now) who.entry)) found.new }
    ensures kept { B.database base.new ≡ B.database base.old }
    ensures stays { (s : Db) → B.schema base.old ≡ Some s → B.schema base.new ≡ Some s }
    ensures asked { (b : B) → B.asked b base.old → B.asked b base.new }
    ensures cause { HasCause (λ db var. (query_permitted db (who_of (option_map (λ n. n.now) who.entry)) asked.now.query ≡ false) × IsRefusedIn db (who_of (option_map (λ n. n.now) who.entry)) asked.now.query var) (B.database base.old) (B.faults base.old) (B.faults base.new) result }
{
    match expanded(alloc, base, who, &asked.query, found) {
        Ok(query) => match asked.sort.copy(alloc) {
            Ok(sort) => match made.push(Asked { query, sort }) {
                Ok(()) => Ok(()),
                Err(_) => Err(CutFault::OutOfMemory),
            },
            Err(_) => Err(CutFault::OutOfMemory),
        },
        Err(fault) => Err(fault),
    }
}

/// Puts the queries that are asked so behind those that are there.
fn put_all_asked<B: Base>(
    alloc: Global,
    base: &mut B,
    who: Option<&Name>,
    asked: &[Asked],
    made: &mut Vec<Asked>,
    found: &mut ExpansionsFound,
) -> Result<(), CutFault>
    requires fit { (db : Db) → B.database base.old ≡ Some db → list_all (asked_fits (kept_or_viewed db) db) asked.now ≡ true }
    requires found { (db : Db) → B.database base.old ≡ Some db → IsFound db (who_of (option_map (λ n. n.now) who)) found.old }
    ensures known { (db : Db) → B.database base.old ≡ Some db → OnOk result (made.new.items ≡ made.old.items ++ map (expanded_asked db (who_of (option_map (λ n. n.now) who.entry))) asked.now) }
    ensures permitted { (db : Db) → B.database base.old ≡ Some db → OnOk result (list_all (λ a. query_permitted db (who_of (option_map (λ n. n.now) who.entry)) a.query) asked.now ≡ true) }
    ensures found { (db : Db) → B.database base.old ≡ Some db → IsFound db (who_of (option_map (λ n. n.now) who.entry)) found.new }
    ensures kept { B.database base.new ≡ B.database base.old }
    ensures stays { (s : Db) → B.schema base.old ≡ Some s → B.schema base.new ≡ Some s }
    ensures asked { (b : B) → B.asked b base.old → B.asked b base.new }
    ensures cause { HasCause (λ db var. (list_all (λ a. query_permitted db (who_of (option_map (λ n. n.now) who.entry)) a.query) asked.now ≡ false) × ((a : AskedFor) × (Contains asked.now a) × IsRefusedIn db (who_of (option_map (λ n. n.now) who.entry)) a.query var)) (B.database base.old) (B.faults base.old) (B.faults base.new) result }
{
    let mut rest = asked;
    'asked: while let Some((first, others)) = rest.split_first() {
        put_asked(alloc, base, who, first, made, found)?;
        rest = others;
    }
    Ok(())
}

/// The queries that are asked, so.
fn asked_tree<B: Base>(
    alloc: Global,
    base: &mut B,
    who: Option<&Name>,
    asked: &[Asked],
    found: &mut ExpansionsFound,
) -> Result<Checked, CutFault>
    requires fit { (db : Db) → B.database base.old ≡ Some db → list_all (asked_fits (kept_or_viewed db) db) asked.now ≡ true }
    requires found { (db : Db) → B.database base.old ≡ Some db → IsFound db (who_of (option_map (λ n. n.now) who)) found.old }
    ensures known { (db : Db) → B.database base.old ≡ Some db → IfOk result (λ made. made ≡ Answer (map (expanded_asked db (who_of (option_map (λ n. n.now) who.entry))) asked.now)) }
    ensures permitted { (db : Db) → B.database base.old ≡ Some db → OnOk result (list_all (λ a. query_permitted db (who_of (option_map (λ n. n.now) who.entry)) a.query) asked.now ≡ true) }
    ensures found { (db : Db) → B.database base.old ≡ Some db → IsFound db (who_of (option_map (λ n. n.now) who.entry)) found.new }
    ensures kept { B.database base.new ≡ B.database base.old }
    ensures stays { (s : Db) → B.schema base.old ≡ Some s → B.schema base.new ≡ Some s }
    ensures asked { (b : B) → B.asked b base.old → B.asked b base.new }
    ensures cause { HasCause (λ db var. (list_all (λ a. query_permitted db (who_of (option_map (λ n. n.now) who.entry)) a.query) asked.now ≡ false) × ((a : AskedFor) × (Contains asked.now a) × IsRefusedIn db (who_of (option_map (λ n. n.now) who.entry)) a.query var)) (B.database base.old) (B.faults base.old) (B.faults base.new) result }
{
    let mut made = Vec::new(alloc);
    match put_all_asked(alloc, base, who, asked, &mut made, found) {
        Ok(()) => Ok(Checked::Answer(List::of(made))),
        Err(fault) => Err(fault),
    }
}

/// The tree with its variables expanded, for the user.
fn expanded_tree<B: Base>(
    alloc: Global,
    base: &mut B,
    user: &Name,
    tree: &Checked,
    found: &mut ExpansionsFound,
) -> Result<Checked, CutFault>
    requires fit { (db : Db) → B.database base.old ≡ Some db → is_fit_with_views db user.now tree.now ≡ true }
    requires found { (db : Db) → B.database base.old ≡ Some db → IsFound db (as_user user.now) found.old }
    ensures known { (db : Db) → B.database base.old ≡ Some db → IfOk result (λ made. made ≡ expanded_tree db (as_user user.now) tree.now) }
    ensures permitted { (db : Db) → B.database base.old ≡ Some db → OnOk result (checked_permitted db (as_user user.now) tree.now ≡ true) }
    ensures found { (db : Db) → B.database base.old ≡ Some db → IsFound db (as_user user.now) found.new }
    ensures kept { B.database base.new ≡ B.database base.old }
    ensures stays { (s : Db) → B.schema base.old ≡ Some s → B.schema base.new ≡ Some s }
    ensures asked { (b : B) → B.asked b base.old → B.asked b base.new }
    ensures cause { HasCause (λ db var. (checked_permitted db (as_user user.now) tree.now ≡ false) × IsRefusedBy db (as_user user.now) tree.now var) (B.database base.old) (B.faults base.old) (B.faults base.new) result }
{
    match tree {
        Checked::Answer(asked) => asked_tree(alloc, base, Some(user), asked.items(), found),
        Checked::Update(u) => match expanded_update(alloc, base, Some(user), u, found) {
            Ok(u) => Ok(Checked::Update(u)),
            Err(fault) => Err(fault),
        },
        Checked::Utility(work) => match work.copy(alloc) {
            Ok(work) => Ok(Checked::Utility(work)),
            Err(_) => Err(CutFault::OutOfMemory),
        },
    }
}

/// The tree over base relations and catalogues alone, its views expanded and restricted to what the user may
/// see and change: it means unrestricted what the given one means for the user. A utility
/// stays as it is. `NoPermit` exactly where something that is read or changed isn't permitted, and then a
/// variable that is refused: by its place in its query; 255 for what an aggregate names, and for the
/// relation of an append.
pub fn cut_permits<B: Base>(
    alloc: Global,
    tree: Checked,
    user: &Name,
    base: &mut B,
) -> Result<Checked, CutFault>
    requires { (db : Db) → B.database base.old ≡ Some db → is_fit_with_views db user.now tree ≡ true }
    ensures known { (db : Db) → B.database base.old ≡ Some db → IfOk result (λ made. made ≡ expanded_tree db (as_user user.now) tree) }
    ensures means { (db : Db) → B.database base.old ≡ Some db → (shelf : Files) → IfOk result (λ made. tree_meaning db shelf Unrestricted user.now made ≡ tree_meaning db shelf (as_user user.now) user.now tree) }
    ensures permitted { (db : Db) → B.database base.old ≡ Some db → OnOk result (checked_permitted db (as_user user.now) tree ≡ true) }
    ensures kept { B.database base.new ≡ B.database base.old }
    ensures stays { (s : Db) → B.schema base.old ≡ Some s → B.schema base.new ≡ Some s }
    ensures asked { (b : B) → B.asked b base.old → B.asked b base.new }
    ensures cause { HasCause (λ db var. (checked_permitted db (as_user user.now) tree ≡ false) × IsRefusedBy db (as_user user.now) tree var) (B.database base.old) (B.faults base.old) (B.faults base.new) result }
{
    let mut found = ExpansionsFound::new(alloc);
    let made = expanded_tree(alloc, base, user, &tree, &mut found);
    drop(tree);
    made
}
