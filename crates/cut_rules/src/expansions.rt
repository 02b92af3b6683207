//! The expansions of a query's variables, and the place of one that is refused.

ghost use Rattle.std.specs.Prelude.{◌≡◌, ◌≤◌, ◌<◌, ◌++◌, [], ◌∷◌, map, true, false, Some, length, IfOk, IfErr, OnOk, option_map};
ghost use Rattle.std.specs.List.{enumerate_from, list_all};
ghost use Rattle.calculus.specs.Database.{Db};
ghost use Rattle.calculus.specs.QueryParts.{vars_of};
ghost use Rattle.cut_rules.specs.Causes.{HasCause};
ghost use Rattle.cut_rules.specs.Faults.{fault_at};
ghost use Rattle.cut_rules.specs.Placed.{IsRefusedAt, is_small, may_be_read, read_expansion};
ghost use Rattle.cut_rules.specs.declared.fault.CutFault.TheVariants.{OutOfMemory as NoMemory};
ghost use Rattle.view_expand.specs.Asking.{who_of};
ghost use Rattle.view_expand.specs.Found.{IsFound};
ghost use Rattle.view_text.specs.Scoped.{is_scoped};
ghost use Rattle.view_text.specs.Expansions.{expansions_vars};

use crate::CutFault;
use base_trait::Base;
use calculus::limits::MOST_LEVEL;
use calculus::{Name, Query, RelKey};
use std::alloc::Global;
use view_expand::{ExpansionFault, ExpansionsFound, expansion_at};
use view_text::Expansion;

/// The variables that a query may list, and number.
pub(crate) const PLACES: usize = 256;

/// What a fault of the expansion of the variable at this place is for the tree.
pub(crate) fn fault_at(fault: ExpansionFault, var: u8) -> CutFault
    ensures { result ≡ fault_at var fault }
{
    match fault {
        ExpansionFault::NoPermit => CutFault::NoPermit { var },
        ExpansionFault::TooMany => CutFault::TooMany,
        ExpansionFault::Base(fault) => CutFault::Base(fault),
        ExpansionFault::OutOfMemory => CutFault::OutOfMemory,
    }
}

/// Puts an expansion behind those that are there.
#[tactic(auto, using(view_expand::proofs::Listing::all_scoped_more))]
pub(crate) fn put_behind(expansions: &mut Vec<Expansion>, more: Expansion) -> Result<(), CutFault>
    requires { is_scoped more ≡ true }
    ensures expansions { OnOk result (expansions.new.items ≡ expansions.old.items ++ more ∷ []) }
    ensures scoped { list_all is_scoped expansions.old.items ≡ true → OnOk result (list_all is_scoped expansions.new.items ≡ true) }
    ensures cause { IfErr result (λ fault. fault ≡ NoMemory) }
{
    match expansions.push(more) {
        Ok(()) => Ok(()),
        Err(_) => Err(CutFault::OutOfMemory),
    }
}

/// Whether the expansions have at most so many variables together.
#[tactic(auto, using(view_expand::proofs::Few::vars_before))]
pub(crate) fn are_few(expansions: &[Expansion], most: usize) -> bool
    ensures few { result ≡ true → length (expansions_vars expansions.now) ≤ most }
    ensures many { result ≡ false → most < length (expansions_vars expansions.now) }
{
    match expansions.split_first() {
        None => true,
        Some((expansion, others)) => {
            let some = expansion.vars.items().len();
            some <= most && are_few(others, most - some)
        }
    }
}

/// The expansion of a query's variable at a place, which ranges over this; one that isn't used has none.
/// `NoPermit` exactly where it is used and may not be read.
pub(crate) fn read_expansion<B: Base>(
    alloc: Global,
    base: &mut B,
    who: Option<&Name>,
    query: &Query,
    place: u8,
    key: &RelKey,
    found: &mut ExpansionsFound,
) -> Result<Expansion, CutFault>
    requires small { (db : Db) → B.database base.old ≡ Some db → is_small db query.now (place, key.now) ≡ true }
    requires found { (db : Db) → B.database base.old ≡ Some db → IsFound db (who_of (option_map (λ n. n.now) who)) found.old }
    ensures known { (db : Db) → B.database base.old ≡ Some db → IfOk result (λ expansion. expansion ≡ read_expansion db (who_of (option_map (λ n. n.now) who.entry)) query.now (place, key.now)) }
    ensures permitted { (db : Db) → B.database base.old ≡ Some db → OnOk result (may_be_read db (who_of (option_map (λ n. n.now) who.entry)) query.now (place, key.now) ≡ true) }
    ensures scoped { IfOk result (λ expansion. is_scoped expansion ≡ true) }
    ensures found { (db : Db) → B.database base.old ≡ Some db → IsFound db (who_of (option_map (λ n. n.now) who.entry)) found.new }
    ensures kept { B.database base.new ≡ B.database base.old }
    ensures stays { (s : Db) → B.schema base.old ≡ Some s → B.schema base.new ≡ Some s }
    ensures asked { (b : B) → B.asked b base.old → B.asked b base.new }
    ensures cause { HasCause (λ db var. (var ≡ place) × (may_be_read db (who_of (option_map (λ n. n.now) who.entry)) query.now (place, key.now) ≡ false)) (B.database base.old) (B.faults base.old) (B.faults base.new) result }
{
    match expansion_at(alloc, base, who, query, place, key, MOST_LEVEL, found) {
        Ok(expansion) => Ok(expansion),
        Err(fault) => Err(fault_at(fault, place)),
    }
}

/// Puts the expansions of a query's variables, which range over these, behind those that are there.
fn put_each<B: Base>(
    alloc: Global,
    base: &mut B,
    who: Option<&Name>,
    query: &Query,
    keys: &[RelKey],
    expansions: &mut Vec<Expansion>,
    found: &mut ExpansionsFound,
) -> Result<(), CutFault>
    requires listed { length keys.now ≤ 256 }
    requires small { (db : Db) → B.database base.old ≡ Some db → list_all (is_small db query.now) (enumerate_from 0 keys.now) ≡ true }
    requires found { (db : Db) → B.database base.old ≡ Some db → IsFound db (who_of (option_map (λ n. n.now) who)) found.old }
    ensures known { (db : Db) → B.database base.old ≡ Some db → OnOk result (expansions.new.items ≡ expansions.old.items ++ map (read_expansion db (who_of (option_map (λ n. n.now) who.entry)) query.now) (enumerate_from 0 keys.now)) }
    ensures permitted { (db : Db) → B.database base.old ≡ Some db → OnOk result (list_all (may_be_read db (who_of (option_map (λ n. n.now) who.entry)) query.now) (enumerate_from 0 keys.now) ≡ true) }
    ensures scoped { list_all is_scoped expansions.old.items ≡ true → OnOk result (list_all is_scoped expansions.new.items ≡ true) }
    ensures found { (db : Db) → B.database base.old ≡ Some db → IsFound db (who_of (option_map (λ n. n.now) who.entry)) found.new }
    ensures kept { B.database base.new ≡ B.database base.old }
    ensures stays { (s : Db) → B.schema base.old ≡ Some s → B.schema base.new ≡ Some s }
    ensures asked { (b : B) → B.asked b base.old → B.asked b base.new }
    ensures cause { HasCause (λ db var. IsRefusedAt (may_be_read db (who_of (option_map (λ n. n.now) who.entry)) query.now) keys.now var) (B.database base.old) (B.faults base.old) (B.faults base.new) result }
{
    let mut place: usize = 0;
    let mut rest = keys;
    'keys: while let Some((key, others)) = rest.split_first() {
        let more = read_expansion(alloc, base, who, query, place as u8, key, found)?;
        put_behind(expansions, more)?;
        place += 1;
        rest = others;
    }
    Ok(())
}

/// Puts the expansions of a query's variables behind those that are there. `NoPermit` exactly where one that is
/// used may not be read, and then its place.
pub(crate) fn put_expansions<B: Base>(
    alloc: Global,
    base: &mut B,
    who: Option<&Name>,
    query: &Query,
    expansions: &mut Vec<Expansion>,
    found: &mut ExpansionsFound,
) -> Result<(), CutFault>
    requires listed { (db : Db) → B.database base.old ≡ Some db → length (vars_of query.now) ≤ 256 }
    requires small { (db : Db) → B.database base.old ≡ Some db → list_all (is_small db query.now) (enumerate_from 0 (vars_of query.now)) ≡ true }
    requires found { (db : Db) → B.database base.old ≡ Some db → IsFound db (who_of (option_map (λ n. n.now) who)) found.old }
    ensures known { (db : Db) → B.database base.old ≡ Some db → OnOk result (expansions.new.items ≡ expansions.old.items ++ map (read_expansion db (who_of (option_map (λ n. n.now) who.entry)) query.now) (enumerate_from 0 (vars_of query.now))) }
    ensures permitted { (db : Db) → B.database base.old ≡ Some db → OnOk result (list_all (may_be_read db (who_of (option_map (λ n. n.now) who.entry)) query.now) (enumerate_from 0 (vars_of query.now)) ≡ true) }
    ensures scoped { list_all is_scoped expansions.old.items ≡ true → OnOk result (list_all is_scoped expansions.new.items ≡ true) }
    ensures found { (db : Db) → B.database base.old ≡ Some db → IsFound db (who_of (option_map (λ n. n.now) who.entry)) found.new }
    ensures kept { B.database base.new ≡ B.database base.old }
    ensures stays { (s : Db) → B.schema base.old ≡ Some s → B.schema base.new ≡ Some s }
    ensures asked { (b : B) → B.asked b base.old → B.asked b base.new }
    ensures cause { HasCause (λ db var. IsRefusedAt (may_be_read db (who_of (option_map (λ n. n.now) who.entry)) query.now) (vars_of query.now) var) (B.database base.old) (B.faults base.old) (B.faults base.new) result }
{
    let keys = query.vars.items();
    if keys.len() > PLACES {
        return Err(CutFault::TooMany);
    }
    put_each(alloc, base, who, query, keys, expansions, found)
}
