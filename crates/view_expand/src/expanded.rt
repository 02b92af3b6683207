//! A query with its variables expanded.

ghost use Rattle.std.specs.Prelude.{◌≡◌, ◌≤◌, ◌++◌, true, false, Some, length, IfOk, OnOk, option_map};
ghost use Rattle.std.specs.List.{list_all};
ghost use Rattle.calculus.specs.Database.{Db};
ghost use Rattle.calculus.specs.Permission.{permitted_within, vars_permitted};
ghost use Rattle.calculus.specs.QueryParts.{vars_of};
ghost use Rattle.calculus.specs.Sizes.{measure_within, query_measure};
ghost use Rattle.calculus.specs.Used.{used_vars};
ghost use Rattle.view_expand.specs.Asking.{who_of};
ghost use Rattle.view_expand.specs.Causes.{HasCause};
ghost use Rattle.view_expand.specs.Found.{IsFound};
ghost use Rattle.view_text.specs.Expanded.{expanded_plain};
ghost use Rattle.view_text.specs.Scoped.{is_scoped};
ghost use Rattle.view_text.specs.ExpansionOf.{expansion_within};
ghost use Rattle.view_text.specs.Expansions.{query_expansions};

use crate::plain::{PLACES, query_over};
use crate::walk::put_expansions;
use crate::{ExpansionFault, ExpansionsFound};
use base_trait::Base;
use calculus::{Name, Query};
use std::alloc::Global;
use view_text::Expansion;

/// Puts the expansions of a query's variables, which go through at most so many levels of views, behind
/// those that are there. `NoPermit` exactly where a variable that is used may not be read. What was found
/// before, for the same one who asks, is made use of, and what is found is kept beside it.
fn expansions_through<B: Base>(
    alloc: Global,
    base: &mut B,
    who: Option<&Name>,
    query: &Query,
    levels: u8,
    expansions: &mut Vec<Expansion>,
    found: &mut ExpansionsFound,
) -> Result<(), ExpansionFault>
    requires listed { (db : Db) → B.database base.old ≡ Some db → length (vars_of query.now) ≤ 256 }
    requires expanded { (db : Db) → B.database base.old ≡ Some db → (query_measure (measure_within levels db) query.now).variables ≤ 256 }
    requires found { (db : Db) → B.database base.old ≡ Some db → IsFound db (who_of (option_map (λ n. n.now) who)) found.old }
    ensures known { (db : Db) → B.database base.old ≡ Some db → OnOk result (expansions.new.items ≡ expansions.old.items ++ query_expansions (expansion_within levels db (who_of (option_map (λ n. n.now) who.entry))) query.now) }
    ensures permitted { (db : Db) → B.database base.old ≡ Some db → OnOk result (vars_permitted (permitted_within levels db (who_of (option_map (λ n. n.now) who.entry))) query.now (used_vars query.now) ≡ true) }
    ensures scoped { list_all is_scoped expansions.old.items ≡ true → OnOk result (list_all is_scoped expansions.new.items ≡ true) }
    ensures found { (db : Db) → B.database base.old ≡ Some db → IsFound db (who_of (option_map (λ n. n.now) who.entry)) found.new }
    ensures kept { B.database base.new ≡ B.database base.old }
    ensures stays { (s : Db) → B.schema base.old ≡ Some s → B.schema base.new ≡ Some s }
    ensures asked { (b : B) → B.asked b base.old → B.asked b base.new }
    ensures cause { HasCause (λ db. vars_permitted (permitted_within levels db (who_of (option_map (λ n. n.now) who.entry))) query.now (used_vars query.now) ≡ false) (B.database base.old) (B.faults base.old) (B.faults base.new) result }
{
    let keys = query.vars.items();
    if keys.len() > PLACES {
        return Err(ExpansionFault::TooMany);
    }
    put_expansions(alloc, base, who, query, keys, levels, expansions, found)
}

/// The query with its variables expanded, which go through at most so many levels of views:
/// it is over base relations and catalogues alone, and the permits of the one who asks are conditions
/// in its qualification. An aggregate becomes a term without value. `NoPermit` exactly where a variable
/// that is used may not be read. What was found before, for the same one who asks, is made use of, and
/// what is found is kept beside it.
pub fn expanded_plain<B: Base>(
    alloc: Global,
    base: &mut B,
    who: Option<&Name>,
    query: &Query,
    levels: u8,
    found: &mut ExpansionsFound,
) -> Result<Query, ExpansionFault>
    requires listed { (db : Db) → B.database base.old ≡ Some db → length (vars_of query.now) ≤ 256 }
    requires expanded { (db : Db) → B.database base.old ≡ Some db → (query_measure (measure_within levels db) query.now).variables ≤ 256 }
    requires found { (db : Db) → B.database base.old ≡ Some db → IsFound db (who_of (option_map (λ n. n.now) who)) found.old }
    ensures known { (db : Db) → B.database base.old ≡ Some db → IfOk result (λ made. made ≡ expanded_plain (expansion_within levels db (who_of (option_map (λ n. n.now) who.entry))) query.now) }
    ensures permitted { (db : Db) → B.database base.old ≡ Some db → OnOk result (vars_permitted (permitted_within levels db (who_of (option_map (λ n. n.now) who.entry))) query.now (used_vars query.now) ≡ true) }
    ensures found { (db : Db) → B.database base.old ≡ Some db → IsFound db (who_of (option_map (λ n. n.now) who.entry)) found.new }
    ensures kept { B.database base.new ≡ B.database base.old }
    ensures stays { (s : Db) → B.schema base.old ≡ Some s → B.schema base.new ≡ Some s }
    ensures asked { (b : B) → B.asked b base.old → B.asked b base.new }
    ensures cause { HasCause (λ db. vars_permitted (permitted_within levels db (who_of (option_map (λ n. n.now) who.entry))) query.now (used_vars query.now) ≡ false) (B.database base.old) (B.faults base.old) (B.faults base.new) result }
{
    let mut expansions = Vec::new(alloc);
    match expansions_through(alloc, base, who, query, levels, &mut expansions, found) {
        Ok(()) => query_over(alloc, &expansions, query),
        Err(error) => Err(error),
    }
}
