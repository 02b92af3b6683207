//! The query of a statement.

ghost use Rattle.std.specs.Prelude.{◌≡◌, [], true, map, IfOk, Some};
ghost use Rattle.base_trait.specs.Causes.{HasCause};
ghost use Rattle.calculus.specs.declared.query.Query.{roll-Query};
ghost use Rattle.calculus.specs.Database.{Db};
ghost use Rattle.quel_check.specs.Known.{Knows, inner_vars};
ghost use Rattle.quel_meaning.specs.Aggregates.{aggregates_allowed};
ghost use Rattle.quel_meaning.specs.Scope.{Scope};
ghost use Rattle.quel_meaning.specs.WrittenParts.{vars_in};
ghost use Rattle.quel_meaning.specs.WrittenQuery.{query_of, where_tree};
ghost use Rattle.quel_resolve.specs.Targets.{Puts};

use crate::known::{keys_of, kinds_of};
use crate::target_list::items_of;
use crate::targets::targets_from;
use base_trait::{Base, BaseFault};
use calculus::{Item, List, OutOfMemory, Query, Statement, Target};
use memory::both;
use quel_check::{Known, where_tree_from};
use std::alloc::Global;

/// The targets of a target list.
fn targets_of<B: Base>(
    alloc: Global,
    base: &mut B,
    known: Known<'_>,
    items: &[Item],
) -> Result<Vec<Target>, BaseFault>
    ensures known { (db : Db) → B.schema base.old ≡ Some db
        → IfOk result (λ targets. Puts db known.entry.vars.now known.entry.infos.now known.entry.inner_vars.now known.entry.inner_infos.now 0 items.now [] targets.items) }
    ensures kept { B.database base.new ≡ B.database base.old }
    ensures stays { (s : Db) → B.schema base.old ≡ Some s → B.schema base.new ≡ Some s }
    ensures asked { (b : B) → B.asked b base.old → B.asked b base.new }
    ensures cause { HasCause (B.database base.old) (B.faults base.old) (B.faults base.new) result }
{
    let kinds = kinds_of(alloc, known.infos)?;
    let targets = targets_from(alloc, base, known, &kinds, items);
    drop(kinds);
    targets
}

/// The query of these targets, with the statement's qualification and what its variables range over.
fn query_with(
    alloc: Global,
    s: &Statement,
    known: Known<'_>,
    targets: Vec<Target>,
) -> Result<Query, OutOfMemory>
    ensures { IfOk result (λ q. (scope : Scope) → known.entry.vars.now ≡ vars_in s.now → known.entry.inner_vars.now ≡ inner_vars s.now
        → Knows scope known.entry.vars.now known.entry.infos.now → Knows scope known.entry.inner_vars.now known.entry.inner_infos.now → aggregates_allowed scope s.now ≡ true
        → q ≡ roll-Query (record { vars = map (λ info. info.key) known.entry.infos.now; targets = targets.items; qual = where_tree scope s.now })) }
{
    let rest = where_tree_from(alloc, known, s);
    let (keys, qual) = match both(keys_of(alloc, known.infos), rest) {
        Ok(both) => both,
        Err(error) => {
            drop(targets);
            return Err(error);
        }
    };
    Ok(Query {
        vars: List::of(keys),
        targets: List::of(targets),
        qual,
    })
}

/// The query of a statement whose aggregates may stand, where `known` are its variables with what they
/// range over.
pub fn query_of<B: Base>(
    alloc: Global,
    base: &mut B,
    s: &Statement,
    known: Known<'_>,
) -> Result<Query, BaseFault>
    ensures known { (scope : Scope) → B.schema base.old ≡ Some scope.db → known.entry.vars.now ≡ vars_in s.now → known.entry.inner_vars.now ≡ inner_vars s.now
        → Knows scope known.entry.vars.now known.entry.infos.now → Knows scope known.entry.inner_vars.now known.entry.inner_infos.now → aggregates_allowed scope s.now ≡ true
        → IfOk result (λ q. q ≡ query_of scope s.now) }
    ensures kept { B.database base.new ≡ B.database base.old }
    ensures stays { (s : Db) → B.schema base.old ≡ Some s → B.schema base.new ≡ Some s }
    ensures asked { (b : B) → B.asked b base.old → B.asked b base.new }
    ensures cause { HasCause (B.database base.old) (B.faults base.old) (B.faults base.new) result }
{
    match targets_of(alloc, base, known, items_of(s)) {
        Ok(targets) => Ok(query_with(alloc, s, known, targets)?),
        Err(fault) => Err(fault),
    }
}
