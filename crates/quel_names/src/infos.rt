//! What variables range over.

ghost use Rattle.std.specs.Prelude.{◌≡◌, ℕ, List, None, Some, true, option_map, IfOk};
ghost use Rattle.base_trait.specs.Causes.{HasCause};
ghost use Rattle.calculus.specs.Database.{Db};
ghost use Rattle.calculus.specs.declared.statement.Statement.{Statement};
ghost use Rattle.quel_check.specs.Known.{inner_vars};
ghost use Rattle.quel_meaning.specs.Naming.{name_refusal};
ghost use Rattle.quel_meaning.specs.Scope.{Scope};
ghost use Rattle.quel_meaning.specs.WrittenParts.{vars_in};
ghost use Rattle.quel_names.specs.Asking.{scope_of};
ghost use Rattle.quel_names.specs.Ranging.{AreOver, each_ranges};

use crate::looking::ranged;
use base_trait::{Base, BaseFault};
use calculus::{Name, RelInfo};
use memory::push;
use quel_check::RangeTable;
use std::alloc::Global;

/// What each of these variables ranges over, one by one; `None` exactly where one of them ranges over
/// nothing.
pub fn infos_of<B: Base>(
    alloc: Global,
    base: &mut B,
    ranges: &RangeTable,
    vars: &[Name],
) -> Result<Option<Vec<RelInfo>>, BaseFault>
    ensures known { (db : Db) (user : List ℕ) → B.schema base.old ≡ Some db
        → IfOk result (λ found. AreOver (scope_of db user ranges.now) vars.now (option_map (λ infos. infos.items) found)) }
    ensures kept { B.database base.new ≡ B.database base.old }
    ensures stays { (s : Db) → B.schema base.old ≡ Some s → B.schema base.new ≡ Some s }
    ensures asked { (b : B) → B.asked b base.old → B.asked b base.new }
    ensures cause { HasCause (B.database base.old) (B.faults base.old) (B.faults base.new) result }
{
    let mut infos: Vec<RelInfo> = Vec::new(alloc);
    for var in vars {
        match ranged(alloc, base, ranges, var)? {
            Some(info) => push(&mut infos, info)?,
            None => return Ok(None),
        }
    }
    Ok(Some(infos))
}

/// Where no name refuses a statement, each of its variables ranges over something.
#[tactic(auto, using(crate::proofs::Overs::named_vars_range))]
pub fn variables_range_where_no_name_refuses()
    ensures { (s : Scope) (statement : Statement) → name_refusal s statement ≡ None → each_ranges s (vars_in statement) ≡ true }
{}

/// Where no name refuses a statement, the first variable of each of its aggregates ranges over something.
#[tactic(auto, using(crate::proofs::Inner::inner_vars_range))]
pub fn inner_variables_range_where_no_name_refuses()
    ensures { (s : Scope) (statement : Statement) → name_refusal s statement ≡ None → each_ranges s (inner_vars statement) ≡ true }
{}
