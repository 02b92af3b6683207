//! What refuses a statement whose names were found.

ghost use Rattle.std.specs.Prelude.{◌≡◌, List, [], true, option_copied, option_map, IfOk, None, Some};
ghost use Rattle.calculus.specs.Database.{Db};
ghost use Rattle.base_trait.specs.Causes.{HasCause};
ghost use Rattle.calculus.specs.declared.query.Query.{Query};
ghost use Rattle.calculus.specs.declared.statement.Item.{Item};
ghost use Rattle.calculus.specs.declared.statement.Qual.{Qual};
ghost use Rattle.calculus.specs.declared.statement.Statement.TheVariants as statement;
ghost use Rattle.calculus.specs.QueryParts.{query_aggregates};
ghost use Rattle.calculus.specs.Replacement.{first_refusal};
ghost use Rattle.quel_refusals.specs.CheckedStatements.{IsOn, is_checked, update_of};
ghost use Rattle.quel_meaning.specs.Aggregates.{aggregates_allowed, keeps_a_text};
ghost use Rattle.quel_meaning.specs.Causes.{refusals, refusals_by};
ghost use Rattle.quel_meaning.specs.Scope.{Scope};
ghost use Rattle.quel_meaning.specs.WrittenQuery.{query_of};
ghost use Rattle.view_sizes.specs.Listing.{sources_list_few};

use crate::changed::{delete_refusal, update_refusal};
use crate::created::create_refusal;
use crate::restricted::{permit_refusal, rule_refusal};
use crate::retrieved::{into_refusal, print_refusal};
use crate::viewed::view_refusal;
use base_trait::{Base, BaseFault};
use calculus::{Name, Query, RelInfo, Statement, Update};
use std::alloc::Global;

/// What refuses a `retrieve`, into a relation of this name or printed.
fn retrieve_refusal<B: Base>(
    alloc: Global,
    base: &mut B,
    user: &Name,
    into: &Option<Name>,
    sort: &[(Name, bool)],
    q: &Query,
) -> Result<Option<u8>, BaseFault>
    ensures known { (s : Scope) (items : List Item) (qual : Qual) → B.schema base.old ≡ Some s.db → s.user ≡ user.now → sources_list_few q.now ≡ true → IfOk result (λ n. n ≡ first_refusal (refusals_by s true q.now (statement.Retrieve into.now items qual sort.now))) }
    ensures kept { B.database base.new ≡ B.database base.old }
    ensures stays { (s : Db) → B.schema base.old ≡ Some s → B.schema base.new ≡ Some s }
    ensures asked { (b : B) → B.asked b base.old → B.asked b base.new }
    ensures cause { HasCause (B.database base.old) (B.faults base.old) (B.faults base.new) result }
{
    match into {
        Some(name) => into_refusal(alloc, base, user, name, sort, q),
        None => print_refusal(alloc, base, sort, q),
    }
}

/// What refuses an append, a replacement or a deletion that is this update.
fn changed_refusal<B: Base>(
    alloc: Global,
    base: &mut B,
    s: &Statement,
    u: &Update,
) -> Result<Option<u8>, BaseFault>
    ensures known { (scope : Scope) (q : Query) → B.schema base.old ≡ Some scope.db → sources_list_few q ≡ true → Some u.now ≡ update_of scope s.now q → IfOk result (λ n. n ≡ first_refusal (refusals_by scope true q s.now)) }
    ensures kept { B.database base.new ≡ B.database base.old }
    ensures stays { (s : Db) → B.schema base.old ≡ Some s → B.schema base.new ≡ Some s }
    ensures asked { (b : B) → B.asked b base.old → B.asked b base.new }
    ensures cause { HasCause (B.database base.old) (B.faults base.old) (B.faults base.new) result }
{
    match s {
        Statement::Delete { .. } => delete_refusal(alloc, base, u),
        _ => update_refusal(alloc, base, u),
    }
}

/// What refuses a statement that is no update, whose query is this, and whose aggregates may stand: a
/// view, a permit and a rule has none.
fn unchanged_refusal<B: Base>(
    alloc: Global,
    base: &mut B,
    user: &Name,
    s: &Statement,
    q: &Query,
    on: Option<&RelInfo>,
) -> Result<Option<u8>, BaseFault>
    ensures known { (scope : Scope) → B.schema base.old ≡ Some scope.db → scope.user ≡ user.now → sources_list_few q.now ≡ true → (keeps_a_text s.now ≡ true → query_aggregates q.now ≡ []) → None ≡ update_of scope s.now q.now → IsOn scope s.now (option_copied on.entry) → is_checked s.now ≡ true → IfOk result (λ n. n ≡ first_refusal (refusals_by scope true q.now s.now)) }
    ensures kept { B.database base.new ≡ B.database base.old }
    ensures stays { (s : Db) → B.schema base.old ≡ Some s → B.schema base.new ≡ Some s }
    ensures asked { (b : B) → B.asked b base.old → B.asked b base.new }
    ensures cause { HasCause (B.database base.old) (B.faults base.old) (B.faults base.new) result }
{
    match s {
        Statement::Retrieve { into, sort, .. } => {
            retrieve_refusal(alloc, base, user, into, sort.items(), q)
        }
        Statement::Create { rel, attrs } => create_refusal(alloc, base, user, rel, attrs.items()),
        Statement::View { name, .. } => view_refusal(alloc, base, user, name, q),
        Statement::Permit { attrs, .. } => permit_refusal(alloc, base, on, attrs.items(), q),
        Statement::Rule { .. } => rule_refusal(alloc, base, on, q),
        _ => Ok(None),
    }
}

/// The number of the first cause that refuses a statement whose names were found and whose aggregates may
/// stand, for this user; `None` where there is none. `q` is the statement's query, `update` the update that it is where it
/// appends, replaces or deletes, and `on` what is known of what the variable of a permit or a rule
/// ranges over. Nothing is said of `destroy`, `modify`, `index`, `print`, `help` and `copy`.
pub fn find_refusal<B: Base>(
    alloc: Global,
    base: &mut B,
    user: &Name,
    s: &Statement,
    q: &Query,
    update: Option<&Update>,
    on: Option<&RelInfo>,
) -> Result<Option<u8>, BaseFault>
    ensures known { (scope : Scope) → B.schema base.old ≡ Some scope.db → scope.user ≡ user.now → q.now ≡ query_of scope s.now → option_map (λ v. v.now) update.entry ≡ update_of scope s.now q.now → IsOn scope s.now (option_copied on.entry) → aggregates_allowed scope s.now ≡ true → is_checked s.now ≡ true → IfOk result (λ n. n ≡ first_refusal (refusals scope s.now)) }
    ensures kept { B.database base.new ≡ B.database base.old }
    ensures stays { (s : Db) → B.schema base.old ≡ Some s → B.schema base.new ≡ Some s }
    ensures asked { (b : B) → B.asked b base.old → B.asked b base.new }
    ensures cause { HasCause (B.database base.old) (B.faults base.old) (B.faults base.new) result }
{
    match update {
        Some(u) => changed_refusal(alloc, base, s, u),
        None => unchanged_refusal(alloc, base, user, s, q, on),
    }
}
