//! What refuses a permit or a rule.

ghost use Rattle.std.specs.Prelude.{◌≡◌, ◌∷◌, ◌||◌, ◌&&◌, nat_le, ℕ, [], List, Option, length, map, nat_lt, not, true, option_copied, IfOk, Some};
ghost use Rattle.base_trait.specs.Causes.{HasCause};
ghost use Rattle.calculus.specs.Change.{permit_numbers, rule_numbers};
ghost use Rattle.calculus.specs.Database.{Db};
ghost use Rattle.calculus.specs.IsDatabase.{valid_row_qual};
ghost use Rattle.calculus.specs.Kinds.{kinds_fit};
ghost use Rattle.calculus.specs.QueryParts.{qual_of, query_aggregates, vars_of};
ghost use Rattle.calculus.specs.Sizes.{qual_size};
ghost use Rattle.view_sizes.specs.Sized.{qual_depth};
ghost use Rattle.calculus.specs.Replacement.{first_refusal};
ghost use Rattle.calculus.specs.Storable.{row_qual_is_small};
ghost use Rattle.calculus.specs.declared.statement.Qual.{Qual as WrittenQual};
ghost use Rattle.calculus.specs.declared.statement.Statement.TheVariants as statement;
ghost use Rattle.quel_refusals.specs.CheckedStatements.{IsOver};
ghost use Rattle.quel_meaning.specs.Causes.{refusals_by};
ghost use Rattle.quel_meaning.specs.Planned.{greatest, is_past_limit};
ghost use Rattle.quel_meaning.specs.Scope.{Scope};

use base_trait::{Base, BaseFault};
use calculus::limits::{GREATEST_NUMBER, MOST_NUMBERED, MOST_SIZE, MOST_TREE_LEVELS};
use calculus::refusals::{KINDS_DIFFER, PAST_LIMIT};
use calculus::{Kind, Name, OutOfMemory, Permit, QQual, Query, RelInfo, RelKey, Rule, kinds_fit};
use ovqp::kinds_at;
use std::alloc::Global;
use view_sizes::{qual_depth, qual_size};

/// The attributes that a permit lists at most.
const MOST_LISTED: usize = 65_535;

/// The levels of a tree that is stored at most.
const MOST_LEVELS: u64 = MOST_TREE_LEVELS as u64;

/// The greatest number of these permits; 0 where there is none.
fn greatest_permit(permits: &[Permit]) -> u32
    ensures { result ≡ greatest (map (λ p. p.number) permits.now) }
{
    let Some((permit, others)) = permits.split_first() else {
        return 0;
    };
    permit.number.max(greatest_permit(others))
}

/// The greatest number of these rules; 0 where there is none.
fn greatest_rule(rules: &[Rule]) -> u32
    ensures { result ≡ greatest (map (λ r. r.number) rules.now) }
{
    let Some((rule, others)) = rules.split_first() else {
        return 0;
    };
    rule.number.max(greatest_rule(others))
}

/// Whether there may be no more permits than these.
fn permits_fill(permits: &[Permit]) -> bool
    ensures { result ≡ is_past_limit 100 (map (λ p. p.number) permits.now) }
{
    permits.len() >= MOST_NUMBERED || greatest_permit(permits) >= GREATEST_NUMBER
}

/// Whether there may be no more rules than these.
fn rules_fill(rules: &[Rule]) -> bool
    ensures { result ≡ is_past_limit 100 (map (λ r. r.number) rules.now) }
{
    rules.len() >= MOST_NUMBERED || greatest_rule(rules) >= GREATEST_NUMBER
}

/// Whether a relation may have no more permits.
fn has_all_permits<B: Base>(alloc: Global, base: &mut B, rel: &RelKey) -> Result<bool, BaseFault>
    ensures known { (db : Db) → B.schema base.old ≡ Some db → IfOk result (λ full. full ≡ is_past_limit 100 (permit_numbers db rel.now)) }
    ensures kept { B.database base.new ≡ B.database base.old }
    ensures stays { (s : Db) → B.schema base.old ≡ Some s → B.schema base.new ≡ Some s }
    ensures asked { (b : B) → B.asked b base.old → B.asked b base.new }
    ensures cause { HasCause (B.database base.old) (B.faults base.old) (B.faults base.new) result }
{
    let permits = base.permits(alloc, rel)?;
    Ok(permits_fill(&permits))
}

/// Whether a relation may have no more rules.
fn has_all_rules<B: Base>(alloc: Global, base: &mut B, rel: &RelKey) -> Result<bool, BaseFault>
    ensures known { (db : Db) → B.schema base.old ≡ Some db → IfOk result (λ full. full ≡ is_past_limit 100 (rule_numbers db rel.now)) }
    ensures kept { B.database base.new ≡ B.database base.old }
    ensures stays { (s : Db) → B.schema base.old ≡ Some s → B.schema base.new ≡ Some s }
    ensures asked { (b : B) → B.asked b base.old → B.asked b base.new }
    ensures cause { HasCause (B.database base.old) (B.faults base.old) (B.faults base.new) result }
{
    let rules = base.rules(alloc, rel)?;
    Ok(rules_fill(&rules))
}

/// Whether a qualification in which no aggregate stands is no larger and no deeper than one that is
/// stored may be.
#[tactic(auto, using(view_sizes::proofs::Stopped::stopped_le))]
pub fn qual_is_small(qual: &QQual) -> bool
    ensures { result ≡ (nat_le (qual_size [] qual.now) 1000 && nat_le (qual_depth qual.now) 3000) }
{
    qual_size(&[], qual) <= MOST_SIZE && qual_depth(qual) <= MOST_LEVELS
}

/// Whether the kinds in a qualification over a row with attributes of these kinds fit.
fn fits_row(alloc: Global, kinds: Vec<Kind>, qual: &QQual) -> Result<bool, OutOfMemory>
    ensures { IfOk result (λ fit. fit ≡ kinds_fit qual.now (kinds.items ∷ [])) }
{
    let mut vars = Vec::new(alloc);
    vars.push(kinds)?;
    Ok(kinds_fit(qual, &vars))
}

/// Whether the kinds in a qualification over a row of the relation fit.
pub fn valid_row_qual<B: Base>(
    alloc: Global,
    base: &mut B,
    rel: &RelKey,
    qual: &QQual,
) -> Result<bool, BaseFault>
    ensures known { (db : Db) → B.schema base.old ≡ Some db → IfOk result (λ stands. stands ≡ valid_row_qual db rel.now qual.now) }
    ensures kept { B.database base.new ≡ B.database base.old }
    ensures stays { (s : Db) → B.schema base.old ≡ Some s → B.schema base.new ≡ Some s }
    ensures asked { (b : B) → B.asked b base.old → B.asked b base.new }
    ensures cause { HasCause (B.database base.old) (B.faults base.old) (B.faults base.new) result }
{
    let kinds = kinds_at(alloc, base, rel)?;
    Ok(fits_row(alloc, kinds, qual)?)
}

/// Whether a query without aggregates lists a second variable, or its qualification is too large.
fn is_past_row(q: &Query) -> bool
    ensures { query_aggregates q.now ≡ [] → result ≡ (nat_lt 1 (length (vars_of q.now)) || not (row_qual_is_small (qual_of q.now))) }
{
    q.vars.items().len() > 1 || !qual_is_small(&q.qual)
}

/// Whether there is no room for a permit that lists these attributes, where it is known whether there is
/// none among those that stand.
fn lists_too_many(full: bool, attrs: &[Name]) -> bool
    ensures { result ≡ (full || nat_lt 65535 (length attrs.now)) }
{
    full || attrs.len() > MOST_LISTED
}

/// What refuses a permit or a rule with this query on a relation, where it is known whether there is
/// room among those that stand there.
fn row_refusal<B: Base>(
    alloc: Global,
    base: &mut B,
    rel: &RelKey,
    no_room: bool,
    q: &Query,
) -> Result<Option<u8>, BaseFault>
    ensures known { (db : Db) → B.schema base.old ≡ Some db → query_aggregates q.now ≡ [] → IfOk result (λ n. n ≡ first_refusal ((14, nat_lt 1 (length (vars_of q.now)) || (no_room || not (row_qual_is_small (qual_of q.now)))) ∷ (13, not (valid_row_qual db rel.now (qual_of q.now))) ∷ [])) }
    ensures kept { B.database base.new ≡ B.database base.old }
    ensures stays { (s : Db) → B.schema base.old ≡ Some s → B.schema base.new ≡ Some s }
    ensures asked { (b : B) → B.asked b base.old → B.asked b base.new }
    ensures cause { HasCause (B.database base.old) (B.faults base.old) (B.faults base.new) result }
{
    if no_room || is_past_row(q) {
        return Ok(Some(PAST_LIMIT));
    }
    if !valid_row_qual(alloc, base, rel, &q.qual)? {
        return Ok(Some(KINDS_DIFFER));
    }
    Ok(None)
}

/// What refuses a permit with this query, where this is known of what its variable ranges over.
pub(crate) fn permit_refusal<B: Base>(
    alloc: Global,
    base: &mut B,
    on: Option<&RelInfo>,
    attrs: &[Name],
    q: &Query,
) -> Result<Option<u8>, BaseFault>
    ensures known { (s : Scope) (ops : ℕ) (var : List ℕ) (user : Option (List ℕ)) (qual : WrittenQual) → B.schema base.old ≡ Some s.db → IsOver s var (option_copied on.entry) → query_aggregates q.now ≡ [] → IfOk result (λ n. n ≡ first_refusal (refusals_by s true q.now (statement.Permit ops var attrs.now user qual))) }
    ensures kept { B.database base.new ≡ B.database base.old }
    ensures stays { (s : Db) → B.schema base.old ≡ Some s → B.schema base.new ≡ Some s }
    ensures asked { (b : B) → B.asked b base.old → B.asked b base.new }
    ensures cause { HasCause (B.database base.old) (B.faults base.old) (B.faults base.new) result }
{
    let Some(info) = on else {
        return Ok(None);
    };
    let full = has_all_permits(alloc, base, &info.key)?;
    row_refusal(alloc, base, &info.key, lists_too_many(full, attrs), q)
}

/// What refuses a rule with this query, where this is known of what its variable ranges over.
pub(crate) fn rule_refusal<B: Base>(
    alloc: Global,
    base: &mut B,
    on: Option<&RelInfo>,
    q: &Query,
) -> Result<Option<u8>, BaseFault>
    ensures known { (s : Scope) (var : List ℕ) (qual : WrittenQual) → B.schema base.old ≡ Some s.db → IsOver s var (option_copied on.entry) → query_aggregates q.now ≡ [] → IfOk result (λ n. n ≡ first_refusal (refusals_by s true q.now (statement.Rule var qual))) }
    ensures kept { B.database base.new ≡ B.database base.old }
    ensures stays { (s : Db) → B.schema base.old ≡ Some s → B.schema base.new ≡ Some s }
    ensures asked { (b : B) → B.asked b base.old → B.asked b base.new }
    ensures cause { HasCause (B.database base.old) (B.faults base.old) (B.faults base.new) result }
{
    let Some(info) = on else {
        return Ok(None);
    };
    let no_room = has_all_rules(alloc, base, &info.key)?;
    row_refusal(alloc, base, &info.key, no_room, q)
}
