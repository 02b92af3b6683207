//! Changes of a database in memory, kind by kind. After want of memory all is as before.

ghost use Rattle.std.specs.Prelude.{◌≡◌, IfOk, OnOk, OnErr};
ghost use Rattle.calculus.specs.Change.{laid, index_info};
ghost use Rattle.calculus.specs.Rows.{set_of};
ghost use Rattle.calculus.specs.IsDatabase.{IsDatabase};

use super::DbLists;
use crate::leaving::{leave, leave_base, leave_keys, leave_numbers, leave_with_base};
use crate::one_relation::{change_rows, restructure};
use crate::ordered::put_in_order;
use crate::under_keys::{Indexed, Stored, Viewed};
use calculus::{
    DbChange, List, Name, OutOfMemory, Permit, Query, RelInfo, RelKey, Row, RowSet, Rule, Spec,
    TryCopy,
};
use memory::{both, copies};
use std::alloc::Global;

/// The relation with these rows.
fn stored_of(alloc: Global, info: &RelInfo, rows: &[Row]) -> Result<Stored, OutOfMemory>
    ensures { IfOk result (λ stored. stored ≡ record { info = info.now; rows = set_of rows.now }) }
{
    let (info, rows) = both(info.copy(alloc), copies(alloc, rows))?;
    let rows = RowSet::of_rows(rows).into_rows();
    Ok(Stored { info, rows })
}

/// What is known of an index of these key attributes.
fn index_of(
    alloc: Global,
    base: &RelKey,
    name: &Name,
    keys: &List<u8>,
) -> Result<Indexed, OutOfMemory>
    ensures { IfOk result (λ index. index ≡ record { info = index_info base.now name.now keys.now; base = base.now }) }
{
    let names = both(base.owner.copy(alloc), name.copy(alloc));
    let places = both(keys.copy(alloc), base.copy(alloc));
    let ((owner, name), (keys, base)) = both(names, places)?;
    let info = RelInfo {
        key: RelKey { owner, name },
        spec: Spec::Index,
        attrs: List::of(Vec::new(alloc)),
        keys,
    };
    Ok(Indexed { info, base })
}

/// The view with this query.
fn view_of(alloc: Global, info: &RelInfo, query: &Query) -> Result<Viewed, OutOfMemory>
    ensures { IfOk result (λ view. view ≡ record { info = info.now; query = query.now }) }
{
    match both(info.copy(alloc), query.copy(alloc)) {
        Ok((info, query)) => Ok(Viewed { info, query }),
        Err(error) => Err(error),
    }
}

/// The permit beside its relation.
fn permit_of(alloc: Global, rel: &RelKey, permit: &Permit) -> Result<(RelKey, Permit), OutOfMemory>
    ensures { IfOk result (λ p. p ≡ (rel.now, permit.now)) }
{
    both(rel.copy(alloc), permit.copy(alloc))
}

/// The rule beside its relation.
fn rule_of(alloc: Global, rel: &RelKey, rule: &Rule) -> Result<(RelKey, Rule), OutOfMemory>
    ensures { IfOk result (λ p. p ≡ (rel.now, rule.now)) }
{
    both(rel.copy(alloc), rule.copy(alloc))
}

impl DbLists {
    /// Makes a relation with these rows.
    #[tactic(auto, unfolding(calculus::specs::Change::laid))]
    pub fn create(&mut self, alloc: Global, info: &RelInfo, rows: &[Row]) -> Result<(), OutOfMemory>
        requires { IsDatabase (laid self.old (DbChange.Create info.now rows.now)) }
        ensures ok { OnOk result (self.new ≡ laid self.old (DbChange.Create info.now rows.now)) }
        ensures err { OnErr result (self.new ≡ self.old) }
    {
        let relation = stored_of(alloc, info, rows)?;
        put_in_order(&mut self.relations, relation)
    }

    /// Makes an index.
    #[tactic(auto, unfolding(calculus::specs::Change::laid))]
    pub fn create_index(
        &mut self,
        alloc: Global,
        base: &RelKey,
        name: &Name,
        keys: &List<u8>,
    ) -> Result<(), OutOfMemory>
        requires { IsDatabase (laid self.old (DbChange.Index base.now name.now keys.now)) }
        ensures ok { OnOk result (self.new ≡ laid self.old (DbChange.Index base.now name.now keys.now)) }
        ensures err { OnErr result (self.new ≡ self.old) }
    {
        let index = index_of(alloc, base, name, keys)?;
        put_in_order(&mut self.indexes, index)
    }

    /// Makes a view.
    #[tactic(auto, unfolding(calculus::specs::Change::laid))]
    pub fn create_view(
        &mut self,
        alloc: Global,
        info: &RelInfo,
        query: &Query,
    ) -> Result<(), OutOfMemory>
        requires { IsDatabase (laid self.old (DbChange.View info.now query.now)) }
        ensures ok { OnOk result (self.new ≡ laid self.old (DbChange.View info.now query.now)) }
        ensures err { OnErr result (self.new ≡ self.old) }
    {
        let view = view_of(alloc, info, query)?;
        put_in_order(&mut self.views, view)
    }

    /// Makes a permit.
    #[tactic(auto, unfolding(calculus::specs::Change::laid))]
    pub fn create_permit(
        &mut self,
        alloc: Global,
        rel: &RelKey,
        permit: &Permit,
    ) -> Result<(), OutOfMemory>
        requires { IsDatabase (laid self.old (DbChange.Permit rel.now permit.now)) }
        ensures ok { OnOk result (self.new ≡ laid self.old (DbChange.Permit rel.now permit.now)) }
        ensures err { OnErr result (self.new ≡ self.old) }
    {
        let permit = permit_of(alloc, rel, permit)?;
        put_in_order(&mut self.permits, permit)
    }

    /// Makes a rule.
    #[tactic(auto, unfolding(calculus::specs::Change::laid))]
    pub fn create_rule(
        &mut self,
        alloc: Global,
        rel: &RelKey,
        rule: &Rule,
    ) -> Result<(), OutOfMemory>
        requires { IsDatabase (laid self.old (DbChange.Rule rel.now rule.now)) }
        ensures ok { OnOk result (self.new ≡ laid self.old (DbChange.Rule rel.now rule.now)) }
        ensures err { OnErr result (self.new ≡ self.old) }
    {
        let rule = rule_of(alloc, rel, rule)?;
        put_in_order(&mut self.rules, rule)
    }
}

impl DbLists {
    /// Rows of a relation go and come.
    #[tactic(auto, unfolding(calculus::specs::Change::laid))]
    pub fn change_rows(
        &mut self,
        alloc: Global,
        rel: &RelKey,
        remove: &[Row],
        add: &[Row],
    ) -> Result<(), OutOfMemory>
        requires { IsDatabase (laid self.old (DbChange.Rows rel.now remove.now add.now)) }
        ensures ok { OnOk result (self.new ≡ laid self.old (DbChange.Rows rel.now remove.now add.now)) }
        ensures err { OnErr result (self.new ≡ self.old) }
    {
        change_rows(alloc, &mut self.relations, rel, remove, add)
    }

    /// Relations, views and indexes go, and with a relation its indexes, rules and permits.
    #[tactic(auto, unfolding(calculus::specs::Change::laid))]
    pub fn destroy(&mut self, rels: &[RelKey])
        requires { IsDatabase (laid self.old (DbChange.Destroy rels.now)) }
        ensures { self.new ≡ laid self.old (DbChange.Destroy rels.now) }
    {
        leave(&mut self.relations, rels);
        leave_with_base(&mut self.indexes, rels);
        leave(&mut self.views, rels);
        leave_keys(&mut self.rules, rels);
        leave_keys(&mut self.permits, rels);
    }

    /// A relation is stored in another structure; its indexes go.
    #[tactic(auto, unfolding(calculus::specs::Change::laid))]
    pub fn modify(
        &mut self,
        alloc: Global,
        rel: &RelKey,
        to: Spec,
        keys: &List<u8>,
    ) -> Result<(), OutOfMemory>
        requires { IsDatabase (laid self.old (DbChange.Modify rel.now to keys.now)) }
        ensures ok { OnOk result (self.new ≡ laid self.old (DbChange.Modify rel.now to keys.now)) }
        ensures err { OnErr result (self.new ≡ self.old) }
    {
        let keys = keys.copy(alloc)?;
        restructure(&mut self.relations, rel, to, keys);
        leave_base(&mut self.indexes, rel);
        Ok(())
    }

    /// Permits of a relation go.
    #[tactic(auto, unfolding(calculus::specs::Change::laid))]
    pub fn drop_permits(&mut self, rel: &RelKey, numbers: &[u32])
        requires { IsDatabase (laid self.old (DbChange.DropPermits rel.now numbers.now)) }
        ensures { self.new ≡ laid self.old (DbChange.DropPermits rel.now numbers.now) }
    {
        leave_numbers(&mut self.permits, rel, numbers);
    }

    /// Rules of a relation go.
    #[tactic(auto, unfolding(calculus::specs::Change::laid))]
    pub fn drop_rules(&mut self, rel: &RelKey, numbers: &[u32])
        requires { IsDatabase (laid self.old (DbChange.DropRules rel.now numbers.now)) }
        ensures { self.new ≡ laid self.old (DbChange.DropRules rel.now numbers.now) }
    {
        leave_numbers(&mut self.rules, rel, numbers);
    }
}
