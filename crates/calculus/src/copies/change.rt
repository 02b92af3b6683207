//! Copies of changes, kind by kind.

ghost use Rattle.std.specs.Prelude.{◌≡◌, IfOk};

use super::parts::copy_both;
use crate::{
    Change, DbChange, Name, OutOfMemory, Pair, Permit, Query, RelInfo, RelKey, Row, Rule, Spec,
};
use memory::{List, TryCopy, both};
use std::alloc::Global;

fn copy_rows(
    alloc: Global,
    rel: &RelKey,
    remove: &List<Row>,
    add: &List<Row>,
) -> Result<DbChange, OutOfMemory>
    ensures { IfOk result (λ copy. copy ≡ DbChange.Rows rel.now remove.now add.now) }
{
    let rows = copy_both(alloc, remove, add);
    match both(rel.copy(alloc), rows) {
        Ok((rel, (remove, add))) => Ok(DbChange::Rows { rel, remove, add }),
        Err(error) => Err(error),
    }
}

fn copy_create(alloc: Global, info: &RelInfo, rows: &List<Row>) -> Result<DbChange, OutOfMemory>
    ensures { IfOk result (λ copy. copy ≡ DbChange.Create info.now rows.now) }
{
    match copy_both(alloc, info, rows) {
        Ok((info, rows)) => Ok(DbChange::Create { info, rows }),
        Err(error) => Err(error),
    }
}

fn copy_destroy(alloc: Global, rels: &List<RelKey>) -> Result<DbChange, OutOfMemory>
    ensures { IfOk result (λ copy. copy ≡ DbChange.Destroy rels.now) }
{
    match rels.copy(alloc) {
        Ok(rels) => Ok(DbChange::Destroy { rels }),
        Err(error) => Err(error),
    }
}

fn copy_modify(
    alloc: Global,
    rel: &RelKey,
    to: Spec,
    keys: &List<u8>,
) -> Result<DbChange, OutOfMemory>
    ensures { IfOk result (λ copy. copy ≡ DbChange.Modify rel.now to keys.now) }
{
    match copy_both(alloc, rel, keys) {
        Ok((rel, keys)) => Ok(DbChange::Modify { rel, to, keys }),
        Err(error) => Err(error),
    }
}

fn copy_index(
    alloc: Global,
    base: &RelKey,
    name: &Name,
    keys: &List<u8>,
) -> Result<DbChange, OutOfMemory>
    ensures { IfOk result (λ copy. copy ≡ DbChange.Index base.now name.now keys.now) }
{
    let names = copy_both(alloc, base, name);
    match both(names, keys.copy(alloc)) {
        Ok(((base, name), keys)) => Ok(DbChange::Index { base, name, keys }),
        Err(error) => Err(error),
    }
}

fn copy_view(alloc: Global, info: &RelInfo, query: &Query) -> Result<DbChange, OutOfMemory>
    ensures { IfOk result (λ copy. copy ≡ DbChange.View info.now query.now) }
{
    match copy_both(alloc, info, query) {
        Ok((info, query)) => Ok(DbChange::View { info, query }),
        Err(error) => Err(error),
    }
}

fn copy_permit(alloc: Global, rel: &RelKey, permit: &Permit) -> Result<DbChange, OutOfMemory>
    ensures { IfOk result (λ copy. copy ≡ DbChange.Permit rel.now permit.now) }
{
    match copy_both(alloc, rel, permit) {
        Ok((rel, permit)) => Ok(DbChange::Permit { rel, permit }),
        Err(error) => Err(error),
    }
}

fn copy_rule(alloc: Global, rel: &RelKey, rule: &Rule) -> Result<DbChange, OutOfMemory>
    ensures { IfOk result (λ copy. copy ≡ DbChange.Rule rel.now rule.now) }
{
    match copy_both(alloc, rel, rule) {
        Ok((rel, rule)) => Ok(DbChange::Rule { rel, rule }),
        Err(error) => Err(error),
    }
}

fn copy_drop_permits(
    alloc: Global,
    rel: &RelKey,
    numbers: &List<u32>,
) -> Result<DbChange, OutOfMemory>
    ensures { IfOk result (λ copy. copy ≡ DbChange.DropPermits rel.now numbers.now) }
{
    match copy_both(alloc, rel, numbers) {
        Ok((rel, numbers)) => Ok(DbChange::DropPermits { rel, numbers }),
        Err(error) => Err(error),
    }
}

fn copy_drop_rules(
    alloc: Global,
    rel: &RelKey,
    numbers: &List<u32>,
) -> Result<DbChange, OutOfMemory>
    ensures { IfOk result (λ copy. copy ≡ DbChange.DropRules rel.now numbers.now) }
{
    match copy_both(alloc, rel, numbers) {
        Ok((rel, numbers)) => Ok(DbChange::DropRules { rel, numbers }),
        Err(error) => Err(error),
    }
}

impl TryCopy for DbChange {
    fn copy(&self, alloc: Global) -> Result<DbChange, OutOfMemory> {
        match self {
            DbChange::Rows { rel, remove, add } => copy_rows(alloc, rel, remove, add),
            DbChange::Create { info, rows } => copy_create(alloc, info, rows),
            DbChange::Destroy { rels } => copy_destroy(alloc, rels),
            DbChange::Modify { rel, to, keys } => copy_modify(alloc, rel, *to, keys),
            DbChange::Index { base, name, keys } => copy_index(alloc, base, name, keys),
            DbChange::View { info, query } => copy_view(alloc, info, query),
            DbChange::Permit { rel, permit } => copy_permit(alloc, rel, permit),
            DbChange::Rule { rel, rule } => copy_rule(alloc, rel, rule),
            DbChange::DropPermits { rel, numbers } => copy_drop_permits(alloc, rel, numbers),
            DbChange::DropRules { rel, numbers } => copy_drop_rules(alloc, rel, numbers),
        }
    }
}

impl TryCopy for Pair {
    fn copy(&self, alloc: Global) -> Result<Pair, OutOfMemory> {
        match copy_both(alloc, &self.old, &self.new) {
            Ok((old, new)) => Ok(Pair { old, new }),
            Err(error) => Err(error),
        }
    }
}

impl TryCopy for Change {
    fn copy(&self, alloc: Global) -> Result<Change, OutOfMemory> {
        match copy_both(alloc, &self.remove, &self.add) {
            Ok((remove, add)) => Ok(Change { remove, add }),
            Err(error) => Err(error),
        }
    }
}
