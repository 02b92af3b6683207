//! Copies of what the query processor and the utilities are asked for.

ghost use Rattle.std.specs.Prelude.{◌≡◌, IfOk};

use super::parts::copy_both;
use crate::{
    Asked, Attr, Chars, Checked, CopyCol, Name, OutOfMemory, Permit, Query, RelKey, Rule, Spec,
    Update, Utility,
};
use memory::{List, TryCopy, both};
use std::alloc::Global;

fn copy_create(alloc: Global, rel: &RelKey, attrs: &List<Attr>) -> Result<Utility, OutOfMemory>
    ensures { IfOk result (λ copy. copy ≡ Utility.Create rel.now attrs.now) }
{
    match copy_both(alloc, rel, attrs) {
        Ok((rel, attrs)) => Ok(Utility::Create { rel, attrs }),
        Err(error) => Err(error),
    }
}

fn copy_destroy(alloc: Global, rels: &List<RelKey>) -> Result<Utility, OutOfMemory>
    ensures { IfOk result (λ copy. copy ≡ Utility.Destroy rels.now) }
{
    match rels.copy(alloc) {
        Ok(rels) => Ok(Utility::Destroy { rels }),
        Err(error) => Err(error),
    }
}

fn copy_modify(
    alloc: Global,
    rel: &RelKey,
    to: Spec,
    keys: &List<u8>,
) -> Result<Utility, OutOfMemory>
    ensures { IfOk result (λ copy. copy ≡ Utility.Modify rel.now to keys.now) }
{
    match copy_both(alloc, rel, keys) {
        Ok((rel, keys)) => Ok(Utility::Modify { rel, to, keys }),
        Err(error) => Err(error),
    }
}

fn copy_index(
    alloc: Global,
    base: &RelKey,
    name: &Name,
    keys: &List<u8>,
) -> Result<Utility, OutOfMemory>
    ensures { IfOk result (λ copy. copy ≡ Utility.Index base.now name.now keys.now) }
{
    let names = copy_both(alloc, base, name);
    match both(names, keys.copy(alloc)) {
        Ok(((base, name), keys)) => Ok(Utility::Index { base, name, keys }),
        Err(error) => Err(error),
    }
}

fn copy_file(
    alloc: Global,
    rel: &RelKey,
    columns: &List<CopyCol>,
    from: bool,
    file: &Chars,
) -> Result<Utility, OutOfMemory>
    ensures { IfOk result (λ copy. copy ≡ Utility.Copy rel.now columns.now from file.now) }
{
    let form = copy_both(alloc, columns, file);
    match both(rel.copy(alloc), form) {
        Ok((rel, (columns, file))) => Ok(Utility::Copy {
            rel,
            columns,
            from,
            file,
        }),
        Err(error) => Err(error),
    }
}

fn copy_view(alloc: Global, rel: &RelKey, query: &Query) -> Result<Utility, OutOfMemory>
    ensures { IfOk result (λ copy. copy ≡ Utility.View rel.now query.now) }
{
    match copy_both(alloc, rel, query) {
        Ok((rel, query)) => Ok(Utility::View { rel, query }),
        Err(error) => Err(error),
    }
}

fn copy_permit(alloc: Global, rel: &RelKey, permit: &Permit) -> Result<Utility, OutOfMemory>
    ensures { IfOk result (λ copy. copy ≡ Utility.Permit rel.now permit.now) }
{
    match copy_both(alloc, rel, permit) {
        Ok((rel, permit)) => Ok(Utility::Permit { rel, permit }),
        Err(error) => Err(error),
    }
}

fn copy_rule(alloc: Global, rel: &RelKey, rule: &Rule) -> Result<Utility, OutOfMemory>
    ensures { IfOk result (λ copy. copy ≡ Utility.Rule rel.now rule.now) }
{
    match copy_both(alloc, rel, rule) {
        Ok((rel, rule)) => Ok(Utility::Rule { rel, rule }),
        Err(error) => Err(error),
    }
}

fn copy_drop_permits(
    alloc: Global,
    rel: &RelKey,
    numbers: &List<u32>,
) -> Result<Utility, OutOfMemory>
    ensures { IfOk result (λ copy. copy ≡ Utility.DropPermits rel.now numbers.now) }
{
    match copy_both(alloc, rel, numbers) {
        Ok((rel, numbers)) => Ok(Utility::DropPermits { rel, numbers }),
        Err(error) => Err(error),
    }
}

fn copy_drop_rules(alloc: Global, rel: &RelKey, numbers: &List<u32>) -> Result<Utility, OutOfMemory>
    ensures { IfOk result (λ copy. copy ≡ Utility.DropRules rel.now numbers.now) }
{
    match copy_both(alloc, rel, numbers) {
        Ok((rel, numbers)) => Ok(Utility::DropRules { rel, numbers }),
        Err(error) => Err(error),
    }
}

impl TryCopy for Utility {
    fn copy(&self, alloc: Global) -> Result<Utility, OutOfMemory> {
        match self {
            Utility::Create { rel, attrs } => copy_create(alloc, rel, attrs),
            Utility::Destroy { rels } => copy_destroy(alloc, rels),
            Utility::Modify { rel, to, keys } => copy_modify(alloc, rel, *to, keys),
            Utility::Index { base, name, keys } => copy_index(alloc, base, name, keys),
            Utility::Copy {
                rel,
                columns,
                from,
                file,
            } => copy_file(alloc, rel, columns, *from, file),
            Utility::View { rel, query } => copy_view(alloc, rel, query),
            Utility::Permit { rel, permit } => copy_permit(alloc, rel, permit),
            Utility::Rule { rel, rule } => copy_rule(alloc, rel, rule),
            Utility::DropPermits { rel, numbers } => copy_drop_permits(alloc, rel, numbers),
            Utility::DropRules { rel, numbers } => copy_drop_rules(alloc, rel, numbers),
        }
    }
}

impl TryCopy for Asked {
    fn copy(&self, alloc: Global) -> Result<Asked, OutOfMemory> {
        match copy_both(alloc, &self.query, &self.sort) {
            Ok((query, sort)) => Ok(Asked { query, sort }),
            Err(error) => Err(error),
        }
    }
}

impl TryCopy for Update {
    fn copy(&self, alloc: Global) -> Result<Update, OutOfMemory> {
        let place = copy_both(alloc, &self.rel, &self.places);
        let tests = copy_both(alloc, &self.checks, &self.new_cut);
        let rest = both(self.query.copy(alloc), tests);
        match both(place, rest) {
            Ok(((rel, places), (query, (checks, new_cut)))) => Ok(Update {
                op: self.op,
                rel,
                old: self.old,
                places,
                query,
                checks,
                new_cut,
            }),
            Err(error) => Err(error),
        }
    }
}

impl TryCopy for Checked {
    fn copy(&self, alloc: Global) -> Result<Checked, OutOfMemory> {
        match self {
            Checked::Answer(asked) => match asked.copy(alloc) {
                Ok(asked) => Ok(Checked::Answer(asked)),
                Err(error) => Err(error),
            },
            Checked::Update(update) => match update.copy(alloc) {
                Ok(update) => Ok(Checked::Update(update)),
                Err(error) => Err(error),
            },
            Checked::Utility(utility) => match utility.copy(alloc) {
                Ok(utility) => Ok(Checked::Utility(utility)),
                Err(error) => Err(error),
            },
        }
    }
}
