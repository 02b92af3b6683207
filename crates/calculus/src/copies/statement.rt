//! Copies of statements, kind by kind.

ghost use Rattle.std.specs.Prelude.{◌≡◌, IfOk};

use super::parts::copy_both;
use crate::{Chars, CopyForm, Domain, Item, Name, OutOfMemory, Qual, Spec, Statement};
use memory::{List, TryCopy, both};
use std::alloc::Global;

fn copy_range(alloc: Global, var: &Name, rel: &Name) -> Result<Statement, OutOfMemory>
    ensures { IfOk result (λ copy. copy ≡ Statement.Range var.now rel.now) }
{
    match copy_both(alloc, var, rel) {
        Ok((var, rel)) => Ok(Statement::Range { var, rel }),
        Err(error) => Err(error),
    }
}

fn copy_retrieve(
    alloc: Global,
    into: &Option<Name>,
    items: &List<Item>,
    qual: &Qual,
    sort: &List<(Name, bool)>,
) -> Result<Statement, OutOfMemory>
    ensures { IfOk result (λ copy. copy ≡ Statement.Retrieve into.now items.now qual.now sort.now) }
{
    let edges = copy_both(alloc, into, sort);
    let query = copy_both(alloc, items, qual);
    match both(edges, query) {
        Ok(((into, sort), (items, qual))) => Ok(Statement::Retrieve {
            into,
            items,
            qual,
            sort,
        }),
        Err(error) => Err(error),
    }
}

fn copy_append(
    alloc: Global,
    rel: &Name,
    items: &List<Item>,
    qual: &Qual,
) -> Result<Statement, OutOfMemory>
    ensures { IfOk result (λ copy. copy ≡ Statement.Append rel.now items.now qual.now) }
{
    let query = copy_both(alloc, items, qual);
    match both(rel.copy(alloc), query) {
        Ok((rel, (items, qual))) => Ok(Statement::Append { rel, items, qual }),
        Err(error) => Err(error),
    }
}

fn copy_replace(
    alloc: Global,
    var: &Name,
    items: &List<Item>,
    qual: &Qual,
) -> Result<Statement, OutOfMemory>
    ensures { IfOk result (λ copy. copy ≡ Statement.Replace var.now items.now qual.now) }
{
    let query = copy_both(alloc, items, qual);
    match both(var.copy(alloc), query) {
        Ok((var, (items, qual))) => Ok(Statement::Replace { var, items, qual }),
        Err(error) => Err(error),
    }
}

fn copy_delete(alloc: Global, var: &Name, qual: &Qual) -> Result<Statement, OutOfMemory>
    ensures { IfOk result (λ copy. copy ≡ Statement.Delete var.now qual.now) }
{
    match copy_both(alloc, var, qual) {
        Ok((var, qual)) => Ok(Statement::Delete { var, qual }),
        Err(error) => Err(error),
    }
}

fn copy_create(
    alloc: Global,
    rel: &Name,
    attrs: &List<(Name, Domain)>,
) -> Result<Statement, OutOfMemory>
    ensures { IfOk result (λ copy. copy ≡ Statement.Create rel.now attrs.now) }
{
    match copy_both(alloc, rel, attrs) {
        Ok((rel, attrs)) => Ok(Statement::Create { rel, attrs }),
        Err(error) => Err(error),
    }
}

fn copy_destroy(alloc: Global, rels: &List<Name>) -> Result<Statement, OutOfMemory>
    ensures { IfOk result (λ copy. copy ≡ Statement.Destroy rels.now) }
{
    match rels.copy(alloc) {
        Ok(rels) => Ok(Statement::Destroy { rels }),
        Err(error) => Err(error),
    }
}

fn copy_drop_permits(
    alloc: Global,
    rel: &Name,
    numbers: &List<u32>,
) -> Result<Statement, OutOfMemory>
    ensures { IfOk result (λ copy. copy ≡ Statement.DropPermits rel.now numbers.now) }
{
    match copy_both(alloc, rel, numbers) {
        Ok((rel, numbers)) => Ok(Statement::DropPermits { rel, numbers }),
        Err(error) => Err(error),
    }
}

fn copy_drop_rules(alloc: Global, rel: &Name, numbers: &List<u32>) -> Result<Statement, OutOfMemory>
    ensures { IfOk result (λ copy. copy ≡ Statement.DropRules rel.now numbers.now) }
{
    match copy_both(alloc, rel, numbers) {
        Ok((rel, numbers)) => Ok(Statement::DropRules { rel, numbers }),
        Err(error) => Err(error),
    }
}

fn copy_modify(
    alloc: Global,
    rel: &Name,
    to: Spec,
    keys: &List<Name>,
) -> Result<Statement, OutOfMemory>
    ensures { IfOk result (λ copy. copy ≡ Statement.Modify rel.now to keys.now) }
{
    match copy_both(alloc, rel, keys) {
        Ok((rel, keys)) => Ok(Statement::Modify { rel, to, keys }),
        Err(error) => Err(error),
    }
}

fn copy_index(
    alloc: Global,
    base: &Name,
    name: &Name,
    keys: &List<Name>,
) -> Result<Statement, OutOfMemory>
    ensures { IfOk result (λ copy. copy ≡ Statement.Index base.now name.now keys.now) }
{
    let names = copy_both(alloc, base, name);
    match both(names, keys.copy(alloc)) {
        Ok(((base, name), keys)) => Ok(Statement::Index { base, name, keys }),
        Err(error) => Err(error),
    }
}

fn copy_print(alloc: Global, rels: &List<Name>) -> Result<Statement, OutOfMemory>
    ensures { IfOk result (λ copy. copy ≡ Statement.Print rels.now) }
{
    match rels.copy(alloc) {
        Ok(rels) => Ok(Statement::Print { rels }),
        Err(error) => Err(error),
    }
}

fn copy_help(alloc: Global, rel: &Option<Name>) -> Result<Statement, OutOfMemory>
    ensures { IfOk result (λ copy. copy ≡ Statement.Help rel.now) }
{
    match rel.copy(alloc) {
        Ok(rel) => Ok(Statement::Help { rel }),
        Err(error) => Err(error),
    }
}

fn copy_file(
    alloc: Global,
    rel: &Name,
    columns: &List<(Name, CopyForm)>,
    from: bool,
    file: &Chars,
) -> Result<Statement, OutOfMemory>
    ensures { IfOk result (λ copy. copy ≡ Statement.Copy rel.now columns.now from file.now) }
{
    let form = copy_both(alloc, columns, file);
    match both(rel.copy(alloc), form) {
        Ok((rel, (columns, file))) => Ok(Statement::Copy {
            rel,
            columns,
            from,
            file,
        }),
        Err(error) => Err(error),
    }
}

fn copy_view(
    alloc: Global,
    name: &Name,
    items: &List<Item>,
    qual: &Qual,
) -> Result<Statement, OutOfMemory>
    ensures { IfOk result (λ copy. copy ≡ Statement.View name.now items.now qual.now) }
{
    let query = copy_both(alloc, items, qual);
    match both(name.copy(alloc), query) {
        Ok((name, (items, qual))) => Ok(Statement::View { name, items, qual }),
        Err(error) => Err(error),
    }
}

fn copy_permit(
    alloc: Global,
    ops: u8,
    var: &Name,
    attrs: &List<Name>,
    user: &Option<Name>,
    qual: &Qual,
) -> Result<Statement, OutOfMemory>
    ensures { IfOk result (λ copy. copy ≡ Statement.Permit ops var.now attrs.now user.now qual.now) }
{
    let covered = copy_both(alloc, var, attrs);
    let allowed = copy_both(alloc, user, qual);
    match both(covered, allowed) {
        Ok(((var, attrs), (user, qual))) => Ok(Statement::Permit {
            ops,
            var,
            attrs,
            user,
            qual,
        }),
        Err(error) => Err(error),
    }
}

fn copy_rule(alloc: Global, var: &Name, qual: &Qual) -> Result<Statement, OutOfMemory>
    ensures { IfOk result (λ copy. copy ≡ Statement.Rule var.now qual.now) }
{
    match copy_both(alloc, var, qual) {
        Ok((var, qual)) => Ok(Statement::Rule { var, qual }),
        Err(error) => Err(error),
    }
}

impl TryCopy for Statement {
    fn copy(&self, alloc: Global) -> Result<Statement, OutOfMemory> {
        match self {
            Statement::Range { var, rel } => copy_range(alloc, var, rel),
            Statement::Retrieve {
                into,
                items,
                qual,
                sort,
            } => copy_retrieve(alloc, into, items, qual, sort),
            Statement::Append { rel, items, qual } => copy_append(alloc, rel, items, qual),
            Statement::Replace { var, items, qual } => copy_replace(alloc, var, items, qual),
            Statement::Delete { var, qual } => copy_delete(alloc, var, qual),
            Statement::Create { rel, attrs } => copy_create(alloc, rel, attrs),
            Statement::Destroy { rels } => copy_destroy(alloc, rels),
            Statement::DropPermits { rel, numbers } => copy_drop_permits(alloc, rel, numbers),
            Statement::DropRules { rel, numbers } => copy_drop_rules(alloc, rel, numbers),
            Statement::Modify { rel, to, keys } => copy_modify(alloc, rel, *to, keys),
            Statement::Index { base, name, keys } => copy_index(alloc, base, name, keys),
            Statement::Print { rels } => copy_print(alloc, rels),
            Statement::Help { rel } => copy_help(alloc, rel),
            Statement::Copy {
                rel,
                columns,
                from,
                file,
            } => copy_file(alloc, rel, columns, *from, file),
            Statement::View { name, items, qual } => copy_view(alloc, name, items, qual),
            Statement::Permit {
                ops,
                var,
                attrs,
                user,
                qual,
            } => copy_permit(alloc, *ops, var, attrs, user, qual),
            Statement::Rule { var, qual } => copy_rule(alloc, var, qual),
        }
    }
}

impl TryCopy for Item {
    fn copy(&self, alloc: Global) -> Result<Item, OutOfMemory> {
        match self {
            Item::Set { name, term } => match copy_both(alloc, name, term) {
                Ok((name, term)) => Ok(Item::Set { name, term }),
                Err(error) => Err(error),
            },
            Item::Attr { var, attr } => match copy_both(alloc, var, attr) {
                Ok((var, attr)) => Ok(Item::Attr { var, attr }),
                Err(error) => Err(error),
            },
            Item::All { var } => match var.copy(alloc) {
                Ok(var) => Ok(Item::All { var }),
                Err(error) => Err(error),
            },
        }
    }
}
