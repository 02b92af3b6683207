//! What changes of a database give: what stands under a name or a key.

use calculus::{DbChange, Name, OutOfMemory, Permit, Query, RelInfo, RelKey, Row, Rule, TryCopy};
use std::alloc::Global;

fn info_in(change: &DbChange) -> Option<&RelInfo> {
    match change {
        DbChange::Create { info, rows: _ } => Some(info),
        DbChange::View { info, query: _ } => Some(info),
        _ => None,
    }
}

/// The first relation or view of this name, whoever has it.
pub(crate) fn named<'a>(changes: &'a [DbChange], name: &Name) -> Option<&'a RelInfo> {
    for change in changes {
        if let Some(info) = info_in(change) {
            if info.key.name == *name {
                return Some(info);
            }
        }
    }
    None
}

/// The first relation or view with this key.
pub(crate) fn known<'a>(changes: &'a [DbChange], key: &RelKey) -> Option<&'a RelInfo> {
    for change in changes {
        if let Some(info) = info_in(change) {
            if info.key == *key {
                return Some(info);
            }
        }
    }
    None
}

/// The query of the first view with this key.
pub(crate) fn view<'a>(changes: &'a [DbChange], key: &RelKey) -> Option<&'a Query> {
    for change in changes {
        if let DbChange::View { info, query } = change {
            if info.key == *key {
                return Some(query);
            }
        }
    }
    None
}

/// A relation's key and the rows that it has or that come to it.
fn rows_in(change: &DbChange) -> Option<(&RelKey, &[Row])> {
    match change {
        DbChange::Create { info, rows } => Some((&info.key, rows.items())),
        DbChange::Rows {
            rel,
            remove: _,
            add,
        } => Some((rel, add.items())),
        _ => None,
    }
}

/// The rows that the first change of them gives to what has this key.
pub(crate) fn rows<'a>(changes: &'a [DbChange], key: &RelKey) -> Option<&'a [Row]> {
    for change in changes {
        if let Some((rel, rows)) = rows_in(change) {
            if *rel == *key {
                return Some(rows);
            }
        }
    }
    None
}

/// Puts a copy of each rule on what has this key behind the others.
pub(crate) fn put_rules(
    alloc: Global,
    changes: &[DbChange],
    key: &RelKey,
    rules: &mut Vec<Rule>,
) -> Result<(), OutOfMemory> {
    for change in changes {
        if let DbChange::Rule { rel, rule } = change {
            if *rel == *key {
                rules.push(rule.copy(alloc)?)?;
            }
        }
    }
    Ok(())
}

/// Puts a copy of each permit on what has this key behind the others.
pub(crate) fn put_permits(
    alloc: Global,
    changes: &[DbChange],
    key: &RelKey,
    permits: &mut Vec<Permit>,
) -> Result<(), OutOfMemory> {
    for change in changes {
        if let DbChange::Permit { rel, permit } = change {
            if *rel == *key {
                permits.push(permit.copy(alloc)?)?;
            }
        }
    }
    Ok(())
}

/// A copy of what is there.
pub(crate) fn copied<T: TryCopy + Drop>(
    alloc: Global,
    found: Option<&T>,
) -> Result<Option<T>, OutOfMemory> {
    match found {
        Some(found) => match found.copy(alloc) {
            Ok(copy) => Ok(Some(copy)),
            Err(error) => Err(error),
        },
        None => Ok(None),
    }
}
