//! The rows of pairs, moved out of them.

ghost use Rattle.std.specs.Prelude.{◌≡◌, [], ◌∷◌, ◌++◌, filter_map, map, IfOk, OnOk};
ghost use Rattle.update_change.specs.Replacements.{replacements, old_alone, new_alone};

use calculus::{OutOfMemory, Pair, Row};
use std::alloc::Global;

/// The rows of pairs.
#[derive(Drop)]
pub struct Parts {
    /// The old row and the new one of each pair that has both.
    pub both: Vec<(Row, Row)>,
    /// Old rows besides these.
    pub old_rows: Vec<Row>,
    /// New rows besides these.
    pub new_rows: Vec<Row>,
}

/// Puts the rows of a pair behind the others.
fn put_pair(parts: &mut Parts, pair: Pair) -> Result<(), OutOfMemory>
    ensures both { OnOk result (parts.new.both.items ≡ parts.old.both.items ++ replacements (pair ∷ [])) }
    ensures old { OnOk result (parts.new.old_rows.items ≡ parts.old.old_rows.items ++ filter_map old_alone (pair ∷ [])) }
    ensures new { OnOk result (parts.new.new_rows.items ≡ parts.old.new_rows.items ++ filter_map new_alone (pair ∷ [])) }
{
    let mut pair = pair;
    match (pair.old.take(), pair.new.take()) {
        (Some(old), Some(new)) => parts.both.push((old, new))?,
        (Some(old), None) => parts.old_rows.push(old)?,
        (None, Some(new)) => parts.new_rows.push(new)?,
        (None, None) => {}
    }
    Ok(())
}

/// Puts the rows of pairs where there are none yet.
fn put_pairs(parts: &mut Parts, pairs: Vec<Pair>) -> Result<(), OutOfMemory>
    requires both { parts.old.both.items ≡ [] }
    requires old { parts.old.old_rows.items ≡ [] }
    requires new { parts.old.new_rows.items ≡ [] }
    ensures both { OnOk result (parts.new.both.items ≡ replacements pairs.items) }
    ensures old { OnOk result (parts.new.old_rows.items ≡ filter_map old_alone pairs.items) }
    ensures new { OnOk result (parts.new.new_rows.items ≡ filter_map new_alone pairs.items) }
{
    for pair in pairs {
        put_pair(parts, pair)?;
    }
    Ok(())
}

/// The rows of pairs: the replacements, and the rows of the other pairs.
pub fn parts_of(alloc: Global, pairs: Vec<Pair>) -> Result<Parts, OutOfMemory>
    ensures both { IfOk result (λ parts. parts.both.items ≡ replacements pairs.items) }
    ensures old { IfOk result (λ parts. parts.old_rows.items ≡ filter_map old_alone pairs.items) }
    ensures new { IfOk result (λ parts. parts.new_rows.items ≡ filter_map new_alone pairs.items) }
{
    let mut parts = Parts {
        both: Vec::new(alloc),
        old_rows: Vec::new(alloc),
        new_rows: Vec::new(alloc),
    };
    match put_pairs(&mut parts, pairs) {
        Ok(()) => Ok(parts),
        Err(error) => Err(error),
    }
}

/// Puts the rows of replacements behind the other rows.
pub fn put_rows(
    all: Vec<(Row, Row)>,
    old: &mut Vec<Row>,
    new: &mut Vec<Row>,
) -> Result<(), OutOfMemory>
    ensures old { OnOk result (old.new.items ≡ old.old.items ++ map (λ b. b.0) all.items) }
    ensures new { OnOk result (new.new.items ≡ new.old.items ++ map (λ b. b.1) all.items) }
{
    for (first, second) in all {
        old.push(first)?;
        new.push(second)?;
    }
    Ok(())
}
