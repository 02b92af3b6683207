//! The target list of a statement.

ghost use Rattle.std.specs.Prelude.{◌≡◌};
ghost use Rattle.quel_meaning.specs.WrittenParts.{items_of};

use calculus::{Item, Statement};

/// The target list of a statement; none where it has none.
pub(crate) fn items_of(s: &Statement) -> &[Item]
    ensures { result.now ≡ items_of s.now }
{
    match s {
        Statement::Retrieve { items, .. } => items.items(),
        Statement::Append { items, .. } => items.items(),
        Statement::Replace { items, .. } => items.items(),
        Statement::View { items, .. } => items.items(),
        _ => &[],
    }
}
