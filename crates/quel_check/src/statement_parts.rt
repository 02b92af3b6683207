//! The parts of a statement: its target list and its qualification.

ghost use Rattle.std.specs.Prelude.{◌≡◌, option_map, unwrap_or};
ghost use Rattle.calculus.specs.declared.statement.Qual.TheVariants.{True};
ghost use Rattle.quel_meaning.specs.WrittenParts.{items_of, where_of};

use calculus::{Item, Qual, Statement};

/// The target list of a statement; none where it has none.
pub fn items_of(s: &Statement) -> &[Item]
    ensures { result.now ≡ items_of s.now }
{
    match s {
        Statement::Retrieve { items, .. } => items.items(),
        Statement::Append { items, .. } => items.items(),
        Statement::Replace { items, .. } => items.items(),
        Statement::View { items, .. } => items.items(),
        _ => &[],
    }
}

/// The qualification of a statement; `None` where it can have none, which says the same as `True`.
pub fn where_of(s: &Statement) -> Option<&Qual>
    ensures { unwrap_or (option_map (λ qual. qual.now) result) True ≡ where_of s.now }
{
    match s {
        Statement::Retrieve { qual, .. } => Some(qual),
        Statement::Append { qual, .. } => Some(qual),
        Statement::Replace { qual, .. } => Some(qual),
        Statement::Delete { qual, .. } => Some(qual),
        Statement::View { qual, .. } => Some(qual),
        Statement::Permit { qual, .. } => Some(qual),
        Statement::Rule { qual, .. } => Some(qual),
        _ => None,
    }
}
