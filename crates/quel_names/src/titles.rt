//! What the titles of a statement's target list are.

ghost use Rattle.std.specs.Prelude.{◌≡◌, ℕ, List};
ghost use Rattle.quel_names.specs.Parts.{title_in};
ghost use Rattle.quel_names.specs.Roles.{meant_by};

use crate::role::Role;
use calculus::Statement;

/// What a title in the target list of a statement is.
pub(crate) fn titles_of(s: &Statement) -> Role<'_>
    ensures { (name : List ℕ) → meant_by result name ≡ title_in s.now name }
{
    match s {
        Statement::Append { rel, .. } => Role::AttrIn(rel),
        Statement::Replace { var, .. } => Role::AttrOf(var),
        _ => Role::New,
    }
}
