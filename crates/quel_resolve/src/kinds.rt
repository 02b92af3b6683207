//! Which statements declare variables, and which change rows.

ghost use Rattle.std.specs.Prelude.{◌≡◌};
ghost use Rattle.quel_resolve.specs.Kinds.{changes_rows, is_range};

use calculus::Statement;

/// Whether a statement declares a variable.
pub(crate) fn is_range(s: &Statement) -> bool
    ensures { result ≡ is_range s.now }
{
    match s {
        Statement::Range { .. } => true,
        _ => false,
    }
}

/// Whether a statement appends, replaces or deletes.
pub(crate) fn changes_rows(s: &Statement) -> bool
    ensures { result ≡ changes_rows s.now }
{
    match s {
        Statement::Append { .. } | Statement::Replace { .. } | Statement::Delete { .. } => true,
        _ => false,
    }
}
