//! What is known where the trees of a statement are made.

use calculus::{Name, RelInfo};

/// What the variables of a statement range over, which is asked for before its trees are made. All of
/// it is borrowed.
#[derive(Clone, Copy)]
pub struct Known<'a> {
    /// The variables of its query, as `vars_in` gives them.
    pub vars: &'a [Name],
    /// What each of them ranges over.
    pub infos: &'a [RelInfo],
    /// The variable of each of its aggregates, as `inner_vars` gives them.
    pub inner_vars: &'a [Name],
    /// What each of those ranges over.
    pub inner_infos: &'a [RelInfo],
}
