//! The expansion of what a variable ranges over.

use calculus::{List, QQual, QTerm, RelKey};

/// What stands for a variable once views are expanded and permits restrict their rows: variables over base
/// relations and catalogues, a term for each attribute, and the conditions on their rows.
pub struct Expansion {
    /// What its variables range over, in their order.
    pub vars: List<RelKey>,
    /// The terms of the attributes, in their order; `None` where each is the attribute at its place of
    /// the only variable.
    pub terms: Option<List<QTerm>>,
    /// The conditions, all of which hold.
    pub conditions: List<QQual>,
}

impl Drop for Expansion {
    fn drop(self) {
        let Self {
            vars: _,
            terms: _,
            conditions: _,
        } = self;
    }
}
