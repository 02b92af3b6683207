//! The values of an aggregate.

use crate::{Groups, Value};

/// The values of an aggregate, one for each group of rows.
pub struct AggTable {
    /// What the aggregate gives for each group.
    pub groups: Groups,
    /// What the aggregate gives where no row has the values that are asked for.
    pub empty: Value,
}

impl Drop for AggTable {
    fn drop(self) {
        let Self {
            groups: _,
            empty: _,
        } = self;
    }
}
