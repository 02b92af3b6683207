//! Trees as bytes: how each type of them is spelled, and its reader and writer.
#![tactic(auto)]

mod changes;
mod copies;
mod laws;
mod names;
mod operators;
mod permits;
mod queries;
mod relations;
mod requests;
mod tree;
mod values;

pub use changes::DbChangeTree;
pub use copies::{CopyColTree, CopyFormTree};
pub use laws::levels_are_those_of_the_tree;
pub use names::{CharsTree, NameTree, TextTree};
pub use operators::{AggOpTree, ArithOpTree, CmpOpTree, UpdateOpTree};
pub use permits::{PermitTree, RuleTree};
pub use queries::{QualTree, QueryTree, TermTree};
pub use relations::{
    AttrTree, ColumnTree, ColumnsTree, RelInfoTree, RelKeyTree, SortKeyTree, SpecTree,
};
pub use requests::{AskedTree, CheckedTree, UpdateTree, UtilityTree};
pub use tree::{MOST_TREE_LEVELS, Tree, TreeFault, tree_bytes, tree_of};
pub use values::{DomainTree, KindTree, RowTree, ValueTree};
