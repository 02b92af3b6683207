//! The tuple calculus: the types that every stage speaks of, and the definitions of what they mean.
#![tactic(auto)]

mod agg_table;
mod blank;
mod change;
mod copies;
mod groups;
mod kinds;
pub mod limits;
mod name;
mod operator;
mod probe;
mod query;
pub mod refusals;
mod reply;
mod request;
mod row;
mod row_set;
mod schema;
mod statement;
mod text;
mod unescaped;
mod value;

pub use agg_table::AggTable;
pub use blank::{blank_values, empty_text, put_at};
pub use change::{Change, DbChange, Pair};
pub use groups::Groups;
pub use kinds::{
    comparable, is_number_kind, is_text_kind, joined_kind, kind_of, kinds_fit, made_kind,
    number_kind, operated_kind,
};
pub use memory::{Boxed, List, OutOfMemory, TryCopy};
pub use name::{Name, is_name};
pub use operator::{AggOp, ArithOp, CmpOp};
pub use probe::{Place, Probe};
pub use query::{AggSource, QAgg, QQual, QTerm, Query, RelKey, Target};
pub use reply::{Column, Refusal, Reply, Table};
pub use request::{Asked, Checked, CopyCol, CopyForm, SortKey, Update, UpdateOp, Utility};
pub use row::Row;
pub use row_set::{RowBack, RowSet};
pub use schema::{Attr, Permit, RelFile, RelInfo, Rule, Spec};
pub use statement::{AggTerm, Item, Qual, Statement, Term};
pub use text::{Chars, Text, is_printable};
pub use unescaped::{Unescaped, next_unescaped};
pub use value::{Domain, Kind, Value};
