//! Which changes a database may take, asked of it as it stands. Each function here is a law with no
//! body: its clause speaks of the definitions alone.
#![tactic(auto)]

mod laws;

pub use laws::{
    change_is_fit_exactly_where_lawful, destroying_is_fit_exactly_where_lawful,
    index_is_fit_exactly_where_lawful, permit_is_fit_exactly_where_lawful,
    permits_may_go_exactly_where_lawful, relation_is_fit_exactly_where_lawful,
    rows_are_fit_exactly_where_lawful, rule_is_fit_exactly_where_lawful,
    rules_may_go_exactly_where_lawful, structure_is_fit_exactly_where_lawful,
    view_is_fit_exactly_where_lawful,
};
