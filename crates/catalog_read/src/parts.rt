//! The parts of a database but for the rows of its relations.

use calculus::{List, Permit, Query, RelInfo, RelKey, Rule};

/// An index, and the key of its relation.
#[derive(Drop)]
pub struct IndexPart {
    /// What is known of it.
    pub info: RelInfo,
    /// The relation below it.
    pub base: RelKey,
}

/// A view, and its query.
#[derive(Drop)]
pub struct ViewPart {
    /// What is known of it.
    pub info: RelInfo,
    /// The query whose rows it has.
    pub query: Query,
}

/// What a database consists of but for rows, in any order.
#[derive(Drop)]
pub struct SchemaParts {
    /// Its relations.
    pub relations: List<RelInfo>,
    /// Its indexes.
    pub indexes: List<IndexPart>,
    /// Its views.
    pub views: List<ViewPart>,
    /// Its rules, each beside the key of its relation.
    pub rules: List<(RelKey, Rule)>,
    /// Its permits, each beside the key of its relation.
    pub permits: List<(RelKey, Permit)>,
}
