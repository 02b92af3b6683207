//! The limits of the language and of what is stored.

/// The bytes of a name.
pub const MOST_NAME_BYTES: usize = 12;

/// The bytes of a text, and of a text constant between its quotes.
pub const MOST_TEXT_BYTES: usize = 255;

/// The tokens of a statement.
pub const MOST_TOKENS: usize = 500;

/// The parentheses that are open at once.
pub const MOST_PARENTHESES: usize = 50;

/// The attributes of a relation or a view, and the targets of a printed row.
pub const MOST_ATTRIBUTES: usize = 49;

/// The bytes of a row.
pub const MOST_ROW_BYTES: u32 = 1000;

/// The key attributes of a structure or an index.
pub const MOST_KEYS: usize = 6;

/// The variables of a query, each aggregate counting as one more.
pub const MOST_VARIABLES: usize = 10;

/// The variables of a query once its views are expanded.
pub const MOST_EXPANDED_VARIABLES: usize = 50;

/// The size of a view once those in it are expanded, and of a permit's or a rule's qualification.
pub const MOST_SIZE: u64 = 1000;

/// The level of a view: views over views.
pub const MOST_LEVEL: u8 = 16;

/// The permits of one relation, and its rules.
pub const MOST_NUMBERED: usize = 100;

/// The number of a permit or a rule.
pub const GREATEST_NUMBER: u32 = 4_294_967_295;

/// The relations, views and indexes together, without the catalogues.
pub const MOST_ENTRIES: u32 = 10_000;

/// The rows of a relation.
pub const MOST_ROWS: usize = 100_000;

/// The bytes of a file that is copied from.
pub const MOST_FILE_BYTES: usize = 4_294_967_295;

/// The bytes of a script, and those of all files that a run includes.
pub const MOST_SCRIPT_BYTES: usize = 16_777_216;

/// The files that are included in one another.
pub const MOST_INCLUDES: usize = 8;

/// The levels of a tree that is spelled.
pub const MOST_TREE_LEVELS: u32 = 3_000;
