//! The numbers of refusals. What each says stands in `docs/language.md`.

/// No statement has what stands there.
pub const SYNTAX: u8 = 1;

/// The monitor has no such command.
pub const NO_COMMAND: u8 = 2;

/// Too many files are included in one another, or too many bytes of files in a run.
pub const INCLUDE_LIMIT: u8 = 3;

/// No relation or view has this name.
pub const NO_RELATION: u8 = 10;

/// No range variable has this name.
pub const NO_VARIABLE: u8 = 11;

/// No attribute or title has this name.
pub const NO_ATTRIBUTE: u8 = 12;

/// Kinds differ, or an operation isn't one of theirs.
pub const KINDS_DIFFER: u8 = 13;

/// A limit is passed.
pub const PAST_LIMIT: u8 = 14;

/// A relation, view or index has this name.
pub const NAME_IN_USE: u8 = 15;

/// A row has too many attributes or bytes.
pub const TOO_WIDE: u8 = 16;

/// A name stands twice.
pub const NAMED_TWICE: u8 = 17;

/// An aggregate stands where none may, or isn't over one variable.
pub const AGGREGATE: u8 = 18;

/// No permit or rule has this number.
pub const NO_SUCH_NUMBER: u8 = 19;

/// A target has no value.
pub const NO_VALUE: u8 = 20;

/// A value doesn't fit its domain.
pub const NOT_FIT: u8 = 21;

/// One row would have two new values.
pub const CONTENDED: u8 = 22;

/// No permit allows it to the user.
pub const NO_PERMIT: u8 = 23;

/// It is another user's.
pub const NOT_OWNER: u8 = 24;

/// A view names it.
pub const IN_USE: u8 = 25;

/// It is a view.
pub const IS_VIEW: u8 = 26;

/// A rule doesn't hold of every row.
pub const RULE_BROKEN: u8 = 27;

/// It is a catalogue.
pub const IS_CATALOGUE: u8 = 28;

/// A relation would have too many rows.
pub const TOO_MANY_ROWS: u8 = 29;

/// A row of a copied file isn't one of its columns; the refusal has its number.
pub const BAD_ROW: u8 = 31;

/// No file has this name.
pub const NO_FILE: u8 = 32;
