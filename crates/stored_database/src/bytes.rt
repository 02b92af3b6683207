//! What rows of the catalogues and trees say, byte by byte.

ghost use Rattle.stored_database.specs.Laws.{ColumnsAreTheirBytes, EntriesAreTheirBytes, PartsAreTheirBytes, TreesAreTheirBytes};

/// Bytes are an entry of file 5 exactly where they are the bytes of one.
#[tactic(auto, using(crate::proofs::EntryBytes::entries_are_their_bytes))]
pub fn entries_are_their_bytes()
    ensures { EntriesAreTheirBytes }
{}

/// Bytes are an attribute of file 6 exactly where they are the bytes of one.
#[tactic(auto, using(crate::proofs::ColumnBytes::columns_are_their_bytes))]
pub fn columns_are_their_bytes()
    ensures { ColumnsAreTheirBytes }
{}

/// Bytes are a part of a tree in file 7 exactly where they are the bytes of one.
#[tactic(auto, using(crate::proofs::PartBytes::parts_are_their_bytes))]
pub fn parts_are_their_bytes()
    ensures { PartsAreTheirBytes }
{}

/// Bytes are read as a query, a rule or a permit exactly where they are its spelling.
#[tactic(auto, using(crate::proofs::TreeBytes::trees_are_their_bytes))]
pub fn trees_are_their_bytes()
    ensures { TreesAreTheirBytes }
{}
