//! What a name has to be that stands alone in a statement.

use calculus::Name;

/// What a name has to be that stands alone in a statement.
#[derive(Clone, Copy)]
pub enum Role<'a> {
    /// Nothing yet.
    New,
    /// A relation, a view or a catalogue.
    Relation,
    /// What `destroy` may name: a relation, a view, an index or a catalogue.
    Entry,
    /// An attribute of a relation, a view or a catalogue of this name.
    AttrIn(&'a Name),
    /// An attribute of what this variable ranges over.
    AttrOf(&'a Name),
}
