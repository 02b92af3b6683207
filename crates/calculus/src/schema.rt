//! What a database says of its relations, views, indexes, permits and rules.

ghost use Rattle.std.specs.Prelude.{◌≡◌};

use crate::query::{QQual, RelKey};
use crate::value::{Domain, Kind};
use crate::{List, Name};

/// What something is, and how its rows are stored.
#[derive(Clone, Copy, PartialEq, Eq)]
pub enum Spec {
    /// A relation whose rows are in no order.
    Heap,
    /// A relation whose rows lie by a hash of their keys.
    Hash,
    /// A relation whose rows lie by the order of their keys, below a directory.
    Isam,
    /// A view.
    View,
    /// A secondary index.
    Index,
}

/// An attribute of a relation, a view or a catalogue.
pub struct Attr {
    /// Its name.
    pub name: Name,
    /// What its values are.
    pub kind: Kind,
}

impl Drop for Attr {
    fn drop(self) {
        let Self { name: _, kind: _ } = self;
    }
}

/// What is known of a relation, a view, an index or a catalogue without its rows.
pub struct RelInfo {
    /// What names it.
    pub key: RelKey,
    /// What it is.
    pub spec: Spec,
    /// Its attributes, in order; none for an index.
    pub attrs: List<Attr>,
    /// The places of its key attributes, counted from 0: among its own attributes, and for an index
    /// among those of the relation below it. None for a view.
    pub keys: List<u8>,
}

impl Drop for RelInfo {
    fn drop(self) {
        let Self {
            key: _,
            spec: _,
            attrs: _,
            keys: _,
        } = self;
    }
}

impl RelInfo {
    /// What names it. Takes no memory.
    pub fn into_key(self) -> RelKey
        ensures { result ≡ self.key }
    {
        let Self {
            key,
            spec: _,
            attrs: _,
            keys: _,
        } = self;
        key
    }
}

/// What lets a user do something with rows of a relation.
pub struct Permit {
    /// Its number among the permits of the relation, from 1; 0 before it has one.
    pub number: u32,
    /// The operations that it allows, as a sum: 1 retrieve, 2 append, 4 replace, 8 delete.
    pub ops: u8,
    /// The places of the attributes that it covers, counted from 0; none means all.
    pub attrs: List<u8>,
    /// The user that it is for; `None` means all.
    pub user: Option<Name>,
    /// The rows that it is for; the only variable is 0, a row of the relation.
    pub qual: QQual,
}

impl Drop for Permit {
    fn drop(self) {
        let Self {
            number: _,
            ops: _,
            attrs: _,
            user: _,
            qual: _,
        } = self;
    }
}

/// An integrity rule, which each new row of a relation must meet.
pub struct Rule {
    /// Its number among the rules of the relation, from 1; 0 before it has one.
    pub number: u32,
    /// What must hold; the only variable is 0, a row of the relation.
    pub qual: QQual,
}

impl Drop for Rule {
    fn drop(self) {
        let Self { number: _, qual: _ } = self;
    }
}

/// Where the rows of a relation or an index lie on the disk, and how.
pub struct RelFile {
    /// The number of its file.
    pub file: u32,
    /// How the rows lie.
    pub spec: Spec,
    /// The places of the key attributes, counted from 0.
    pub keys: List<u8>,
    /// The domains of the attributes, in order.
    pub domains: List<Domain>,
    /// The number of primary pages, which come first.
    pub primary: u32,
    /// The number of directory pages, which come behind the primary ones.
    pub directory: u32,
    /// The number of all pages.
    pub used: u32,
}

impl Drop for RelFile {
    fn drop(self) {
        let Self {
            file: _,
            spec: _,
            keys: _,
            domains: _,
            primary: _,
            directory: _,
            used: _,
        } = self;
    }
}
