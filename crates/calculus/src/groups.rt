//! The groups of an aggregate.

ghost use Rattle.std.specs.Prelude.{◌≡◌, Some, option_map, unwrap_or};
ghost use Rattle.calculus.specs.declared.value.Value.{Value as Cell};
ghost use Rattle.calculus.specs.Groups.{GroupsAscend};
ghost use Rattle.calculus.specs.Table.{in_groups};

use crate::{List, OutOfMemory, Row, Value};
use memory::TryCopy;
use std::alloc::Global;
use std::marker::Model;

/// The groups of an aggregate: the values that the rows of a group have in common, and what the
/// aggregate gives there; `None` where it has no value. Contracts see them in strictly ascending order
/// of the values in common.
pub struct Groups {
    groups: List<(Row, Option<Value>)>,
}

impl Drop for Groups {
    fn drop(self) {
        let Self { groups: _ } = self;
    }
}

impl Model for Groups {
    ghost use Rattle.std.specs.Prelude.{List as Items};
    ghost use Rattle.calculus.specs.Groups.{Group, GroupsAscend};

    ghost Value = { Items Group };

    ghost view = { λ set. set.groups };

    ghost invariant = { λ set. GroupsAscend set.groups };
}

impl Groups {
    /// These groups, of which the values in common ascend strictly.
    pub fn of(groups: Vec<(Row, Option<Value>)>) -> Groups
        requires { GroupsAscend groups.items }
        ensures { result ≡ groups.items }
    {
        Groups {
            groups: List::of(groups),
        }
    }

    /// What the aggregate gives where rows have these values in common; `None` where no group has them.
    /// A binary search.
    pub fn get(&self, common: &[Value]) -> Option<&Option<Value>>
        ensures { (empty : Cell) → unwrap_or (option_map (λ v. v.now) result) (Some empty) ≡ in_groups empty self.now common.now }
    {
        let groups = self.groups.items();
        match groups.binary_search_by(|group| group.0.values().cmp(common)) {
            Ok(place) => Some(&groups[place].1),
            Err(_) => None,
        }
    }

    /// The groups, ascending.
    pub fn items(&self) -> &[(Row, Option<Value>)]
        ensures items { result.now ≡ self.now }
        ensures ascend { GroupsAscend self.now }
    {
        self.groups.items()
    }
}

impl TryCopy for Groups {
    fn copy(&self, alloc: Global) -> Result<Groups, OutOfMemory> {
        match self.groups.copy(alloc) {
            Ok(groups) => Ok(Groups { groups }),
            Err(error) => Err(error),
        }
    }
}
