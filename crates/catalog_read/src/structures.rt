//! Which entries are relations, views or indexes.

ghost use Rattle.std.specs.Prelude.{◌≡◌};
ghost use Rattle.calculus.specs.Structures.{is_index, is_structure, is_view};

use calculus::Spec;

/// Whether it is a relation.
pub(crate) fn is_structure(spec: Spec) -> bool
    ensures { result ≡ is_structure spec }
{
    matches!(spec, Spec::Heap | Spec::Hash | Spec::Isam)
}

/// Whether it is a view.
pub(crate) fn is_view(spec: Spec) -> bool
    ensures { result ≡ is_view spec }
{
    matches!(spec, Spec::View)
}

/// Whether it is an index.
pub(crate) fn is_index(spec: Spec) -> bool
    ensures { result ≡ is_index spec }
{
    matches!(spec, Spec::Index)
}
