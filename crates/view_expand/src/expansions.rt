//! The expansion of what has a key, through views.

ghost use Rattle.std.specs.Prelude.{◌≡◌, ◌≤◌, true, false, Some, IfOk, OnOk, option_map};
ghost use Rattle.calculus.specs.Database.{Db};
ghost use Rattle.calculus.specs.Permission.{permitted_within};
ghost use Rattle.calculus.specs.Sizes.{measure_within};
ghost use Rattle.view_expand.specs.Asking.{who_of};
ghost use Rattle.view_expand.specs.Causes.{HasCause};
ghost use Rattle.view_text.specs.Scoped.{is_scoped};
ghost use Rattle.view_text.specs.ExpansionOf.{expansion_within};

use crate::walk::expansion_through;
use crate::{ExpansionFault, ExpansionsFound};
use base_trait::Base;
use calculus::{Name, RelKey};
use std::alloc::Global;
use view_text::Expansion;

/// The expansion of what has a key, for one who uses these attributes of it, through at most so many levels
/// of views: its permits restrict their rows, and each view's own text is put in. `NoPermit` exactly where
/// something that it reads may not be read, or where views stand on views through more levels. Each view
/// is walked once for each number of levels that is left where it is met.
pub fn expansion_within<B: Base>(
    alloc: Global,
    base: &mut B,
    who: Option<&Name>,
    key: &RelKey,
    attrs: &[u8],
    levels: u8,
) -> Result<Expansion, ExpansionFault>
    requires { (db : Db) → B.database base.old ≡ Some db → (measure_within levels db key.now).variables ≤ 256 }
    ensures known { (db : Db) → B.database base.old ≡ Some db → IfOk result (λ expansion. expansion ≡ expansion_within levels db (who_of (option_map (λ n. n.now) who.entry)) key.now attrs.now) }
    ensures permitted { (db : Db) → B.database base.old ≡ Some db → OnOk result (permitted_within levels db (who_of (option_map (λ n. n.now) who.entry)) key.now attrs.now ≡ true) }
    ensures scoped { IfOk result (λ expansion. is_scoped expansion ≡ true) }
    ensures kept { B.database base.new ≡ B.database base.old }
    ensures stays { (s : Db) → B.schema base.old ≡ Some s → B.schema base.new ≡ Some s }
    ensures asked { (b : B) → B.asked b base.old → B.asked b base.new }
    ensures cause { HasCause (λ db. permitted_within levels db (who_of (option_map (λ n. n.now) who.entry)) key.now attrs.now ≡ false) (B.database base.old) (B.faults base.old) (B.faults base.new) result }
{
    let mut found = ExpansionsFound::new(alloc);
    expansion_through(alloc, base, who, key, attrs, levels, &mut found)
}
