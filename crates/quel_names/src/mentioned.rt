//! The first name that refuses, among mentions.

ghost use Rattle.std.specs.Prelude.{◌≡◌, List, Some, IfOk, map};
ghost use Rattle.base_trait.specs.Causes.{HasCause};
ghost use Rattle.calculus.specs.Database.{Db};
ghost use Rattle.quel_check.specs.Seen.{seen};
ghost use Rattle.quel_meaning.specs.Naming.{Mention as Named, first_number, mention_refusal};
ghost use Rattle.quel_names.specs.Asking.{scope_of};

use crate::mention::mention_refusal;
use base_trait::{Base, BaseFault};
use calculus::{Name, OutOfMemory};
use quel_check::{Mention, RangeTable};
use std::alloc::Global;

/// The number that refuses the first of these names that isn't what it has to be; `None` where each
/// is. The names behind that one are not looked for.
pub(crate) fn first_refusal<B: Base>(
    alloc: Global,
    base: &mut B,
    user: &Name,
    ranges: &RangeTable,
    mentions: &[Mention<'_>],
) -> Result<Option<u8>, BaseFault>
    ensures known { (db : Db) → B.schema base.old ≡ Some db
        → IfOk result (λ n. n ≡ first_number (map (mention_refusal (scope_of db user.now ranges.now)) (map seen mentions.now))) }
    ensures kept { B.database base.new ≡ B.database base.old }
    ensures stays { (s : Db) → B.schema base.old ≡ Some s → B.schema base.new ≡ Some s }
    ensures asked { (b : B) → B.asked b base.old → B.asked b base.new }
    ensures cause { HasCause (B.database base.old) (B.faults base.old) (B.faults base.new) result }
{
    for mention in mentions {
        let refusal = mention_refusal(alloc, base, user, ranges, mention)?;
        if refusal.is_some() {
            return Ok(refusal);
        }
    }
    Ok(None)
}

/// The same of names that were listed where there was memory for them.
pub(crate) fn refusal_of<B: Base>(
    alloc: Global,
    base: &mut B,
    user: &Name,
    ranges: &RangeTable,
    mentions: Result<Vec<Mention<'_>>, OutOfMemory>,
) -> Result<Option<u8>, BaseFault>
    ensures known { (db : Db) (names : List Named) → B.schema base.old ≡ Some db
        → IfOk mentions.entry (λ found. map seen found.items ≡ names)
        → IfOk result (λ n. n ≡ first_number (map (mention_refusal (scope_of db user.now ranges.now)) names)) }
    ensures kept { B.database base.new ≡ B.database base.old }
    ensures stays { (s : Db) → B.schema base.old ≡ Some s → B.schema base.new ≡ Some s }
    ensures asked { (b : B) → B.asked b base.old → B.asked b base.new }
    ensures cause { HasCause (B.database base.old) (B.faults base.old) (B.faults base.new) result }
{
    let mentions = mentions?;
    first_refusal(alloc, base, user, ranges, &mentions)
}
