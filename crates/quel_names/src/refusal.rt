//! Which name refuses a statement.

ghost use Rattle.std.specs.Prelude.{◌≡◌, Some, IfOk, map};
ghost use Rattle.base_trait.specs.Causes.{HasCause};
ghost use Rattle.calculus.specs.Database.{Db};
ghost use Rattle.quel_meaning.specs.Naming.{first_number, mention_refusal, name_refusal, query_mentions};
ghost use Rattle.quel_meaning.specs.WrittenParts.{items_of, where_of};
ghost use Rattle.quel_names.specs.Asking.{scope_of};
ghost use Rattle.quel_names.specs.Parts.{head, title_in};

use crate::head::head;
use crate::mentioned::refusal_of;
use crate::text::query_refusal;
use crate::titles::titles_of;
use base_trait::{Base, BaseFault};
use calculus::{Name, Statement};
use quel_check::{RangeTable, items_of, where_of};
use std::alloc::Global;

/// What refuses the names in front of the target list.
fn head_refusal<B: Base>(
    alloc: Global,
    base: &mut B,
    user: &Name,
    ranges: &RangeTable,
    s: &Statement,
) -> Result<Option<u8>, BaseFault>
    ensures known { (db : Db) → B.schema base.old ≡ Some db
        → IfOk result (λ n. n ≡ first_number (map (mention_refusal (scope_of db user.now ranges.now)) (head s.now))) }
    ensures kept { B.database base.new ≡ B.database base.old }
    ensures stays { (s : Db) → B.schema base.old ≡ Some s → B.schema base.new ≡ Some s }
    ensures asked { (b : B) → B.asked b base.old → B.asked b base.new }
    ensures cause { HasCause (B.database base.old) (B.faults base.old) (B.faults base.new) result }
{
    refusal_of(alloc, base, user, ranges, head(alloc, s))
}

/// What refuses the names in the target list and in the qualification.
fn tail_refusal<B: Base>(
    alloc: Global,
    base: &mut B,
    user: &Name,
    ranges: &RangeTable,
    s: &Statement,
) -> Result<Option<u8>, BaseFault>
    ensures known { (db : Db) → B.schema base.old ≡ Some db
        → IfOk result (λ n. n ≡ first_number (map (mention_refusal (scope_of db user.now ranges.now))
        (query_mentions (scope_of db user.now ranges.now) (title_in s.now) (items_of s.now) (where_of s.now)))) }
    ensures kept { B.database base.new ≡ B.database base.old }
    ensures stays { (s : Db) → B.schema base.old ≡ Some s → B.schema base.new ≡ Some s }
    ensures asked { (b : B) → B.asked b base.old → B.asked b base.new }
    ensures cause { HasCause (B.database base.old) (B.faults base.old) (B.faults base.new) result }
{
    let titles = titles_of(s);
    query_refusal(alloc, base, user, ranges, &titles, items_of(s), where_of(s))
}

/// The number of the first name in the text of the user's statement that isn't what it has to be: 11
/// of a variable that was never declared, 10 of a relation, a view or a catalogue that isn't there,
/// also where a variable was declared for it, 12 of an attribute; `None` where each name is what it
/// has to be. `destroy` may name an index too.
pub fn name_refusal<B: Base>(
    alloc: Global,
    s: &Statement,
    user: &Name,
    ranges: &RangeTable,
    base: &mut B,
) -> Result<Option<u8>, BaseFault>
    ensures known { (db : Db) → B.schema base.old ≡ Some db
        → IfOk result (λ n. n ≡ name_refusal (scope_of db user.now ranges.now) s.now) }
    ensures kept { B.database base.new ≡ B.database base.old }
    ensures stays { (s : Db) → B.schema base.old ≡ Some s → B.schema base.new ≡ Some s }
    ensures asked { (b : B) → B.asked b base.old → B.asked b base.new }
    ensures cause { HasCause (B.database base.old) (B.faults base.old) (B.faults base.new) result }
{
    let refusal = head_refusal(alloc, base, user, ranges, s)?;
    if refusal.is_some() {
        return Ok(refusal);
    }
    tail_refusal(alloc, base, user, ranges, s)
}
