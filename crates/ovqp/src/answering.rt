//! The answer of a query of one variable.

ghost use Rattle.std.specs.Prelude.{◌≡◌, [], ◌∷◌, Some, IsTrue, IsFalse, IfOk, IfErr, OnOk};
ghost use Rattle.calculus.specs.declared.query.Query.{Query};
ghost use Rattle.calculus.specs.Answer.{answer, lacks};
ghost use Rattle.calculus.specs.Assignments.{assigned};
ghost use Rattle.calculus.specs.Database.{Db};
ghost use Rattle.calculus.specs.QueryParts.{qual_of, query_aggregates, targets_of};
ghost use Rattle.calculus.specs.Targets.{rows_given, some_lacks};
ghost use Rattle.calculus.specs.Term.{no_aggs};
ghost use Rattle.calculus.specs.VariableRows.{rows_of};
ghost use Rattle.calculus.specs.Who.{Unrestricted};
ghost use Rattle.quel_meaning.specs.FitQueries.{is_kept};
ghost use Rattle.ovqp.specs.ProductCauses.{IsCause};
ghost use Rattle.ovqp.specs.Causes.{HasCause};
ghost use Rattle.ovqp.specs.Parts.{IsQueryOf, alone};

use crate::ProductFault;
use crate::fault::QueryFault;
use crate::giving::give_of;
use crate::scanning::given_by_scan;
use crate::used::is_place_used;
use base_trait::Base;
use calculus::{QQual, RelKey, Row, RowSet, Target};
use std::alloc::Global;

/// The set of what is given for one row without values, which stands for a variable that isn't used.
fn given_once(alloc: Global, qual: &QQual, targets: &[Target]) -> Result<RowSet, ProductFault>
    ensures rows { (q : Query) → qual_of q ≡ qual.now → targets_of q ≡ targets.now → IfOk result (λ set. set ≡ rows_given no_aggs q (alone [] ∷ [])) }
    ensures none_lacks { (q : Query) → qual_of q ≡ qual.now → targets_of q ≡ targets.now → OnOk result (IsFalse (some_lacks no_aggs q (alone [] ∷ []))) }
    ensures cause { (q : Query) → qual_of q ≡ qual.now → targets_of q ≡ targets.now → IfErr result (IsCause no_aggs q (alone [] ∷ [])) }
{
    let mut given = Vec::new(alloc);
    give_of(alloc, qual, targets, Row::of(Vec::new(alloc)), &mut given)?;
    Ok(RowSet::of_rows(given))
}

/// The answer of the query of one variable over `rel`, with this qualification and these targets, for
/// whoever is unrestricted and without aggregates: the set of the rows that the targets have for the rows
/// of which the qualification holds. It is `NoValue` exactly where a target has no value for such a row.
/// The relation or catalogue is read once, whole, unless the query doesn't use the variable; a row of
/// which the qualification doesn't hold is let go of at once, and the rows are sorted at the end.
pub fn one_variable<B: Base>(
    alloc: Global,
    base: &mut B,
    rel: &RelKey,
    qual: &QQual,
    targets: &[Target],
) -> Result<RowSet, QueryFault>
    requires { (db : Db) → B.database base.old ≡ Some db → IsTrue (is_kept db rel.now) }
    ensures rows { (db : Db) → B.database base.old ≡ Some db → (q : Query) → IsQueryOf q rel.now qual.now targets.now
        → IfOk result (λ set. set ≡ rows_given no_aggs q (assigned (rows_of db Unrestricted) q)) }
    ensures none_lacks { (db : Db) → B.database base.old ≡ Some db → (q : Query) → IsQueryOf q rel.now qual.now targets.now
        → OnOk result (IsFalse (some_lacks no_aggs q (assigned (rows_of db Unrestricted) q))) }
    ensures plain { (db : Db) → B.database base.old ≡ Some db → (q : Query) → IsQueryOf q rel.now qual.now targets.now → query_aggregates q ≡ []
        → IfOk result (λ set. set ≡ answer db Unrestricted q) }
    ensures plain_lacks { (db : Db) → B.database base.old ≡ Some db → (q : Query) → IsQueryOf q rel.now qual.now targets.now → query_aggregates q ≡ []
        → OnOk result (IsFalse (lacks db Unrestricted q)) }
    ensures kept { B.database base.new ≡ B.database base.old }
    ensures stays { (s : Db) → B.schema base.old ≡ Some s → B.schema base.new ≡ Some s }
    ensures asked { (b : B) → B.asked b base.old → B.asked b base.new }
    ensures cause { (q : Query) → IsQueryOf q rel.now qual.now targets.now → HasCause no_aggs q (B.database base.old) (B.faults base.old) (B.faults base.new) result }
{
    if is_place_used(qual, targets, 0) {
        given_by_scan(alloc, base, rel, qual, targets)
    } else {
        Ok(given_once(alloc, qual, targets)?)
    }
}
