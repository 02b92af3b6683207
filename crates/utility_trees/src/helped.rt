//! What `help` asks for: rows of the catalogues.

ghost use Rattle.std.specs.Prelude.{◌≡◌, ◌++◌, ◌∷◌, [], ℕ, All, Some, None, Ok, Err, take, drop, map, IfOk, IsTrue, OnOk};
ghost use Rattle.base_trait.specs.Causes.{HasCause};
ghost use Rattle.calculus.specs.declared.request.Checked.TheVariants.{Answer};
ghost use Rattle.calculus.specs.declared.statement.Statement.TheVariants as statement;
ghost use Rattle.calculus.specs.Catalogue.{relation_attrs, attribute_attrs};
ghost use Rattle.calculus.specs.Database.{Db};
ghost use Rattle.calculus.specs.Keys.{key_of};
ghost use Rattle.calculus.specs.Name.{is_name};
ghost use Rattle.calculus.specs.Tree.{both, either};
ghost use Rattle.quel_meaning.specs.Naming.{name_refusal};
ghost use Rattle.quel_meaning.specs.Ranges.{Ranges};
ghost use Rattle.quel_meaning.specs.Resolved.{help_on, help_on_all, is_name_at};
ghost use Rattle.quel_meaning.specs.Scope.{Scope};
ghost use Rattle.quel_meaning.specs.WrittenQuery.{attr_targets};
ghost use Rattle.quel_names.specs.Asking.{scope_of};
ghost use Rattle.utility_trees.specs.Causes.{HasCheckCause};
ghost use Rattle.utility_trees.specs.Serving.{Serves, column_target};

use crate::CheckFault;
use crate::asked::{answer, unsorted};
use crate::finding::found;
use crate::keys::{catalogue_key, name_of};
use base_trait::{Base, BaseFault};
use calculus::{
    Boxed, Chars, Checked, Domain, Kind, Name, OutOfMemory, QQual, QTerm, RelInfo, RelKey, Target,
};
use memory::{alone, both, push};
use std::alloc::Global;

/// The key of a catalogue, alone.
fn catalogue(alloc: Global, dba: &Name, name: &[u8]) -> Result<Vec<RelKey>, OutOfMemory>
    requires { IsTrue (is_name name.now) }
    ensures { IfOk result (λ vars. vars.items ≡ key_of dba.now name.now ∷ []) }
{
    let key = catalogue_key(alloc, dba, name)?;
    alone(alloc, key)
}

/// The target of the attribute of this name and domain at this place.
fn column_target(
    alloc: Global,
    place: u8,
    name: &[u8],
    domain: Domain,
) -> Result<Target, OutOfMemory>
    requires { IsTrue (is_name name.now) }
    ensures { IfOk result (λ target. target ≡ column_target place name.now domain) }
{
    let name = name_of(alloc, name)?;
    let kind = Kind::Of(domain);
    let term = QTerm::Attr {
        var: 0,
        attr: place,
    };
    Ok(Target { name, kind, term })
}

/// The targets of the attributes of these places, names and domains.
fn column_targets(
    alloc: Global,
    columns: &[(u8, &[u8], Domain)],
) -> Result<Vec<Target>, OutOfMemory>
    requires { All (λ c. IsTrue (is_name c.1.now)) columns.now }
    ensures { IfOk result (λ targets. targets.items ≡ map (λ c. column_target c.0 c.1.now c.2) columns.now) }
{
    let mut targets = Vec::new(alloc);
    for (place, name, domain) in columns {
        let target = column_target(alloc, *place, name, *domain)?;
        push(&mut targets, target)?;
    }
    Ok(targets)
}

/// The names, owners and structures of entries.
#[tactic(auto, unfolding(calculus::specs::Name::is_name))]
fn entry_targets(alloc: Global) -> Result<Vec<Target>, OutOfMemory>
    ensures { IfOk result (λ targets. targets.items ≡ take 3 (attr_targets 0 relation_attrs)) }
{
    column_targets(
        alloc,
        &[
            (0, b"relid", Domain::C(12)),
            (1, b"relowner", Domain::C(12)),
            (2, b"relspec", Domain::C(6)),
        ],
    )
}

/// The numbers, names and formats of attributes.
#[tactic(auto, unfolding(calculus::specs::Name::is_name))]
fn attribute_targets(alloc: Global) -> Result<Vec<Target>, OutOfMemory>
    ensures { IfOk result (λ targets. targets.items ≡ drop 2 (attr_targets 0 attribute_attrs)) }
{
    column_targets(
        alloc,
        &[
            (2, b"attid", Domain::I2),
            (3, b"attname", Domain::C(12)),
            (4, b"attfrmt", Domain::C(4)),
        ],
    )
}

/// The name as a pattern.
#[tactic(auto, using(quel_meaning::proofs::NameChars::name_is_chars))]
fn pattern_of(alloc: Global, name: &Name) -> Result<Chars, OutOfMemory>
    ensures { IfOk result (λ pattern. pattern ≡ name.now) }
{
    match Chars::of(alloc, name.bytes())? {
        Some(chars) => Ok(chars),
        None => {
            prove!(false);
            Err(OutOfMemory)
        }
    }
}

/// The text at this place of the first variable's row is this name.
fn is_name_at(alloc: Global, place: u8, name: &Name) -> Result<QQual, OutOfMemory>
    ensures { IfOk result (λ qual. qual ≡ is_name_at place name.now) }
{
    let pattern = pattern_of(alloc, name)?;
    let term = QTerm::Attr {
        var: 0,
        attr: place,
    };
    Ok(QQual::Like {
        term,
        pattern,
        same: true,
    })
}

fn boxed_name_at(alloc: Global, place: u8, name: &Name) -> Result<Boxed<QQual>, OutOfMemory>
    ensures { IfOk result (λ qual. qual ≡ is_name_at place name.now) }
{
    let qual = is_name_at(alloc, place, name)?;
    Boxed::new(alloc, qual)
}

/// The owner of the row's entry is one of these.
#[tactic(auto, using(calculus::proofs::Forms::either_is))]
fn is_of_either(alloc: Global, owner: &Name, other: &Name) -> Result<QQual, OutOfMemory>
    ensures { IfOk result (λ qual. qual ≡ either (is_name_at 1 owner.now) (is_name_at 1 other.now)) }
{
    let (left, right) = both(
        boxed_name_at(alloc, 1, owner),
        boxed_name_at(alloc, 1, other),
    )?;
    Ok(QQual::Or(left, right))
}

/// The row's entry has this name and this owner.
#[tactic(auto, using(calculus::proofs::Forms::both_is))]
fn is_of_entry(alloc: Global, key: &RelKey) -> Result<QQual, OutOfMemory>
    ensures { IfOk result (λ qual. qual ≡ both (is_name_at 0 key.now.name) (is_name_at 1 key.now.owner)) }
{
    let (left, right) = both(
        boxed_name_at(alloc, 0, &key.name),
        boxed_name_at(alloc, 1, &key.owner),
    )?;
    Ok(QQual::And(left, right))
}

/// What asks for the names, owners and structures of the entries whose owner is the user or the administrator.
#[tactic(auto, unfolding(calculus::specs::Name::is_name))]
fn help_on_all(alloc: Global, user: &Name, dba: &Name) -> Result<Checked, OutOfMemory>
    ensures { IfOk result (λ tree. (s : Scope) → s.user ≡ user.now → s.db.dba ≡ dba.now → tree ≡ Answer (help_on_all s ∷ [])) }
{
    let parts = both(catalogue(alloc, dba, b"relation"), entry_targets(alloc));
    let ((vars, targets), qual) = both(parts, is_of_either(alloc, user, dba))?;
    answer(alloc, unsorted(alloc, vars, targets, qual))
}

/// What asks for the numbers, names and formats of the attributes of what is known.
#[tactic(auto, unfolding(calculus::specs::Name::is_name))]
fn help_on(alloc: Global, dba: &Name, info: &RelInfo) -> Result<Checked, OutOfMemory>
    ensures { IfOk result (λ tree. (s : Scope) → s.db.dba ≡ dba.now → tree ≡ Answer (help_on s (Some info.now) ∷ [])) }
{
    let parts = both(
        catalogue(alloc, dba, b"attribute"),
        attribute_targets(alloc),
    );
    let ((vars, targets), qual) = both(parts, is_of_entry(alloc, &info.key))?;
    answer(alloc, unsorted(alloc, vars, targets, qual))
}

/// What asks for the entries of the user and of the administrator.
fn helped_on_all<B: Base>(alloc: Global, base: &mut B, user: &Name) -> Result<Checked, BaseFault>
    ensures known { (db : Db) (ranges : Ranges) → B.schema base.old ≡ Some db → IfOk result (λ tree. tree ≡ Answer (help_on_all (scope_of db user.now ranges) ∷ [])) }
    ensures kept { B.database base.new ≡ B.database base.old }
    ensures stays { (s : Db) → B.schema base.old ≡ Some s → B.schema base.new ≡ Some s }
    ensures asked { (b : B) → B.asked b base.old → B.asked b base.new }
    ensures cause { HasCause (B.database base.old) (B.faults base.old) (B.faults base.new) result }
{
    let dba = base.dba(alloc)?;
    let tree = help_on_all(alloc, user, &dba);
    drop(dba);
    Ok(tree?)
}

/// What asks for the attributes of what is known.
fn helped_on<B: Base>(alloc: Global, base: &mut B, info: &RelInfo) -> Result<Checked, BaseFault>
    ensures known { (s : Scope) → B.schema base.old ≡ Some s.db → IfOk result (λ tree. tree ≡ Answer (help_on s (Some info.now) ∷ [])) }
    ensures kept { B.database base.new ≡ B.database base.old }
    ensures stays { (s : Db) → B.schema base.old ≡ Some s → B.schema base.new ≡ Some s }
    ensures asked { (b : B) → B.asked b base.old → B.asked b base.new }
    ensures cause { HasCause (B.database base.old) (B.faults base.old) (B.faults base.new) result }
{
    let dba = base.dba(alloc)?;
    let tree = help_on(alloc, &dba, info);
    drop(dba);
    Ok(tree?)
}

/// The tree of a `help` on this name.
fn helped_on_name<B: Base>(
    alloc: Global,
    base: &mut B,
    user: &Name,
    name: &Name,
) -> Result<Checked, CheckFault>
    ensures known { (db : Db) (ranges : Ranges) → B.schema base.old ≡ Some db → name_refusal (scope_of db user.now ranges) (statement.Help (Some name.now)) ≡ None
        → Serves (scope_of db user.now ranges) (statement.Help (Some name.now)) result }
    ensures kept { B.database base.new ≡ B.database base.old }
    ensures stays { (s : Db) → B.schema base.old ≡ Some s → B.schema base.new ≡ Some s }
    ensures asked { (b : B) → B.asked b base.old → B.asked b base.new }
    ensures cause { HasCheckCause (B.database base.old) (B.faults base.old) (B.faults base.new) result }
{
    match found(alloc, base, user, name) {
        Ok(info) => {
            let tree = helped_on(alloc, base, &info);
            drop(info);
            Ok(tree?)
        }
        Err(fault) => Err(fault),
    }
}

/// The tree of a `help`, on this name where there is one.
pub(crate) fn helped<B: Base>(
    alloc: Global,
    base: &mut B,
    user: &Name,
    name: &Option<Name>,
) -> Result<Checked, CheckFault>
    ensures known { (db : Db) (ranges : Ranges) → B.schema base.old ≡ Some db → name_refusal (scope_of db user.now ranges) (statement.Help name.now) ≡ None
        → Serves (scope_of db user.now ranges) (statement.Help name.now) result }
    ensures kept { B.database base.new ≡ B.database base.old }
    ensures stays { (s : Db) → B.schema base.old ≡ Some s → B.schema base.new ≡ Some s }
    ensures asked { (b : B) → B.asked b base.old → B.asked b base.new }
    ensures cause { HasCheckCause (B.database base.old) (B.faults base.old) (B.faults base.new) result }
{
    match name {
        Some(name) => helped_on_name(alloc, base, user, name),
        None => Ok(helped_on_all(alloc, base, user)?),
    }
}
