//! The rows of permits and rules that are dropped.

ghost use Rattle.std.specs.Prelude.{◌≡◌, [], filter, OnOk};
ghost use Rattle.std.specs.List.{flat_map};
ghost use Rattle.calculus.specs.Database.{rules_on, permits_on};
ghost use Rattle.calculus.specs.IsDatabase.{IsDatabase};
ghost use Rattle.calculus.specs.Lists.{has_number};
ghost use Rattle.plain_base.specs.Shown.{database_of};
ghost use Rattle.quel_tree.specs.Permits.{rule as rule_codec, permit as permit_codec};
ghost use Rattle.stored_database.specs.Parts.{of_rule, of_permit};
ghost use Rattle.stored_database.specs.Trees.{cut, parts_from, tree_bytes};
ghost use Rattle.catalog_moves.specs.Moves.{AreRows};

use crate::asked::{permits, rules};
use crate::rows::SomeRows;
use crate::trees::{put_permits, put_rules};
use calculus::{OutOfMemory, Permit, RelKey, Rule};
use plain_base::DbPlain;
use std::alloc::Global;

/// Whether the number is one of these.
fn is_one(numbers: &[u32], number: u32) -> bool
    ensures { result ≡ has_number numbers.now number }
{
    numbers.iter().any(|other| *other == number)
}

/// The permits with these numbers.
fn permits_of(all: Vec<Permit>, numbers: &[u32]) -> Vec<Permit>
    ensures { result.items ≡ filter (λ p. has_number numbers.now p.number) all.items }
{
    let mut all = all;
    all.retain(|permit| is_one(numbers, permit.number));
    all
}

/// The rules with these numbers.
fn rules_of(all: Vec<Rule>, numbers: &[u32]) -> Vec<Rule>
    ensures { result.items ≡ filter (λ r. has_number numbers.now r.number) all.items }
{
    let mut all = all;
    all.retain(|rule| is_one(numbers, rule.number));
    all
}

/// Writes the rows of permits of a relation with these numbers, where there are no rows.
pub(crate) fn put_dropped_permits(
    alloc: Global,
    plain: &mut DbPlain,
    rows: &mut SomeRows,
    rel: &RelKey,
    numbers: &[u32],
    file: u32,
) -> Result<(), OutOfMemory>
    requires { IsDatabase (database_of plain.old) }
    ensures same { database_of plain.new ≡ database_of plain.old }
    ensures rows { AreRows (record { entries = []; columns = []; parts = [] }) rows.old → OnOk result (AreRows (record {
      entries = [];
      columns = [];
      parts =
          flat_map (λ p. parts_from file of_permit p.number 0 (cut (tree_bytes permit_codec p))) (filter (λ p. has_number numbers.now p.number) (permits_on (database_of plain.old) rel.now));
    }) rows.new) }
{
    let all = permits(alloc, plain, rel)?;
    let gone = permits_of(all, numbers);
    put_permits(alloc, &mut rows.parts, file, gone.as_slice())
}

/// Writes the rows of rules of a relation with these numbers, where there are no rows.
pub(crate) fn put_dropped_rules(
    alloc: Global,
    plain: &mut DbPlain,
    rows: &mut SomeRows,
    rel: &RelKey,
    numbers: &[u32],
    file: u32,
) -> Result<(), OutOfMemory>
    requires { IsDatabase (database_of plain.old) }
    ensures same { database_of plain.new ≡ database_of plain.old }
    ensures rows { AreRows (record { entries = []; columns = []; parts = [] }) rows.old → OnOk result (AreRows (record {
      entries = [];
      columns = [];
      parts =
          flat_map (λ r. parts_from file of_rule r.number 0 (cut (tree_bytes rule_codec r))) (filter (λ r. has_number numbers.now r.number) (rules_on (database_of plain.old) rel.now));
    }) rows.new) }
{
    let all = rules(alloc, plain, rel)?;
    let gone = rules_of(all, numbers);
    put_rules(alloc, &mut rows.parts, file, gone.as_slice())
}
