//! Answers in the words of tuple calculus.

ghost use Rattle.std.specs.Prelude.{◌↔◌, IsTrue};
ghost use Rattle.std.specs.List.{Contains};
ghost use Rattle.calculus.specs.declared.query.Query.{Query};
ghost use Rattle.calculus.specs.Rows.{Row, Ascends};
ghost use Rattle.calculus.specs.Term.{Env};
ghost use Rattle.calculus.specs.Who.{Who};
ghost use Rattle.calculus.specs.Database.{Db};
ghost use Rattle.calculus.specs.Assignments.{Source, assigned};
ghost use Rattle.calculus.specs.Answer.{answer, lacks};
ghost use Rattle.calculus_laws.specs.TupleCalculus.{IsAssignment, IsAskedFor, IsLacking};

/// The assignments of a query are those that have one row for each of its variables, one of those that the
/// variable has for the attributes of it that are used, and the empty row where none is used; no others are.
pub fn assignments_have_a_row_for_each_variable()
    ensures { (source : Source) (q : Query) (e : Env) → Contains (assigned source q) e ↔ IsAssignment source q e }
{}

/// A row is in the answer of a query exactly where there is an assignment in which the qualification holds
/// and the targets have the values of the row. The answer is a set, so there is only one such. And the
/// query lacks a value exactly where there is an assignment in which the qualification holds and a target
/// has no value.
pub fn an_answer_has_what_is_asked_for()
    ensures rows { (db : Db) (who : Who) (q : Query) (row : Row) → Contains (answer db who q) row ↔ IsAskedFor db who q row }
    ensures set { (db : Db) (who : Who) (q : Query) → Ascends (answer db who q) }
    ensures lack { (db : Db) (who : Who) (q : Query) → IsTrue (lacks db who q) ↔ IsLacking db who q }
{}
