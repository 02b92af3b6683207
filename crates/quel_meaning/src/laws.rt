//! What statements leave as it was, and which rows a table has.

ghost use Rattle.std.specs.Prelude.{◌≡◌, ◌↔◌, ℕ, true, false, List, Some, None, Ok, bytes_eq};
ghost use Rattle.std.specs.List.{Contains};
ghost use Rattle.std.specs.List.Sorted.{IsStrictlySortedBy};
ghost use Rattle.calculus.specs.declared.request.Asked.{Asked};
ghost use Rattle.calculus.specs.declared.request.Checked.TheVariants.{Answer};
ghost use Rattle.calculus.specs.declared.query.RelKey.{RelKey};
ghost use Rattle.calculus.specs.declared.schema.RelInfo.{RelInfo};
ghost use Rattle.calculus.specs.declared.reply.Refusal.{Refusal};
ghost use Rattle.calculus.specs.declared.reply.Reply.TheVariants.{Nothing, Refused};
ghost use Rattle.calculus.specs.declared.statement.Statement.{Statement};
ghost use Rattle.calculus.specs.declared.statement.Statement.TheVariants.{Range};
ghost use Rattle.calculus.specs.Rows.{Row};
ghost use Rattle.calculus.specs.Who.{Who, Asker};
ghost use Rattle.calculus.specs.Database.{Db};
ghost use Rattle.calculus.specs.Finding.{found};
ghost use Rattle.calculus.specs.Answer.{answer};
ghost use Rattle.fault_io.specs.Files.{Files, fetched, stored};
ghost use Rattle.quel_meaning.specs.Ranges.{Ranges, range_of, declared};
ghost use Rattle.quel_meaning.specs.State.{State};
ghost use Rattle.quel_meaning.specs.Tables.{rows_order, table_of};
ghost use Rattle.quel_meaning.specs.Meaning.{Resolving, is_range, refused_outcome, range_outcome, meaning_by};

/// A statement that is refused, whatever for, leaves the database, the shelf and the ranges as they were.
#[tactic(auto, using(crate::proofs::Kept::refused_keeps))]
pub fn a_refusal_changes_nothing()
    ensures { (resolved : Resolving) (state : State) (asker : Asker) (s : Statement) (r : Refusal)
        → (meaning_by resolved state asker s).reply ≡ Refused r → (meaning_by resolved state asker s).state ≡ state }
{}

/// Declaring a range variable prints nothing, and leaves the database and the shelf: the variable ranges
/// over what the user means by the name, and every other one over what it did. A name of nothing is
/// refused. No other statement changes what variables range over.
pub fn range_declares_a_variable()
    ensures known { (resolved : Resolving) (state : State) (asker : Asker) (var rel : List ℕ) (info : RelInfo)
        → found state.db asker.user rel ≡ Some info
        → meaning_by resolved state asker (Range var rel) ≡ record { state = record state { ranges = declared state.ranges var info.key }; reply = Nothing } }
    ensures unknown { (resolved : Resolving) (state : State) (asker : Asker) (var rel : List ℕ)
        → found state.db asker.user rel ≡ None
        → meaning_by resolved state asker (Range var rel) ≡ refused_outcome state 10 }
    ensures itself { (ranges : Ranges) (var : List ℕ) (key : RelKey) → range_of (declared ranges var key) var ≡ Some key }
    ensures others { (ranges : Ranges) (var other : List ℕ) (key : RelKey)
        → bytes_eq var other ≡ false → range_of (declared ranges var key) other ≡ range_of ranges other }
    ensures other_statements { (resolved : Resolving) (state : State) (asker : Asker) (s : Statement)
        → is_range s ≡ false → (meaning_by resolved state asker s).state.ranges ≡ state.ranges }
{}

/// A statement whose tree asks for tables, as `retrieve`, `print` and `help`, changes nothing.
#[tactic(auto, using(crate::proofs::Kept::what_asks_keeps))]
pub fn what_asks_changes_nothing()
    ensures { (resolved : Resolving) (state : State) (asker : Asker) (s : Statement) (asked : List Asked)
        → is_range s ≡ false → resolved state.db asker.user state.ranges s ≡ Ok (Answer asked) → (meaning_by resolved state asker s).state ≡ state }
{}

/// A table has the rows of the query's answer and no others, and they ascend by the columns that are
/// asked for, and by the order of rows where these agree.
pub fn a_table_is_the_answer_in_order()
    ensures rows { (db : Db) (who : Who) (asked : Asked) (row : Row)
        → Contains (table_of db who asked).rows row ↔ Contains (answer db who asked.query) row }
    ensures ascend { (db : Db) (who : Who) (asked : Asked) → IsStrictlySortedBy (rows_order asked.sort) (table_of db who asked).rows }
{}

/// A file has the bytes that were stored in it, and every other one those that it had.
pub fn a_shelf_keeps_files()
    ensures itself { (shelf : Files) (name bytes : List ℕ) → fetched (stored shelf name bytes) name ≡ Some bytes }
    ensures others { (shelf : Files) (name bytes other : List ℕ)
        → bytes_eq other name ≡ false → fetched (stored shelf name bytes) other ≡ fetched shelf other }
{}
