//! Laws on files that are copied from. Each function here is a law with no body: its clauses speak of
//! the definitions alone.

ghost use Rattle.std.specs.Prelude.{◌≡◌, ◌↔◌, ℕ, List, [], ◌∷◌, ◌++◌, IsTrue, Ok, Err};
ghost use Rattle.std.specs.List.{list_all};
ghost use Rattle.calculus.specs.declared.value.Kind.{Kind};
ghost use Rattle.calculus.specs.declared.value.Value.{Value};
ghost use Rattle.calculus.specs.declared.request.CopyCol.{CopyCol};
ghost use Rattle.calculus.specs.Rows.{Row};
ghost use Rattle.calculus.specs.Lists.{is_any};
ghost use Rattle.quel_meaning.specs.Columns.{is_copy_form};
ghost use Rattle.quel_meaning.specs.Copying.{record_row, rows_in_file};
ghost use Rattle.reading_laws.specs.Records.{IsRecord, IsEndedRecord, IsFileOf, BeginsWithNone, row_before};

/// A record of a copied file is read, and then those behind it. Where there is no byte left, nothing is
/// read; where a record stands in front, its row is, and then what is read of the bytes behind it; where
/// the end of the file ends a record, its row is the last; and where no record stands in front, the next
/// row is bad. So a file is read exactly where it is one of rows, and these are read.
pub fn a_copied_file_is_read_record_by_record()
    ensures nothing_left { (kinds : List Kind) (columns : List CopyCol) → rows_in_file kinds columns [] ≡ Ok [] }
    ensures record_in_front { (kinds : List Kind) (columns : List CopyCol) (front rest : List ℕ) (values : List Value)
        → IsTrue (is_any columns) → IsTrue (list_all (λ c. is_copy_form c.form) columns) → IsRecord kinds columns front values
        → rows_in_file kinds columns (front ++ rest) ≡ row_before (record_row kinds columns values) (rows_in_file kinds columns rest) }
    ensures last_record { (kinds : List Kind) (columns : List CopyCol) (file : List ℕ) (values : List Value)
        → IsTrue (is_any file) → IsEndedRecord kinds columns file values → rows_in_file kinds columns file ≡ Ok (record_row kinds columns values ∷ []) }
    ensures bad_record { (kinds : List Kind) (columns : List CopyCol) (file : List ℕ)
        → IsTrue (is_any file) → BeginsWithNone kinds columns file → rows_in_file kinds columns file ≡ Err 1 }
    ensures whole_file { (kinds : List Kind) (columns : List CopyCol) (file : List ℕ) (rows : List Row)
        → IsTrue (is_any columns) → IsTrue (list_all (λ c. is_copy_form c.form) columns)
        → rows_in_file kinds columns file ≡ Ok rows ↔ IsFileOf kinds columns file rows }
{}
