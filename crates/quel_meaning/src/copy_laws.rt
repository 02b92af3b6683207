//! What copies between relations and files keep.

ghost use Rattle.std.specs.Prelude.{◌≡◌, ℕ, List, IsTrue, length, map, Ok};
ghost use Rattle.std.specs.List.{list_all};
ghost use Rattle.calculus.specs.declared.schema.Attr.{Attr};
ghost use Rattle.calculus.specs.declared.request.CopyCol.{CopyCol};
ghost use Rattle.calculus.specs.Rows.{Row};
ghost use Rattle.calculus.specs.Lists.{is_any};
ghost use Rattle.calculus.specs.IsDatabase.{row_fits};
ghost use Rattle.quel_meaning.specs.Columns.{is_copy_form};
ghost use Rattle.quel_meaning.specs.CopiedBack.{kinds_of, copied_row, ListsAll};
ghost use Rattle.quel_meaning.specs.Copying.{rows_in_file, file_of_rows};

/// What a copy into a file writes, a copy from it by the same columns reads: the values of the columns,
/// and 0 or the empty text for every other attribute. Where the columns list every attribute, it reads
/// the rows that were written. The rows are ones of the relation, each value fitting its attribute.
pub fn a_copy_is_read_back()
    ensures columns { (attrs : List Attr) (columns : List CopyCol) (rows : List Row) (bytes : List ℕ)
        → IsTrue (is_any columns) → IsTrue (list_all (λ c. is_copy_form c.form) columns) → IsTrue (list_all (row_fits attrs) rows)
        → file_of_rows columns rows ≡ Ok bytes → rows_in_file (kinds_of attrs) columns bytes ≡ Ok (map (copied_row attrs columns) rows) }
    ensures rows { (attrs : List Attr) (columns : List CopyCol) (rows : List Row) (bytes : List ℕ)
        → IsTrue (is_any columns) → IsTrue (list_all (λ c. is_copy_form c.form) columns) → ListsAll (length attrs) columns → IsTrue (list_all (row_fits attrs) rows)
        → file_of_rows columns rows ≡ Ok bytes → rows_in_file (kinds_of attrs) columns bytes ≡ Ok rows }
{}
