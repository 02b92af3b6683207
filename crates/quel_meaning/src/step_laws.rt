//! How a session goes on, step by step, while files are open that its script includes. By these a program
//! that works off a script piece by piece can say what is still to come.

ghost use Rattle.std.specs.Prelude.{◌≡◌, ◌≤◌, ◌+◌, ℕ, true, false, List, [], ◌∷◌, ◌++◌, length};
ghost use Rattle.std.specs.List.{list_all};
ghost use Rattle.calculus.specs.declared.statement.Statement.{Statement};
ghost use Rattle.quel_grammar.specs.Next.{Nothing, Read, Syntax, line_at};
ghost use Rattle.quel_meaning.specs.Lines.{lines_of};
ghost use Rattle.quel_meaning.specs.Monitor.{Plain, has_no_command, quoting_behind, is_command_letter, word_length, command_of, names_file};
ghost use Rattle.quel_meaning.specs.Buffer.{with_piece};
ghost use Rattle.quel_meaning.specs.Batch.{MovesOn, statement_at, batch_from};
ghost use Rattle.quel_meaning.specs.Happening.{Setting, Kept, quiet, refused, and_then};
ghost use Rattle.quel_meaning.specs.Running.{most_included, after_include, after_command, after_lines, after_statement, after_batch};
ghost use Rattle.quel_meaning.specs.Session.{files_of};
ghost use Rattle.quel_meaning.specs.OpenFiles.{OpenFiles, included_in, after_files, after_rest};

/// Where only the script is open, what is left is its lines. The next line of the innermost file comes
/// next; where that has none, the file around it goes on.
pub fn lines_come_from_the_innermost_file()
    ensures script { (setting : Setting) (kept : Kept) (lines : List (List ℕ)) → after_files setting kept (lines ∷ []) ≡ after_lines setting (files_of setting) kept lines }
    ensures line { (setting : Setting) (kept : Kept) (line : List ℕ) (lines : List (List ℕ)) (files : OpenFiles)
        → after_files setting kept ((line ∷ lines) ∷ files) ≡ after_rest setting kept line (lines ∷ files) }
    ensures end { (setting : Setting) (kept : Kept) (files : OpenFiles) → after_files setting kept ([] ∷ files) ≡ after_files setting kept files }
{}

/// The rest of a line goes to the buffer where it has no command. Else what stands before its first
/// command does, and the command is carried out; then what is behind it runs, which is nothing behind a
/// command that names a file.
pub fn a_line_is_worked_off_command_by_command()
    ensures piece { (setting : Setting) (kept : Kept) (piece : List ℕ) (files : OpenFiles) → has_no_command Plain piece ≡ true → kept.quit ≡ false
        → after_rest setting kept piece files ≡ after_files setting (record kept { buffer = with_piece kept.buffer piece }) files }
    ensures command { (setting : Setting) (kept : Kept) (piece word rest : List ℕ) (files : OpenFiles) → has_no_command Plain piece ≡ true → quoting_behind Plain piece ≡ Plain
        → list_all is_command_letter word ≡ true → word_length rest ≡ 0 → kept.quit ≡ false → names_file (command_of word rest) ≡ false
        → after_rest setting kept (piece ++ (92 ∷ (word ++ rest))) files
        ≡ and_then (after_command setting (included_in setting files) (record kept { buffer = with_piece kept.buffer piece }) (command_of word rest)) (λ k. after_rest setting k rest files) }
    ensures file { (setting : Setting) (kept : Kept) (piece word rest : List ℕ) (files : OpenFiles) → has_no_command Plain piece ≡ true → quoting_behind Plain piece ≡ Plain
        → list_all is_command_letter word ≡ true → word_length rest ≡ 0 → kept.quit ≡ false → names_file (command_of word rest) ≡ true
        → after_rest setting kept (piece ++ (92 ∷ (word ++ rest))) files
        ≡ and_then (after_command setting (included_in setting files) (record kept { buffer = with_piece kept.buffer piece }) (command_of word rest)) (λ k. after_files setting k files) }
{}

/// A file that is included becomes the innermost open file, its bytes counted, where at most eight files
/// are open, the script among them; where nine are open it is refused.
pub fn an_included_file_is_the_innermost()
    ensures opened { (setting : Setting) (kept : Kept) (bytes : List ℕ) (files : OpenFiles) → length files ≤ 8 → kept.included + length bytes ≤ most_included
        → and_then (after_include (included_in setting files) kept bytes) (λ k. after_files setting k files)
        ≡ after_files setting (record kept { included = kept.included + length bytes }) (lines_of bytes ∷ files) }
    ensures too_deep { (setting : Setting) (kept : Kept) (bytes : List ℕ) (files : OpenFiles) → 9 ≤ length files
        → after_include (included_in setting files) kept bytes ≡ refused kept 3 0 }
{}

/// A batch is worked off statement by statement: where nothing is read, nothing is left; a statement runs,
/// and then what is read from its end on; a syntax refusal drops what is left.
pub fn a_batch_is_worked_off_statement_by_statement()
    ensures nothing { (setting : Setting) (text : List ℕ) (from : ℕ) (kept : Kept) → MovesOn setting.reading text → setting.reading text from ≡ Nothing
        → after_batch setting (batch_from setting.reading text from) kept ≡ quiet kept }
    ensures statement { (setting : Setting) (text : List ℕ) (from : ℕ) (kept : Kept) (s : Statement) (end : ℕ) → MovesOn setting.reading text → setting.reading text from ≡ Read s end
        → after_batch setting (batch_from setting.reading text from) kept
        ≡ and_then (after_statement setting kept (statement_at text from s)) (λ k. after_batch setting (batch_from setting.reading text end) k) }
    ensures syntax { (setting : Setting) (text : List ℕ) (from : ℕ) (kept : Kept) (place : ℕ) → MovesOn setting.reading text → setting.reading text from ≡ Syntax place
        → after_batch setting (batch_from setting.reading text from) kept ≡ refused kept 1 (line_at text place) }
{}
