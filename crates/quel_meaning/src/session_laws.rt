//! What sessions obey.

ghost use Rattle.std.specs.Prelude.{◌≡◌, ◌+◌, ℕ, suc, Bool, true, List, [], ◌∷◌, ◌++◌, length, not};
ghost use Rattle.std.specs.List.{concat, list_all};
ghost use Rattle.calculus.specs.Lists.{is_any};
ghost use Rattle.calculus.specs.Who.{Asker};
ghost use Rattle.calculus.specs.Database.{Db};
ghost use Rattle.quel_grammar.specs.Next.{Reading, IsGrammatical};
ghost use Rattle.quel_meaning.specs.State.{State};
ghost use Rattle.quel_meaning.specs.Lines.{lines_of, is_no_newline};
ghost use Rattle.quel_meaning.specs.Monitor.{Plain, has_no_command, quoting_behind, is_command_letter, word_length, command_of, before_parts, order_before, parts_of};
ghost use Rattle.quel_meaning.specs.Batch.{MovesOn, batch_from, read_on};
ghost use Rattle.quel_meaning.specs.Happening.{Setting, Agree, Event, Kept, quiet, and_then};
ghost use Rattle.quel_meaning.specs.Running.{Deeper, after_lines};
ghost use Rattle.quel_meaning.specs.Session.{Session, files_of, session, session_of, session_of_lines, printed, output, still_printed, databases, replies, ended};

/// The lines of a script, put together again, are the script; each ends with its first newline, which
/// only the last may lack.
pub fn lines_are_the_script()
    ensures together { (script : List ℕ) → concat (lines_of script) ≡ script }
    ensures first { (line rest : List ℕ) → list_all is_no_newline line ≡ true → lines_of ((line ++ 10 ∷ []) ++ rest) ≡ (line ++ 10 ∷ []) ∷ lines_of rest }
    ensures last { (b : ℕ) (line : List ℕ) → list_all is_no_newline (b ∷ line) ≡ true → lines_of (b ∷ line) ≡ (b ∷ line) ∷ [] }
{}

/// A line without a command is one piece. Another is cut at its first command, the first backslash
/// outside text constants: the piece before it, the command by the letters behind the backslash, and
/// what the rest of the line is cut into by itself, unless it is the name of a file.
pub fn a_line_is_cut_at_its_first_command()
    ensures piece { (line : List ℕ) → has_no_command Plain line ≡ true → parts_of line ≡ before_parts line [] }
    ensures command { (piece word rest : List ℕ) → has_no_command Plain piece ≡ true → quoting_behind Plain piece ≡ Plain
        → list_all is_command_letter word ≡ true → word_length rest ≡ 0
        → parts_of (piece ++ (92 ∷ (word ++ rest))) ≡ before_parts piece (order_before (command_of word rest) (parts_of rest)) }
{}

/// What is read of a batch from a place on is what is read next there, and then what is read from the
/// end of that statement on. So it is read to its end, though its definition counts statements. It holds
/// of a reading that moves on through the text, as each does that the grammar allows.
pub fn a_batch_is_read_to_its_end()
    ensures next { (reading : Reading) (text : List ℕ) → MovesOn reading text → (from : ℕ)
        → batch_from reading text from ≡ read_on (batch_from reading text) text from (reading text from) }
    ensures moves { (reading : Reading) → IsGrammatical reading → (text : List ℕ) → MovesOn reading text }
{}

/// Lines one after the other do what the first ones do, and then what the others do from what these
/// left: on what is kept, in what happens, and in what is printed.
pub fn lines_follow_lines()
    ensures steps { (setting : Setting) (deeper : Deeper) (kept : Kept) (lines more : List (List ℕ))
        → after_lines setting deeper kept (lines ++ more) ≡ and_then (after_lines setting deeper kept lines) (λ k. after_lines setting deeper k more) }
    ensures events { (events more : List Event) → printed (events ++ more) ≡ printed events ++ printed more }
    ensures bytes { (setting : Setting) (kept : Kept) (lines more : List (List ℕ))
        → still_printed setting kept (lines ++ more) ≡ still_printed setting kept lines ++ still_printed setting (after_lines setting (files_of setting) kept lines).kept more }
{}

/// Behind the command that ends a session nothing happens.
#[tactic(auto, using(crate::proofs::Agreement::nothing_more))]
pub fn nothing_happens_behind_the_end()
    ensures { (setting : Setting) (deeper : Deeper) (kept : Kept) → kept.quit ≡ true → (lines : List (List ℕ)) → after_lines setting deeper kept lines ≡ quiet kept }
{}

/// The database after a session is the last of its databases: no command changes it, nor what is
/// refused.
#[tactic(auto, using(crate::proofs::LastDatabase::ends_with))]
pub fn only_statements_change_the_database()
    ensures { (setting : Setting) (state : State) (lines : List (List ℕ))
        → (front : List Db) × (databases state.db (session_of_lines setting state lines) ≡ front ++ (session_of_lines setting state lines).state.db ∷ []) }
{}

/// Where all output was taken, the number of the last statement whose reply was taken is that of the
/// last whose reply has a byte, and 0 where none has.
pub fn all_output_ends_the_last_reply()
    ensures last { (session : Session) (front : List (List ℕ)) (reply : List ℕ) (rest : List (List ℕ))
        → replies session ≡ front ++ reply ∷ rest → is_any reply ≡ true → list_all (λ r. not (is_any r)) rest ≡ true
        → ended session (length (output session)) ≡ suc (length front) }
    ensures none { (session : Session) → list_all (λ r. not (is_any r)) (replies session) ≡ true → ended session (length (output session)) ≡ 0 }
{}

/// Readings that are equal everywhere give equal sessions, and so do settings that agree. Two readings
/// that the grammar allows are equal everywhere: so there is one session of a script, whatever reads it.
pub fn equal_readings_give_equal_sessions()
    ensures settings { (s t : Setting) → Agree s t → (state : State) (script : List ℕ) → session_of s state script ≡ session_of t state script }
    ensures readings { (r q : Reading) → ((text : List ℕ) (from : ℕ) → r text from ≡ q text from)
        → (asker : Asker) (state : State) (script : List ℕ) → session r asker state script ≡ session q asker state script }
    ensures grammatical { (r q : Reading) → IsGrammatical r → IsGrammatical q
        → (asker : Asker) (state : State) (script : List ℕ) → session r asker state script ≡ session q asker state script }
{}
