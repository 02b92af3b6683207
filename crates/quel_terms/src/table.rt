//! Looks a word up.

ghost use Rattle.std.specs.Prelude.{◌≡◌, map, option_map};
ghost use Rattle.std.specs.List.{find};
ghost use Rattle.std.specs.Str.{bytes_eq};
ghost use Rattle.quel_grammar.specs.Reading.{look_up};

/// The value beside the first spelling in the table that is the word.
fn beside<T: Copy>(table: &[(&[u8], T)], word: &[u8]) -> Option<T>
    ensures { result ≡ option_map (λ e. e.1) (find (λ e. bytes_eq word.now e.0.now) table.now) }
{
    table.iter().find(|e| word == e.0).map(|e| e.1)
}

/// What the table has for a word.
pub fn look_up<T: Copy>(table: &[(&[u8], T)], word: &[u8]) -> Option<T>
    ensures { result ≡ look_up (map (λ e. (e.0.now, e.1)) table.now) word.now }
{
    beside(table, word)
}
