//! The lines of a text.

ghost use Rattle.std.specs.Prelude.{◌≡◌, ◌==◌, ◌+◌, min, length, filter, take};
ghost use Rattle.quel_grammar.specs.Next.{line_at};

/// What stands before a place of a text.
fn before(text: &[u8], at: usize) -> &[u8]
    ensures { result.now ≡ take at text.now }
{
    if at > text.len() {
        return text;
    }
    text.split_at(at).0
}

/// How many newlines the text has.
fn newlines(text: &[u8]) -> usize
    ensures { result ≡ length (filter (λ b. b == 10) text.now) }
{
    text.iter().filter(|byte| **byte == b'\n').count()
}

/// The number of the line behind so many newlines.
fn behind_newlines(newlines: usize) -> u32
    ensures { result ≡ min (1 + newlines) 4294967295 }
{
    if newlines >= u32::MAX as usize {
        return u32::MAX;
    }
    newlines as u32 + 1
}

/// The line of a place of a text: 1 and as many as there are newlines before it, at most
/// 4,294,967,295.
#[tactic(auto, unfolding(quel_grammar::specs::Next::line_at))]
pub fn line_at(text: &[u8], at: usize) -> u32
    ensures { result ≡ line_at text.now at }
{
    behind_newlines(newlines(before(text, at)))
}
