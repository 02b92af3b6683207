//! The lines of places of a text that follow each other.

ghost use Rattle.std.specs.Prelude.{◌≡◌, ◌==◌, ◌+◌, ◌≤◌, ℕ, List, min, length, filter, take, drop};
ghost use Rattle.quel_grammar.specs.Next.{line_at};
ghost use Rattle.stage_parse.specs.Counted.{newlines, IsCounted};

/// How many newlines stand before a place of a text.
#[derive(Clone, Copy)]
pub(crate) struct Counted {
    pub(crate) place: usize,
    pub(crate) newlines: usize,
}

fn newlines(text: &[u8]) -> usize
    ensures { result ≡ newlines text.now }
{
    text.iter().filter(|byte| **byte == b'\n').count()
}

/// What stands before a place of a text.
fn before(text: &[u8], place: usize) -> &[u8]
    ensures { result.now ≡ take place text.now }
{
    if place > text.len() {
        return text;
    }
    text.split_at(place).0
}

/// What stands from a place of a text on.
fn behind(text: &[u8], place: usize) -> &[u8]
    ensures { result.now ≡ drop place text.now }
{
    if place > text.len() {
        return &[];
    }
    text.split_at(place).1
}

/// The number of the line behind so many newlines.
fn line_behind(newlines: usize) -> u32
    ensures { result ≡ min (1 + newlines) 4294967295 }
{
    if newlines >= u32::MAX as usize {
        return u32::MAX;
    }
    newlines as u32 + 1
}

impl Counted {
    /// At the begin of any text.
    pub(crate) fn new() -> Counted
        ensures { (text : List ℕ) → IsCounted text result }
    {
        Counted {
            place: 0,
            newlines: 0,
        }
    }

    /// At another place of the text. Looks only at what stands between, where it is further behind.
    pub(crate) fn at(self, text: &[u8], place: usize) -> Counted
        requires { IsCounted text.now self }
        ensures counted { IsCounted text.now result }
        ensures place { result.place ≡ place }
    {
        let front = before(text, place);
        if place < self.place {
            return Counted {
                place,
                newlines: newlines(front),
            };
        }
        let more = newlines(behind(front, self.place));
        Counted {
            place,
            newlines: self.newlines + more,
        }
    }

    /// The line of this place.
    #[tactic(auto, unfolding(quel_grammar::specs::Next::line_at))]
    pub(crate) fn line(self, text: &[u8]) -> u32
        requires { IsCounted text.now self }
        ensures { result ≡ line_at text.now self.place }
    {
        let _text = text;
        line_behind(self.newlines)
    }
}
