//! The reserved words and the symbols.

ghost use Rattle.std.specs.Prelude.{◌≡◌, ◌<◌, ◌≤◌, length, nat_eq, option_map, IfSome};
ghost use Rattle.std.specs.List.{find, starts_with};
ghost use Rattle.std.specs.Str.{bytes_eq};
ghost use Rattle.quel_grammar.specs.Words.{fixed_of, symbol_at};

use quel_grammar::Fixed;

/// The reserved words.
const WORDS: [(&[u8], Fixed); 30] = [
    (b"all", Fixed::All),
    (b"and", Fixed::And),
    (b"append", Fixed::Append),
    (b"by", Fixed::By),
    (b"copy", Fixed::Copy),
    (b"create", Fixed::Create),
    (b"define", Fixed::Define),
    (b"delete", Fixed::Delete),
    (b"destroy", Fixed::Destroy),
    (b"from", Fixed::From),
    (b"help", Fixed::Help),
    (b"index", Fixed::Index),
    (b"integrity", Fixed::Integrity),
    (b"into", Fixed::Into),
    (b"is", Fixed::Is),
    (b"modify", Fixed::Modify),
    (b"not", Fixed::Not),
    (b"of", Fixed::Of),
    (b"on", Fixed::On),
    (b"or", Fixed::Or),
    (b"permit", Fixed::Permit),
    (b"print", Fixed::Print),
    (b"range", Fixed::Range),
    (b"replace", Fixed::Replace),
    (b"retrieve", Fixed::Retrieve),
    (b"sort", Fixed::Sort),
    (b"to", Fixed::To),
    (b"unique", Fixed::Unique),
    (b"view", Fixed::View),
    (b"where", Fixed::Where),
];

/// The symbols, those of two bytes first.
const SYMBOLS: [(&[u8], Fixed); 16] = [
    (b"!=", Fixed::NotEqual),
    (b"<=", Fixed::LessEqual),
    (b">=", Fixed::GreaterEqual),
    (b"**", Fixed::Power),
    (b"(", Fixed::Open),
    (b")", Fixed::Close),
    (b",", Fixed::Comma),
    (b".", Fixed::Dot),
    (b":", Fixed::Colon),
    (b"=", Fixed::Equal),
    (b"<", Fixed::Less),
    (b">", Fixed::Greater),
    (b"+", Fixed::Plus),
    (b"-", Fixed::Minus),
    (b"*", Fixed::Times),
    (b"/", Fixed::Divide),
];

/// The mark in a table whose spelling the word is.
fn equal_in(word: &[u8], table: &[(&[u8], Fixed)]) -> Option<Fixed>
    ensures { result ≡ option_map (λ e. e.1) (find (λ e. bytes_eq e.0.now word.now) table.now) }
{
    table.iter().find(|e| e.0 == word).map(|e| e.1)
}

/// The first mark in a table whose spelling stands at the front, and the spelling's length.
fn front_in(text: &[u8], table: &[(&[u8], Fixed)]) -> Option<(Fixed, usize)>
    ensures { result ≡ option_map (λ e. (e.1, length e.0.now)) (find (λ e. starts_with nat_eq text.now e.0.now) table.now) }
{
    table
        .iter()
        .find(|e| text.starts_with(e.0))
        .map(|e| (e.1, e.0.len()))
}

/// The reserved word that a word in lower case is.
pub fn fixed_of(word: &[u8]) -> Option<Fixed>
    ensures { result ≡ fixed_of word.now }
{
    let table = WORDS.as_slice();
    equal_in(word, table)
}

/// The longest symbol at the front of a text, and its length in bytes.
pub fn symbol_at(text: &[u8]) -> Option<(Fixed, usize)>
    ensures symbol { result ≡ symbol_at text.now }
    ensures within { IfSome result (λ s. (0 < s.1) × (s.1 ≤ length text.now)) }
{
    let table = SYMBOLS.as_slice();
    front_in(text, table)
}
