//! The domains of attributes, and the forms of columns that are copied.

ghost use Rattle.std.specs.Prelude.{◌≡◌, ℕ, List, Option};
ghost use Rattle.std.specs.List.{list_all};
ghost use Rattle.calculus.specs.Name.{is_digit};
ghost use Rattle.quel_grammar.specs.PartReaders.{width_of, number_formats, copy_forms, named_at};
ghost use Rattle.quel_grammar.specs.Reading.{expect, on_name, look_up};
ghost use Rattle.quel_grammar.specs.Statements.{is_width};
ghost use Rattle.quel_parse.specs.Parts.{width_from};
ghost use Rattle.quel_terms.specs.View.{Gives};

use crate::lists::Listed;
use calculus::{CopyForm, Domain, Name};
use quel_grammar::{Fixed, Token};
use quel_lexer::number_of;
use quel_terms::{Halt, Read, after, look_up, name_at};
use std::alloc::Global;

/// The greatest width of a text.
const WIDEST: u64 = 255;

/// The names of the domains of numbers.
const FORMATS: [(&[u8], Domain); 3] = [
    (b"i1", Domain::I1),
    (b"i2", Domain::I2),
    (b"i4", Domain::I4),
];

/// The names of the copy forms without a width.
const COPY_FORMS: [(&[u8], CopyForm); 8] = [
    (b"i1", CopyForm::Bin(1)),
    (b"i2", CopyForm::Bin(2)),
    (b"i4", CopyForm::Bin(4)),
    (b"c0tab", CopyForm::Until(b'\t')),
    (b"c0nl", CopyForm::Until(b'\n')),
    (b"c0sp", CopyForm::Until(b' ')),
    (b"c0comma", CopyForm::Until(b',')),
    (b"c0colon", CopyForm::Until(b':')),
];

/// Whether all bytes are digits.
fn are_digits(digits: &[u8]) -> bool
    ensures { result ≡ list_all is_digit digits.now }
{
    digits.iter().all(|byte| byte.is_ascii_digit())
}

/// The number from 1 to 255 that these digits are, without a zero before it.
fn width_from(digits: &[u8]) -> Option<u8>
    ensures { result ≡ width_from digits.now }
{
    let [first, ..] = digits else {
        return None;
    };
    if *first == b'0' || !are_digits(digits) {
        return None;
    }
    let number = number_of(digits);
    if number > WIDEST {
        return None;
    }
    Some(number as u8)
}

/// The number behind the `c` of a name, from 1 to 255.
fn width_of(word: &[u8]) -> Option<u8>
    ensures { result ≡ width_of word.now }
{
    match word {
        [b'c', digits @ ..] => width_from(digits),
        _ => None,
    }
}

/// The domain of numbers that a word names.
fn number_format_of(word: &[u8]) -> Option<Domain>
    ensures { result ≡ look_up number_formats word.now }
{
    let table = FORMATS.as_slice();
    look_up(table, word)
}

/// The copy form without a width that a word names.
fn plain_copy_form_of(word: &[u8]) -> Option<CopyForm>
    ensures { result ≡ look_up copy_forms word.now }
{
    let table = COPY_FORMS.as_slice();
    look_up(table, word)
}

/// What a word names behind a name and `=`.
pub(crate) trait Named {
    /// What a word names.
    ghost named: { List ℕ → Option Self };

    /// What the word names.
    fn of_word(word: &[u8]) -> Option<Self>
        ensures { result ≡ named word.now };
}

impl Named for Domain {
    ghost use Rattle.quel_grammar.specs.PartReaders.{format_of};

    ghost named = { format_of };

    fn of_word(word: &[u8]) -> Option<Domain> {
        match width_of(word) {
            Some(width) => Some(Domain::C(width)),
            None => number_format_of(word),
        }
    }
}

impl Named for CopyForm {
    ghost use Rattle.quel_grammar.specs.PartReaders.{copy_form_of};

    ghost named = { copy_form_of };

    fn of_word(word: &[u8]) -> Option<CopyForm> {
        match width_of(word) {
            Some(width) => Some(CopyForm::Fixed(width)),
            None => plain_copy_form_of(word),
        }
    }
}

/// A word that names something, which must stand there.
fn word_at<T: Named + Copy>(tokens: &[Token]) -> Read<'_, T>
    ensures { Gives (λ x. (x.0, x.1.now)) result (expect (on_name T.named) tokens.now) }
{
    let [Token::Name(word), rest @ ..] = tokens else {
        return Err(Halt::Stop(tokens));
    };
    match T::of_word(word.bytes()) {
        Some(named) => Ok((named, rest)),
        None => Err(Halt::Stop(tokens)),
    }
}

/// A name, `=`, and a word that names something.
#[tactic(auto, unfolding(quel_grammar::specs::PartReaders::named_at))]
fn named_at<'a, T: Named + Copy>(alloc: Global, tokens: &'a [Token]) -> Read<'a, (Name, T)>
    ensures { Gives (λ x. (x.0, x.1.now)) result (named_at T.named tokens.now) }
{
    match name_at(alloc, tokens) {
        Ok((name, rest)) => match after(Fixed::Equal, rest) {
            Ok(rest) => match word_at(rest) {
                Ok((named, rest)) => Ok(((name, named), rest)),
                Err(halt) => Err(halt),
            },
            Err(halt) => Err(halt),
        },
        Err(halt) => Err(halt),
    }
}

/// An attribute with its domain.
impl Listed for (Name, Domain) {
    ghost use Rattle.quel_grammar.specs.PartReaders.{format_of, named_at};

    ghost reader = { λ _. named_at format_of };

    fn read<'a>(alloc: Global, _depth: u16, tokens: &'a [Token]) -> Read<'a, (Name, Domain)> {
        named_at(alloc, tokens)
    }
}

/// A column with its form.
impl Listed for (Name, CopyForm) {
    ghost use Rattle.quel_grammar.specs.PartReaders.{copy_form_of, named_at};

    ghost reader = { λ _. named_at copy_form_of };

    fn read<'a>(alloc: Global, _depth: u16, tokens: &'a [Token]) -> Read<'a, (Name, CopyForm)> {
        named_at(alloc, tokens)
    }
}
