//! Texts, and the text constants of the language as they are written.

ghost use Rattle.std.specs.Prelude.{◌≡◌, IsTrue, IfOk, Some, None, if◌then◌else◌, nat_eq};
ghost use Rattle.std.specs.List.{list_all};
ghost use Rattle.std.specs.Cmp.Lexicographic.{pointwise};
ghost use Rattle.std.specs.Cmp.Rules.{comparing};
ghost use Rattle.std.proofs.Common.{rules};
ghost use Rattle.calculus.specs.Chars.{is_printable, is_chars};
ghost use Rattle.calculus.specs.Text.{is_text, is_blank, trimmed, text_of};

use crate::OutOfMemory;
use std::alloc::Global;
use std::marker::Model;

/// The greatest number of bytes between the quotes of a text constant.
const LONGEST: usize = 255;

/// The bytes between the quotes of a text constant as they are written, escapes included: at most
/// 255, each from 32 to 126. Contracts see its bytes.

pub struct Chars {
    bytes: Vec<u8>,
}

impl Drop for Chars {
    fn drop(self) {
        let Self { bytes: _ } = self;
    }
}

impl Model for Chars {
    ghost use Rattle.std.specs.Prelude.{List, ℕ, IsTrue};
    ghost use Rattle.calculus.specs.Chars.{is_chars};

    ghost Value = { List ℕ };

    ghost view = { λ c. c.bytes.items };

    ghost invariant = { λ c. IsTrue (is_chars c.bytes.items) };
}

/// Whether the byte is from 32 to 126. Takes no memory.
pub fn is_printable(byte: u8) -> bool
    ensures { result ≡ is_printable byte }
{
    32 <= byte && byte <= 126
}

fn are_printable(bytes: &[u8]) -> bool
    ensures { result ≡ list_all is_printable bytes.now }
{
    bytes.iter().all(|b| is_printable(*b))
}

#[tactic(auto, unfolding(crate::specs::Chars::is_chars))]
fn is_chars(bytes: &[u8]) -> bool
    ensures { result ≡ is_chars bytes.now }
{
    let short = bytes.len() <= LONGEST;
    short && are_printable(bytes)
}

impl Chars {
    /// The constant with these bytes between its quotes; `None` exactly where one of them is outside
    /// 32 to 126 or there are more than 255.
    pub fn of(alloc: Global, bytes: &[u8]) -> Result<Option<Chars>, OutOfMemory>
        ensures { IfOk result (λ chars. chars ≡ (if is_chars bytes.now then Some bytes.now else None)) }
    {
        if !is_chars(bytes) {
            return Ok(None);
        }
        let bytes = Vec::from_slice(alloc, bytes)?;
        Ok(Some(Chars { bytes }))
    }

    /// The bytes between the quotes.
    pub fn bytes(&self) -> &[u8]
        ensures bytes { result.now ≡ self.now }
        ensures chars { IsTrue (is_chars self.now) }
    {
        self.bytes.as_slice()
    }

    /// A constant with the same bytes.
    pub fn copy(&self, alloc: Global) -> Result<Chars, OutOfMemory>
        ensures { IfOk result (λ c. c ≡ self.now) }
    {
        let bytes = Vec::from_slice(alloc, &self.bytes)?;
        Ok(Chars { bytes })
    }
}

impl PartialEq for Chars {
    ghost eq = { λ a b. pointwise nat_eq a b };

    ghost laws = { Prim.search (comparing, rules) };

    fn eq(&self, other: &Chars) -> bool {
        self.bytes.as_slice() == other.bytes.as_slice()
    }
}

impl Eq for Chars {
    ghost laws = { Prim.search (comparing, rules) };
}

/// A text: at most 255 bytes, each from 32 to 126, the last of them no blank. Contracts see its bytes.

pub struct Text {
    bytes: Vec<u8>,
}

impl Drop for Text {
    fn drop(self) {
        let Self { bytes: _ } = self;
    }
}

impl Model for Text {
    ghost use Rattle.std.specs.Prelude.{List, ℕ, IsTrue};
    ghost use Rattle.calculus.specs.Text.{is_text};

    ghost Value = { List ℕ };

    ghost view = { λ t. t.bytes.items };

    ghost invariant = { λ t. IsTrue (is_text t.bytes.items) };
}

/// The bytes without the blanks at their end.
fn trimmed(bytes: &[u8]) -> &[u8]
    ensures { result.now ≡ trimmed bytes.now }
{
    let mut rest = bytes;
    while let Some((last, front)) = rest.split_last() {
        if *last != b' ' {
            break;
        }
        rest = front;
    }
    rest
}

impl Text {
    /// The text of these bytes, without the blanks at their end; `None` exactly where a byte is
    /// outside 32 to 126 or more than 255 are left.
    #[tactic(auto, using(crate::proofs::Texts::trimmed_text), unfolding(crate::specs::Text::text_of))]
    pub fn of(alloc: Global, bytes: &[u8]) -> Result<Option<Text>, OutOfMemory>
        ensures { IfOk result (λ text. text ≡ text_of bytes.now) }
    {
        let kept = trimmed(bytes);
        let short = kept.len() <= LONGEST;
        if !(are_printable(bytes) && short) {
            return Ok(None);
        }
        let bytes = Vec::from_slice(alloc, kept)?;
        Ok(Some(Text { bytes }))
    }

    /// The bytes of the text.
    pub fn bytes(&self) -> &[u8]
        ensures bytes { result.now ≡ self.now }
        ensures text { IsTrue (is_text self.now) }
    {
        self.bytes.as_slice()
    }

    /// A text with the same bytes.
    pub fn copy(&self, alloc: Global) -> Result<Text, OutOfMemory>
        ensures { IfOk result (λ t. t ≡ self.now) }
    {
        let bytes = Vec::from_slice(alloc, &self.bytes)?;
        Ok(Text { bytes })
    }
}

impl PartialEq for Text {
    ghost eq = { λ a b. pointwise nat_eq a b };

    ghost laws = { Prim.search (comparing, rules) };

    fn eq(&self, other: &Text) -> bool {
        self.bytes.as_slice() == other.bytes.as_slice()
    }
}

impl Eq for Text {
    ghost laws = { Prim.search (comparing, rules) };
}
