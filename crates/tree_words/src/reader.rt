ghost use Rattle.std.specs.Prelude.{◌≡◌, ◌∷◌, ◌<◌, [], length, MatchResult};
ghost use Rattle.tree_words.specs.declared.fault.Fault.TheVariants.{Wrong};

use crate::Fault;
use std::marker::Model;

/// Bytes that are read from the front. Contracts see those that are left.
#[derive(Drop)]
pub struct Reader<'a> {
    rest: &'a [u8],
}

impl<'a> Model for Reader<'a> {
    ghost use Rattle.std.specs.Prelude.{List, ℕ};

    ghost Value = { List ℕ };

    ghost view = { λ reader. reader.rest.now };
}

impl<'a> Reader<'a> {
    /// A reader of these bytes.
    pub fn of(bytes: &'a [u8]) -> Reader<'a>
        ensures { result ≡ bytes.now }
    {
        Reader { rest: bytes }
    }

    /// The next byte. At the end the bytes are too few, and the reader is left as it is.
    pub fn byte(&mut self) -> Result<u8, Fault>
        ensures { MatchResult result (λ b. (self.old ≡ b ∷ self.new) × (b < 256)) (λ e. (self.old ≡ []) × (self.new ≡ []) × (e ≡ Wrong 0)) }
    {
        match self.rest.split_first() {
            Some((first, rest)) => {
                self.rest = rest;
                Ok(*first)
            }
            None => Err(Fault::Wrong(0)),
        }
    }

    /// How many bytes are left.
    pub fn left(&self) -> usize
        ensures { result ≡ length self.now }
    {
        self.rest.len()
    }

    /// The bytes that are left.
    pub fn rest(&self) -> &'a [u8]
        ensures { result.now ≡ self.now }
    {
        self.rest
    }
}
