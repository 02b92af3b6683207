//! A batch that is worked off.

ghost use Rattle.std.specs.Prelude.{◌≡◌, [], IfOk};
ghost use Rattle.quel_grammar.specs.Next.{first_offset, line_at};
ghost use Rattle.quel_grammar.specs.NextReader.{next_at};
ghost use Rattle.quel_parse.specs.Next.{Answers};
ghost use Rattle.stage_parse.specs.Counted.{IsCounted};

use crate::counted::Counted;
use calculus::Statement;
use memory::OutOfMemory;
use quel_lexer::first_offset;
use quel_parse::{ParseFault, next_statement};
use std::alloc::Global;
use std::marker::Model;

/// A batch that is worked off, statement by statement. Contracts see its text, and the place from which
/// on it is left. Newlines are counted on from where the statement before began, so all of them are
/// looked at once.
pub struct Walk {
    text: Vec<u8>,
    from: usize,
    counted: Counted,
}

impl Drop for Walk {
    fn drop(self) {
        let Self {
            text: _,
            from: _,
            counted: _,
        } = self;
    }
}

impl Model for Walk {
    ghost use Rattle.quel_network.specs.Sorts.{Batch};
    ghost use Rattle.stage_parse.specs.Counted.{IsCounted};

    ghost Value = { Batch };

    ghost view = { λ w. record { text = w.text.items; from = w.from } };

    ghost invariant = { λ w. IsCounted w.text.items w.counted };
}

impl Walk {
    /// A batch from its begin on.
    pub(crate) fn start(text: Vec<u8>) -> Walk
        ensures { result ≡ record { text = text.items; from = 0 } }
    {
        Walk {
            text,
            from: 0,
            counted: Counted::new(),
        }
    }

    /// A batch of which nothing is left. Takes no memory.
    pub(crate) fn none(alloc: Global) -> Walk
        ensures { result ≡ record { text = []; from = 0 } }
    {
        Walk::start(Vec::new(alloc))
    }

    /// The statement that is read next, and where it ends.
    pub(crate) fn next(&self, alloc: Global) -> Result<Option<(Statement, usize)>, ParseFault>
        ensures { Answers self.now.text (next_at self.now.text self.now.from) result }
    {
        next_statement(alloc, &self.text, self.from)
    }

    /// Where what is read next begins, with the newlines before it.
    pub(crate) fn first(&self, alloc: Global) -> Result<Counted, OutOfMemory>
        ensures counted { IfOk result (λ c. IsCounted self.now.text c) }
        ensures place { IfOk result (λ c. c.place ≡ first_offset self.now.text self.now.from) }
    {
        let first = first_offset(alloc, &self.text, self.from)?;
        Ok(self.counted.at(&self.text, first))
    }

    /// The line of this place.
    pub(crate) fn line(&self, first: Counted) -> u32
        requires { IsCounted self.now.text first }
        ensures { result ≡ line_at self.now.text first.place }
    {
        first.line(&self.text)
    }

    /// The statement that begins there and ends here is left behind.
    pub(crate) fn go_on(&mut self, first: Counted, end: usize)
        requires { IsCounted self.old.text first }
        ensures { self.new ≡ record { text = self.old.text; from = end } }
    {
        self.counted = first;
        self.from = end;
    }
}
