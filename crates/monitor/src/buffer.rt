//! The query buffer.

ghost use Rattle.std.specs.Prelude.{◌≡◌, ◌++◌, ◌+◌, ◌≤◌, length, vec_len, vec_capacity, OnOk, OnErr, IsOk};
ghost use Rattle.quel_meaning.specs.Buffer.{empty_buffer, with_newline, with_piece, buffer_after};
ghost use Rattle.monitor.specs.Seen.{seen_command};

use crate::bytes::{are_white, ends_line};
use crate::command::Command;
use calculus::OutOfMemory;
use std::alloc::Global;
use std::marker::Model;

/// The query buffer: the text that the monitor collects, and the mark that it ran.
pub struct Buffer {
    text: Vec<u8>,
    ran: bool,
}

impl Drop for Buffer {
    fn drop(self) {
        let Self { text: _, ran: _ } = self;
    }
}

impl Model for Buffer {
    ghost use Rattle.quel_meaning.specs.Buffer.{Buffer as Seen};

    ghost Value = { Seen };

    ghost view = { λ b. record { text = b.text.items; ran = b.ran } };
}

/// Adds a piece, and a newline where it has none at its end.
fn push_line(text: &mut Vec<u8>, piece: &[u8]) -> Result<(), OutOfMemory>
    ensures text { OnOk result (text.new.items ≡ text.old.items ++ with_newline piece.now) }
    ensures room { vec_len text.old + length piece.now + 1 ≤ vec_capacity text.old → IsOk result }
{
    text.extend_from_slice(piece)?;
    if !ends_line(piece) {
        text.push(b'\n')?;
    }
    Ok(())
}

impl Buffer {
    /// A buffer with nothing in it.
    pub fn new(alloc: Global) -> Buffer
        ensures { result ≡ empty_buffer }
    {
        Buffer {
            text: Vec::new(alloc),
            ran: false,
        }
    }

    /// Its text.
    pub fn text(&self) -> &[u8]
        ensures { result.now ≡ self.now.text }
    {
        &self.text
    }

    /// Puts a piece of a line behind the text, or in place of it where that ran; a piece of white
    /// space alone is dropped. Where there is no room the buffer stays as it is.
    #[tactic(auto, unfolding(quel_meaning::specs::Buffer::with_piece))]
    pub fn put_piece(&mut self, piece: &[u8]) -> Result<(), OutOfMemory>
        ensures ok { OnOk result (self.new ≡ with_piece self.old piece.now) }
        ensures err { OnErr result (self.new ≡ self.old) }
    {
        if are_white(piece) {
            return Ok(());
        }
        self.text.reserve(piece.len() + 1)?;
        if self.ran {
            self.text.clear();
        }
        push_line(&mut self.text, piece)?;
        self.ran = false;
        Ok(())
    }

    /// What a command does to the buffer: one that sends it sets the mark that it ran, one that empties
    /// it and one that lets it grow take the mark off.
    #[tactic(auto, unfolding(quel_meaning::specs::Buffer::buffer_after))]
    pub fn after(&mut self, command: &Command)
        ensures { self.new ≡ buffer_after (seen_command command.now) self.old }
    {
        match command {
            Command::Go => self.ran = true,
            Command::Reset => {
                self.text.clear();
                self.ran = false;
            }
            Command::Append => self.ran = false,
            Command::Print => {}
            Command::Quit => {}
            Command::Include(_) => {}
            Command::Write(_) => {}
            Command::Unknown => {}
        }
    }
}
