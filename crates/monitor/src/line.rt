//! The parts of a line.

ghost use Rattle.std.specs.Prelude.{◌≡◌, ◌<◌, ◌≤◌, ◌++◌, [], length, map, take, drop, slice_index, true, IfOk, OnOk};
ghost use Rattle.quel_meaning.specs.Monitor.{Plain, begins_command, quoting_after, has_no_command, quoting_behind, before_parts, order_before, command_of, word_length, parts_of};
ghost use Rattle.monitor.specs.Seen.{seen_part, seen_quoting};

use crate::bytes::{copied, word_length};
use crate::command::{Command, command_of, names_file};
use calculus::{List, OutOfMemory};
use std::alloc::Global;

/// A part of a line.
#[derive(Drop)]
pub enum Part {
    /// A piece of text.
    Piece(List<u8>),
    /// A command.
    Order(Command),
}

/// What the bytes of a line up to a place leave open.
#[derive(Clone, Copy)]
enum Quoting {
    /// Nothing.
    Plain,
    /// A text constant.
    Quoted,
    /// A text constant, whose last byte is a backslash that takes the next byte with it.
    Escaped,
}

/// What is open behind a byte.
fn quoting_after(quoting: Quoting, byte: u8) -> Quoting
    ensures { seen_quoting result ≡ quoting_after (seen_quoting quoting) byte }
{
    match quoting {
        Quoting::Plain if byte == b'"' => Quoting::Quoted,
        Quoting::Plain => Quoting::Plain,
        Quoting::Quoted if byte == b'"' => Quoting::Plain,
        Quoting::Quoted if byte == b'\\' => Quoting::Escaped,
        Quoting::Quoted => Quoting::Quoted,
        Quoting::Escaped => Quoting::Quoted,
    }
}

/// Whether the byte begins a command.
fn begins_command(quoting: Quoting, byte: u8) -> bool
    ensures { result ≡ begins_command (seen_quoting quoting) byte }
{
    match quoting {
        Quoting::Plain => byte == b'\\',
        Quoting::Quoted => false,
        Quoting::Escaped => false,
    }
}

/// How many bytes stand before the first command; all of them where there is none.
fn piece_length(line: &[u8]) -> usize
    ensures within { result ≤ length line.now }
    ensures free { has_no_command Plain (take result line.now) ≡ true }
    ensures closed { result < length line.now → quoting_behind Plain (take result line.now) ≡ Plain }
    ensures command { result < length line.now → slice_index line.now result ≡ 92 }
{
    let mut quoting = Quoting::Plain;
    for (i, byte) in line.iter().enumerate() {
        if begins_command(quoting, *byte) {
            return i;
        }
        quoting = quoting_after(quoting, *byte);
    }
    line.len()
}

/// Adds a piece, if it has a byte.
fn push_piece(alloc: Global, parts: &mut Vec<Part>, piece: &[u8]) -> Result<(), OutOfMemory>
    ensures { OnOk result (map seen_part parts.new.items ≡ map seen_part parts.old.items ++ before_parts piece.now []) }
{
    if !piece.is_empty() {
        parts.push(Part::Piece(copied(alloc, piece)?))?;
    }
    Ok(())
}

/// Adds the command whose word stands at the front. Gives what is behind its word, and nothing where
/// the command takes it as the name of a file.
fn push_order<'l>(
    alloc: Global,
    parts: &mut Vec<Part>,
    line: &'l [u8],
) -> Result<&'l [u8], OutOfMemory>
    ensures parts { IfOk result (λ rest. map seen_part parts.new.items ++ parts_of rest.now
        ≡ map seen_part parts.old.items ++ order_before (command_of (take (word_length line.now) line.now) (drop (word_length line.now) line.now)) (parts_of (drop (word_length line.now) line.now))) }
    ensures shorter { IfOk result (λ rest. length rest.now ≤ length line.now) }
{
    let (word, behind) = line.split_at(word_length(line));
    let command = command_of(alloc, word, behind)?;
    let is_last = names_file(&command);
    parts.push(Part::Order(command))?;
    if is_last {
        return Ok(&[]);
    }
    Ok(behind)
}

/// Adds the parts up to and with the first command, and gives what is left of the line behind them.
fn push_front<'l>(
    alloc: Global,
    parts: &mut Vec<Part>,
    line: &'l [u8],
) -> Result<&'l [u8], OutOfMemory>
    ensures parts { IfOk result (λ rest. map seen_part parts.new.items ++ parts_of rest.now ≡ map seen_part parts.old.items ++ parts_of line.now) }
    ensures shorter { IfOk result (λ rest. 0 < length line.now → length rest.now < length line.now) }
{
    let (piece, behind) = line.split_at(piece_length(line));
    push_piece(alloc, parts, piece)?;
    match behind.split_first() {
        None => Ok(behind),
        Some((_, later)) => push_order(alloc, parts, later),
    }
}

/// The parts of a line: pieces of text, and commands.
pub fn parts_of(alloc: Global, line: &[u8]) -> Result<Vec<Part>, OutOfMemory>
    ensures { IfOk result (λ parts. map seen_part parts.items ≡ parts_of line.now) }
{
    let mut parts = Vec::new(alloc);
    let mut rest = line;
    while !rest.is_empty() {
        rest = push_front(alloc, &mut parts, rest)?;
    }
    Ok(parts)
}
