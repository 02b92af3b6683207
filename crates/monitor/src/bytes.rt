//! White space, letters, and copies of bytes.

ghost use Rattle.std.specs.Prelude.{◌≡◌, ◌≤◌, length, IfOk};
ghost use Rattle.std.specs.List.{list_all};
ghost use Rattle.std.specs.Io.BufRead.{ends_with_byte};
ghost use Rattle.quel_grammar.specs.Lexer.{is_white};
ghost use Rattle.quel_meaning.specs.Monitor.{is_command_letter, word_length};

use calculus::{List, OutOfMemory};
use std::alloc::Global;

/// Whether the byte is a blank, a tab, a newline or a carriage return.
pub fn is_white(byte: u8) -> bool
    ensures { result ≡ is_white byte }
{
    matches!(byte, b' ' | b'\t' | b'\n' | b'\r')
}

/// Whether there is nothing but white space.
pub fn are_white(bytes: &[u8]) -> bool
    ensures { result ≡ list_all is_white bytes.now }
{
    bytes.iter().all(|b| is_white(*b))
}

/// Whether the last byte is a newline.
pub fn ends_line(bytes: &[u8]) -> bool
    ensures { result ≡ ends_with_byte 10 bytes.now }
{
    match bytes.last() {
        None => false,
        Some(last) => *last == b'\n',
    }
}

/// Whether the byte is a letter a to z.
fn is_command_letter(byte: u8) -> bool
    ensures { result ≡ is_command_letter byte }
{
    b'a' <= byte && byte <= b'z'
}

/// How many letters a to z stand at the front.
pub fn word_length(bytes: &[u8]) -> usize
    ensures length { result ≡ word_length bytes.now }
    ensures within { result ≤ length bytes.now }
{
    bytes.iter().take_while(|b| is_command_letter(**b)).count()
}

/// The bytes in a list of their own.
pub fn copied(alloc: Global, bytes: &[u8]) -> Result<List<u8>, OutOfMemory>
    ensures { IfOk result (λ list. list ≡ bytes.now) }
{
    Ok(List::of(Vec::from_slice(alloc, bytes)?))
}
