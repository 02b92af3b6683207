//! The commands of the monitor.

ghost use Rattle.std.specs.Prelude.{◌≡◌, IfOk, option_map, find, unwrap_or};
ghost use Rattle.std.specs.Str.{bytes_eq};
ghost use Rattle.quel_meaning.specs.Monitor.{Unknown, command_of, names_file, file_name, stripped_at_front, stripped_at_end};
ghost use Rattle.monitor.specs.Seen.{seen_command, given};

use crate::bytes::{copied, is_white};
use calculus::{List, OutOfMemory};
use std::alloc::Global;

/// A command of the monitor.
#[derive(Drop)]
pub enum Command {
    /// The buffer is sent as a batch.
    Go,
    /// The buffer is printed.
    Print,
    /// The buffer is emptied.
    Reset,
    /// The buffer grows on, though it ran.
    Append,
    /// The run ends.
    Quit,
    /// The file of this name is read as a script.
    Include(List<u8>),
    /// The buffer is stored as the file of this name.
    Write(List<u8>),
    /// No command has this word.
    Unknown,
}

/// What a word of the table says.
#[derive(Clone, Copy)]
enum Word {
    /// A buffer is sent.
    Go,
    /// A buffer is printed.
    Print,
    /// A buffer is emptied.
    Reset,
    /// A buffer grows on.
    Append,
    /// A run ends.
    Quit,
    /// A file is read.
    Include,
    /// A file is stored.
    Write,
}

/// The words of the commands.
const WORDS: [(&[u8], Word); 14] = [
    (b"g", Word::Go),
    (b"go", Word::Go),
    (b"p", Word::Print),
    (b"print", Word::Print),
    (b"r", Word::Reset),
    (b"reset", Word::Reset),
    (b"a", Word::Append),
    (b"append", Word::Append),
    (b"q", Word::Quit),
    (b"quit", Word::Quit),
    (b"i", Word::Include),
    (b"include", Word::Include),
    (b"w", Word::Write),
    (b"write", Word::Write),
];

/// What stands beside a word in a table.
fn word_in(table: &[(&[u8], Word)], word: &[u8]) -> Option<Word>
    ensures { result ≡ option_map (λ e. e.1) (find (λ e. bytes_eq e.0.now word.now) table.now) }
{
    table.iter().find(|e| e.0 == word).map(|e| e.1)
}

/// The bytes without the white space at their front.
fn stripped_at_front(bytes: &[u8]) -> &[u8]
    ensures { result.now ≡ stripped_at_front bytes.now }
{
    let mut rest = bytes;
    while let Some((first, later)) = rest.split_first() {
        if !is_white(*first) {
            break;
        }
        rest = later;
    }
    rest
}

/// The bytes without the white space at their end.
fn stripped_at_end(bytes: &[u8]) -> &[u8]
    ensures { result.now ≡ stripped_at_end bytes.now }
{
    let mut rest = bytes;
    while let Some((last, front)) = rest.split_last() {
        if !is_white(*last) {
            break;
        }
        rest = front;
    }
    rest
}

/// The name of the file that the rest of a line gives.
#[tactic(auto, unfolding(quel_meaning::specs::Monitor::file_name))]
fn file_name(rest: &[u8]) -> &[u8]
    ensures { result.now ≡ file_name rest.now }
{
    stripped_at_end(stripped_at_front(rest))
}

/// The command that the word says, with the rest of its line behind it.
fn given(alloc: Global, word: Option<Word>, rest: &[u8]) -> Result<Command, OutOfMemory>
    ensures { IfOk result (λ command. seen_command command ≡ unwrap_or (option_map (given (file_name rest.now)) word) Unknown) }
{
    match word {
        None => Ok(Command::Unknown),
        Some(Word::Go) => Ok(Command::Go),
        Some(Word::Print) => Ok(Command::Print),
        Some(Word::Reset) => Ok(Command::Reset),
        Some(Word::Append) => Ok(Command::Append),
        Some(Word::Quit) => Ok(Command::Quit),
        Some(Word::Include) => Ok(Command::Include(copied(alloc, file_name(rest))?)),
        Some(Word::Write) => Ok(Command::Write(copied(alloc, file_name(rest))?)),
    }
}

/// The command of this word, with the rest of its line behind it.
pub fn command_of(alloc: Global, word: &[u8], rest: &[u8]) -> Result<Command, OutOfMemory>
    ensures { IfOk result (λ command. seen_command command ≡ command_of word.now rest.now) }
{
    let table = WORDS.as_slice();
    let found = word_in(table, word);
    given(alloc, found, rest)
}

/// Whether the command takes the rest of its line as the name of a file.
pub fn names_file(command: &Command) -> bool
    ensures { result ≡ names_file (seen_command command.now) }
{
    match command {
        Command::Include(_) => true,
        Command::Write(_) => true,
        Command::Go => false,
        Command::Print => false,
        Command::Reset => false,
        Command::Append => false,
        Command::Quit => false,
        Command::Unknown => false,
    }
}
