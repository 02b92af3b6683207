//! The files that a script includes, while they are open.

ghost use Rattle.std.specs.Prelude.{◌≡◌, ◌<◌, ◌≤◌, ◌∷◌, [], ℕ, length, drop, option_map, IfOk, OnOk};
ghost use Rattle.std.specs.List.{prefix_len};
ghost use Rattle.fault_io.specs.Shelves.{HasShelfCause};
ghost use Rattle.quel_meaning.specs.Lines.{is_no_newline, lines_of};
ghost use Rattle.monitor.specs.Files.{IsFirst, IsNext};

use calculus::OutOfMemory;
use fault_io::ShelfFault;
use std::alloc::Global;
use std::marker::Model;

/// A file that is open: its bytes, and the place where its next line begins. Contracts see the lines
/// that are left of it.
struct OpenFile {
    bytes: Vec<u8>,
    at: usize,
}

impl Drop for OpenFile {
    fn drop(self) {
        let Self { bytes: _, at: _ } = self;
    }
}

impl Model for OpenFile {
    ghost use Rattle.std.specs.Prelude.{ℕ, List, drop};
    ghost use Rattle.quel_meaning.specs.Lines.{lines_of};

    ghost Value = { List (List ℕ) };

    ghost view = { λ f. lines_of (drop f.at f.bytes.items) };
}

/// What stands from a place of a text on.
fn behind(text: &[u8], place: usize) -> &[u8]
    ensures { result.now ≡ drop place text.now }
{
    if place > text.len() {
        return &[];
    }
    text.split_at(place).1
}

/// How many bytes stand before the first newline of a text.
fn before_newline(text: &[u8]) -> usize
    ensures length { result ≡ prefix_len is_no_newline text.now }
    ensures within { result ≤ length text.now }
{
    text.iter().take_while(|byte| **byte != b'\n').count()
}

/// The first line of a text.
#[tactic(auto, using(crate::proofs::Files::line_with, crate::proofs::Files::line_without))]
fn first_line(text: &[u8]) -> &[u8]
    requires { length text.now ≡ 0 → ⊥ }
    ensures lines { lines_of text.now ≡ result.now ∷ lines_of (drop (length result.now) text.now) }
    ensures within { length result.now ≤ length text.now }
{
    let front = before_newline(text);
    if front < text.len() {
        return text.split_at(front + 1).0;
    }
    text
}

impl OpenFile {
    /// A file whose lines are all left.
    fn new(bytes: Vec<u8>) -> OpenFile
        ensures { result ≡ lines_of bytes.items }
    {
        OpenFile { bytes, at: 0 }
    }

    /// Its next line, which is then no longer left; `None` where it has ended.
    #[tactic(auto, using(crate::proofs::Files::none_of))]
    fn take_line(&mut self, alloc: Global) -> Result<Option<Vec<u8>>, OutOfMemory>
        ensures { IfOk result (λ next. IsFirst self.old (option_map (λ line. line.items) next) self.new) }
    {
        let rest = behind(&self.bytes, self.at);
        if rest.is_empty() {
            return Ok(None);
        }
        let first = first_line(rest);
        let mut line = Vec::new(alloc);
        line.extend_from_slice(first)?;
        self.at += first.len();
        Ok(Some(line))
    }
}

/// The files that are open. Contracts see the lines that are left of each, the innermost file first.
pub(crate) struct OpenFiles {
    /// The innermost last.
    files: Vec<OpenFile>,
}

impl Drop for OpenFiles {
    fn drop(self) {
        let Self { files: _ } = self;
    }
}

impl Model for OpenFiles {
    ghost use Rattle.std.specs.Prelude.{reverse};
    ghost use Rattle.quel_meaning.specs.OpenFiles.{OpenFiles as Seen};

    ghost Value = { Seen };

    ghost view = { λ f. reverse f.files.items };
}

impl OpenFiles {
    /// No file is open.
    pub(crate) fn new(alloc: Global) -> OpenFiles
        ensures { result ≡ [] }
    {
        OpenFiles {
            files: Vec::new(alloc),
        }
    }

    /// How many are open.
    pub(crate) fn count(&self) -> usize
        ensures { result ≡ length self.now }
    {
        self.files.len()
    }

    /// Closes all.
    pub(crate) fn close_all(&mut self)
        ensures { self.new ≡ [] }
    {
        self.files.clear();
    }

    /// Opens a file, which is then the innermost.
    pub(crate) fn open(&mut self, bytes: Vec<u8>) -> Result<(), ShelfFault>
        ensures opened { OnOk result (self.new ≡ lines_of bytes.items ∷ self.old) }
        ensures memory { (n : ℕ) → HasShelfCause n n result }
    {
        match self.files.push(OpenFile::new(bytes)) {
            Ok(()) => Ok(()),
            Err(_) => Err(ShelfFault::OutOfMemory),
        }
    }

    /// The next line of the innermost file that has one, which is then no longer left; files that have
    /// ended are closed before it. `None` where no file has a line.
    pub(crate) fn next_line(&mut self, alloc: Global) -> Result<Option<Vec<u8>>, OutOfMemory>
        ensures { IfOk result (λ next. IsNext self.old (option_map (λ line. line.items) next) self.new) }
    {
        while let Some(mut file) = self.files.pop() {
            if let Some(line) = file.take_line(alloc)? {
                self.files.push(file)?;
                return Ok(Some(line));
            }
        }
        Ok(None)
    }
}
