//! Where the monitor stands in a script, and how it works a line off.

ghost use Rattle.std.specs.Prelude.{◌≡◌, ◌≤◌, ◌++◌, ℕ, List, [], IfErr, IfNone, IfOk, OnOk, Some, false, length};
ghost use Rattle.fault_io.specs.Files.{Files};
ghost use Rattle.fault_io.specs.Shelves.{HasShelfCause};
ghost use Rattle.monitor.specs.Asked.{SourceAsked};
ghost use Rattle.monitor.specs.Seen.{seen_command, seen_part};
ghost use Rattle.monitor.specs.Faults.{CountsShelf, IsOfLine, IsOfReading};
ghost use Rattle.monitor.specs.Lines.{SourceRead};
ghost use Rattle.monitor.specs.Reading.{Fills, HasRead, MayFill, MayRead, may_open, reads_behind, reads_part, reads_rest, standing_of, was_read};
ghost use Rattle.quel_meaning.specs.Buffer.{with_piece};
ghost use Rattle.quel_meaning.specs.Monitor.{Include, Order, Write, names_file};
ghost use Rattle.quel_meaning.specs.Printed.{refusal_bytes};
ghost use Rattle.quel_network.specs.Reading.{opens, ordered};
ghost use Rattle.quel_network.specs.Sorts.{first_monitor};

use crate::buffer::Buffer;
use crate::command::Command;
use crate::event::Event;
use crate::line::Part;
use crate::lines::read_line;
use crate::open_files::OpenFiles;
use crate::parts::Parts;
use crate::replies::push_reply;
use calculus::limits::{MOST_INCLUDES, MOST_SCRIPT_BYTES};
use calculus::refusals::{INCLUDE_LIMIT, NO_COMMAND, NO_FILE};
use calculus::{List, OutOfMemory, Refusal, Reply};
use fault_io::{Shelf, ShelfFault, Source};
use net_core::WorkFault;
use std::alloc::Global;
use std::marker::Model;

/// Where the monitor stands in a script: its buffer, the bytes of all files that were included, what is
/// left of the present line, and the included files that are open.
pub struct Reader {
    pub(crate) buffer: Buffer,
    pub(crate) included: usize,
    pub(crate) parts: Parts,
    pub(crate) files: OpenFiles,
}

impl Drop for Reader {
    fn drop(self) {
        let Self {
            buffer: _,
            included: _,
            parts: _,
            files: _,
        } = self;
    }
}

impl Model for Reader {
    ghost use Rattle.quel_network.specs.Sorts.{Monitor};

    ghost Value = { Monitor };

    ghost view = { λ r. record { buffer = r.buffer; included = r.included; parts = r.parts; files = r.files } };
}

/// Adds a refusal that concerns neither a row nor a line.
#[tactic(auto, unfolding(quel_meaning::specs::Printed::reply_bytes))]
fn refuse(out: &mut Vec<u8>, code: u8) -> Result<(), ShelfFault>
    ensures added { OnOk result (out.new.items ≡ out.old.items ++ refusal_bytes (record { code = code; line = 0; row = 0 })) }
    ensures memory { (n : ℕ) → HasShelfCause n n result }
{
    let refusal = Refusal {
        code,
        line: 0,
        row: 0,
    };
    match push_reply(out, &Reply::Refused(refusal)) {
        Ok(()) => Ok(()),
        Err(OutOfMemory) => Err(ShelfFault::OutOfMemory),
    }
}

/// Adds bytes.
fn push_bytes(out: &mut Vec<u8>, bytes: &[u8]) -> Result<(), ShelfFault>
    ensures added { OnOk result (out.new.items ≡ out.old.items ++ bytes.now) }
    ensures memory { (n : ℕ) → HasShelfCause n n result }
{
    match out.extend_from_slice(bytes) {
        Ok(()) => Ok(()),
        Err(_) => Err(ShelfFault::OutOfMemory),
    }
}

/// The bytes in a list of their own.
fn copied(alloc: Global, bytes: &[u8]) -> Result<List<u8>, ShelfFault>
    ensures value { IfOk result (λ list. list ≡ bytes.now) }
    ensures memory { (n : ℕ) → HasShelfCause n n result }
{
    match Vec::from_slice(alloc, bytes) {
        Ok(items) => Ok(List::of(items)),
        Err(_) => Err(ShelfFault::OutOfMemory),
    }
}

/// Whether a file of so many bytes may be included, where so many bytes were and so many files are open.
fn may_include(length: usize, included: usize, opened: usize) -> bool
    ensures { result ≡ may_open length included opened }
{
    opened < MOST_INCLUDES && length <= MOST_SCRIPT_BYTES && included <= MOST_SCRIPT_BYTES - length
}

impl Reader {
    /// Nothing was read.
    pub(crate) fn new(alloc: Global) -> Reader
        ensures { result ≡ first_monitor }
    {
        Reader {
            buffer: Buffer::new(alloc),
            included: 0,
            parts: Parts::none(alloc),
            files: OpenFiles::new(alloc),
        }
    }

    /// The text of the buffer.
    pub(crate) fn text(&self) -> &[u8]
        ensures { result.now ≡ self.now.buffer.text }
    {
        self.buffer.text()
    }

    /// Puts a piece into the buffer.
    fn piece(&mut self, bytes: &[u8]) -> Result<(), ShelfFault>
        ensures put { OnOk result (self.new ≡ record self.old { buffer = with_piece self.old.buffer bytes.now }) }
        ensures memory { (n : ℕ) → HasShelfCause n n result }
    {
        match self.buffer.put_piece(bytes) {
            Ok(()) => Ok(()),
            Err(OutOfMemory) => Err(ShelfFault::OutOfMemory),
        }
    }

    /// Opens an included file, or refuses it where too much is open or was included.
    fn open(&mut self, bytes: Vec<u8>, out: &mut Vec<u8>) -> Result<(), ShelfFault>
        ensures did { (known : Files) → OnOk result (opens (standing_of self.old known out.old.items) bytes.items ≡ standing_of self.new known out.new.items) }
        ensures memory { (n : ℕ) → HasShelfCause n n result }
        ensures parts { self.new.parts ≡ self.old.parts }
    {
        if !may_include(bytes.len(), self.included, self.files.count()) {
            return refuse(out, INCLUDE_LIMIT);
        }
        self.included += bytes.len();
        self.files.open(bytes)
    }

    /// Includes the file of this name.
    #[tactic(auto, using(crate::proofs::Parting::include_empty, crate::proofs::Parting::include_some))]
    fn include<H: Shelf>(
        &mut self,
        alloc: Global,
        shelf: &mut H,
        name: &[u8],
        out: &mut Vec<u8>,
    ) -> Result<(), ShelfFault>
        ensures did { (known : Files) → H.files shelf.old ≡ Some known → OnOk result (ordered (standing_of self.old known out.old.items) (Include name.now) ≡ standing_of self.new known out.new.items) }
        ensures cause { HasShelfCause (H.faults shelf.old) (H.faults shelf.new) result }
        ensures same { H.files shelf.new ≡ H.files shelf.old }
        ensures parts { self.new.parts ≡ self.old.parts }
    {
        if name.is_empty() {
            return refuse(out, NO_COMMAND);
        }
        match shelf.fetch(alloc, name)? {
            Some(bytes) => self.open(bytes, out),
            None => refuse(out, NO_FILE),
        }
    }

    /// Carries a command out that names no file.
    #[tactic(auto, unfolding(quel_network::specs::Reading::read_parts, quel_network::specs::Reading::ordered, quel_meaning::specs::Buffer::buffer_after))]
    fn command(&mut self, command: &Command, out: &mut Vec<u8>) -> Result<Option<Event>, ShelfFault>
        requires { names_file (seen_command command.now) ≡ false }
        ensures did { (known : Files) → IfOk result (λ event. (script : List ℕ) → reads_part (Order (seen_command command.now)) self.old known out.old.items script ≡ reads_behind event self.new known out.new.items script) }
        ensures memory { (n : ℕ) → HasShelfCause n n result }
        ensures shorter { length self.new.parts ≤ length self.old.parts }
    {
        self.buffer.after(command);
        match command {
            Command::Go => return Ok(Some(Event::Sends)),
            Command::Quit => return Ok(Some(Event::Leaves)),
            Command::Print => push_bytes(out, self.buffer.text())?,
            Command::Unknown => refuse(out, NO_COMMAND)?,
            Command::Reset => {}
            Command::Append => {}
            Command::Include(_) => {}
            Command::Write(_) => {}
        }
        Ok(None)
    }

    /// Stores the buffer as the file of this name, behind which nothing of the line is left.
    #[tactic(auto, using(crate::proofs::Parting::write_empty, crate::proofs::Parting::write_some))]
    fn write(&mut self, alloc: Global, name: &[u8], out: &mut Vec<u8>) -> Result<Event, ShelfFault>
        ensures did { (known : Files) → IfOk result (λ event. (script : List ℕ) → reads_part (Order (Write name.now)) self.old known out.old.items script ≡ was_read event self.new known out.new.items script) }
        ensures memory { (n : ℕ) → HasShelfCause n n result }
    {
        self.parts.clear();
        if name.is_empty() {
            refuse(out, NO_COMMAND)?;
            return Ok(Event::GoesOn);
        }
        Ok(Event::Stores(copied(alloc, name)?))
    }

    /// Includes the file of this name, behind which nothing of the line is left.
    #[tactic(auto, using(crate::proofs::Parting::include_reads))]
    fn take_in<H: Shelf>(
        &mut self,
        alloc: Global,
        shelf: &mut H,
        name: &[u8],
        out: &mut Vec<u8>,
    ) -> Result<Event, ShelfFault>
        ensures did { (known : Files) → H.files shelf.old ≡ Some known → IfOk result (λ event. (script : List ℕ) → reads_part (Order (Include name.now)) self.old known out.old.items script ≡ was_read event self.new known out.new.items script) }
        ensures cause { HasShelfCause (H.faults shelf.old) (H.faults shelf.new) result }
        ensures same { H.files shelf.new ≡ H.files shelf.old }
    {
        self.include(alloc, shelf, name, out)?;
        self.parts.clear();
        Ok(Event::GoesOn)
    }

    /// Carries a command out. Behind it there is more of the line, or reading ends so.
    fn order<H: Shelf>(
        &mut self,
        alloc: Global,
        shelf: &mut H,
        command: &Command,
        out: &mut Vec<u8>,
    ) -> Result<Option<Event>, ShelfFault>
        ensures did { (known : Files) → H.files shelf.old ≡ Some known → IfOk result (λ event. (script : List ℕ) → reads_part (Order (seen_command command.now)) self.old known out.old.items script ≡ reads_behind event self.new known out.new.items script) }
        ensures cause { HasShelfCause (H.faults shelf.old) (H.faults shelf.new) result }
        ensures same { H.files shelf.new ≡ H.files shelf.old }
        ensures shorter { IfOk result (λ event. IfNone event (length self.new.parts ≤ length self.old.parts)) }
    {
        match command {
            Command::Include(name) => Ok(Some(self.take_in(alloc, shelf, name.items(), out)?)),
            Command::Write(name) => Ok(Some(self.write(alloc, name.items(), out)?)),
            Command::Go => self.command(command, out),
            Command::Quit => self.command(command, out),
            Command::Print => self.command(command, out),
            Command::Unknown => self.command(command, out),
            Command::Reset => self.command(command, out),
            Command::Append => self.command(command, out),
        }
    }

    /// Puts a piece into the buffer, or carries a command out. Behind it there is more of the line, or
    /// reading ends so.
    #[tactic(auto, using(crate::proofs::Parting::piece_reads))]
    fn part<H: Shelf>(
        &mut self,
        alloc: Global,
        shelf: &mut H,
        part: &Part,
        out: &mut Vec<u8>,
    ) -> Result<Option<Event>, ShelfFault>
        ensures did { (known : Files) → H.files shelf.old ≡ Some known → IfOk result (λ event. (script : List ℕ) → reads_part (seen_part part.now) self.old known out.old.items script ≡ reads_behind event self.new known out.new.items script) }
        ensures cause { HasShelfCause (H.faults shelf.old) (H.faults shelf.new) result }
        ensures same { H.files shelf.new ≡ H.files shelf.old }
        ensures shorter { IfOk result (λ event. IfNone event (length self.new.parts ≤ length self.old.parts)) }
    {
        match part {
            Part::Piece(bytes) => {
                self.piece(bytes.items())?;
                Ok(None)
            }
            Part::Order(command) => self.order(alloc, shelf, command, out),
        }
    }

    /// Works off the rest of the line, up to and with the first command that sends the buffer, ends the
    /// session or names a file. Storing the buffer is left.
    #[tactic(auto, using(crate::proofs::Parting::end_reads))]
    pub(crate) fn run<H: Shelf>(
        &mut self,
        alloc: Global,
        shelf: &mut H,
        out: &mut Vec<u8>,
    ) -> Result<Event, ShelfFault>
        ensures did { (known : Files) → H.files shelf.old ≡ Some known → IfOk result (λ event. (script : List ℕ) → reads_rest self.old known out.old.items script ≡ was_read event self.new known out.new.items script) }
        ensures cause { HasShelfCause (H.faults shelf.old) (H.faults shelf.new) result }
        ensures same { H.files shelf.new ≡ H.files shelf.old }
    {
        'line: while let Some(part) = self.parts.next() {
            if let Some(event) = self.part(alloc, shelf, &part, out)? {
                return Ok(event);
            }
        }
        Ok(Event::GoesOn)
    }

    /// The next line is at hand: what is left of the present one, or else the next of the innermost open
    /// file that has one, the script being the outermost. False where no file has one.
    #[tactic(auto, using(crate::proofs::Filling::rest_at_hand))]
    fn fill<S: Source>(
        &mut self,
        alloc: Global,
        source: &mut S,
        heard: &mut usize,
    ) -> Result<bool, WorkFault>
        ensures did { (known : Files) (script : List ℕ) → S.left source.old ≡ Some script → IfOk result (λ some. Fills self.old known script some self.new (S.left source.new)) }
        ensures may { (known : Files) → IfOk result (λ some. MayFill self.old known some self.new) }
        ensures source { SourceRead heard.old heard.new (S.left source.old) (S.left source.new) (S.given source.old) (S.given source.new) (S.faults source.old) (S.faults source.new) result }
        ensures ends { SourceAsked self.old heard.old heard.new (S.left source.old) (S.left source.new) (S.ended source.old) (S.ended source.new) result }
        ensures inside { IfErr result (λ fault. IsOfLine fault) }
    {
        if !self.parts.is_empty() {
            return Ok(true);
        }
        if let Some(line) = self.files.next_line(alloc)? {
            self.parts = Parts::of(alloc, &line)?;
            return Ok(true);
        }
        match read_line(alloc, source, heard)? {
            Some(line) => {
                self.parts = Parts::of(alloc, &line)?;
                Ok(true)
            }
            None => Ok(false),
        }
    }

    /// Reads on: the next line, or what is left of the present one, up to and with the first command that
    /// sends the buffer, ends the session or names a file. Adds what it prints; storing the buffer is left.
    pub(crate) fn read_on<H: Shelf, S: Source>(
        &mut self,
        alloc: Global,
        shelf: &mut H,
        source: &mut S,
        heard: &mut usize,
        out: &mut Vec<u8>,
    ) -> Result<Event, WorkFault>
        requires { out.old.items ≡ [] }
        ensures did { (known : Files) (script : List ℕ) → H.files shelf.old ≡ Some known → S.left source.old ≡ Some script → IfOk result (λ event. HasRead self.old known script event self.new out.new.items (S.left source.new)) }
        ensures may { (known : Files) → H.files shelf.old ≡ Some known → IfOk result (λ event. MayRead self.old known event self.new out.new.items) }
        ensures same { H.files shelf.new ≡ H.files shelf.old }
        ensures source { SourceRead heard.old heard.new (S.left source.old) (S.left source.new) (S.given source.old) (S.given source.new) (S.faults source.old) (S.faults source.new) result }
        ensures ends { SourceAsked self.old heard.old heard.new (S.left source.old) (S.left source.new) (S.ended source.old) (S.ended source.new) result }
        ensures shelf { CountsShelf (H.faults shelf.old) (H.faults shelf.new) result }
        ensures inside { IfErr result (λ fault. IsOfReading fault) }
    {
        if !self.fill(alloc, source, heard)? {
            return Ok(Event::Leaves);
        }
        match self.run(alloc, shelf, out) {
            Ok(event) => Ok(event),
            Err(ShelfFault::Failed) => Err(WorkFault::Shelf),
            Err(ShelfFault::OutOfMemory) => Err(WorkFault::OutOfMemory),
        }
    }
}
