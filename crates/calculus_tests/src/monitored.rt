//! The query buffer, and the lines of a script.

use calculus::OutOfMemory;
use monitor::{Buffer, Command, Part, parts_of};
use std::alloc::{AllocError, Global};
use std::test::*;

/// What a command is called, and the name of its file.
fn known(command: &Command) -> (&[u8], &[u8]) {
    match command {
        Command::Go => (b"go", &[]),
        Command::Print => (b"print", &[]),
        Command::Reset => (b"reset", &[]),
        Command::Append => (b"append", &[]),
        Command::Quit => (b"quit", &[]),
        Command::Include(file) => (b"include ", file.items()),
        Command::Write(file) => (b"write ", file.items()),
        Command::Unknown => (b"unknown", &[]),
    }
}

/// Adds a part of a line: a piece in angle brackets, or a command in square ones.
fn push_part(out: &mut Vec<u8>, part: &Part) -> Result<(), AllocError> {
    let (open, (name, file), close) = match part {
        Part::Piece(bytes) => (b'<', (bytes.items(), [].as_slice()), b'>'),
        Part::Order(command) => (b'[', known(command), b']'),
    };
    out.push(open)?;
    out.extend_from_slice(name)?;
    out.extend_from_slice(file)?;
    Ok(out.push(close)?)
}

/// Adds these parts, one behind the other.
fn push_parts(out: &mut Vec<u8>, parts: &[Part]) -> Result<(), OutOfMemory> {
    for part in parts {
        push_part(out, part)?;
    }
    Ok(())
}

/// The parts of a line, one behind the other.
pub fn shown(alloc: Global, line: &[u8]) -> Result<Vec<u8>, OutOfMemory> {
    let parts = parts_of(alloc, line)?;
    let mut out = Vec::new(alloc);
    let pushed = push_parts(&mut out, &parts);
    drop(parts);
    match pushed {
        Ok(()) => Ok(out),
        Err(error) => Err(error),
    }
}

/// Whether the line has these parts.
fn has_parts(alloc: Global, line: &[u8], parts: &[u8]) -> bool {
    match shown(alloc, line) {
        Ok(shown) => {
            let same = shown.as_slice() == parts;
            drop(shown);
            same
        }
        Err(_) => false,
    }
}

/// Puts these parts into the buffer, and gives whether there was room.
fn put_parts(buffer: &mut Buffer, parts: &[Part]) -> bool {
    let mut room = true;
    for part in parts {
        match part {
            Part::Piece(piece) => room = room && buffer.put_piece(piece.items()).is_ok(),
            Part::Order(command) => buffer.after(command),
        }
    }
    room
}

/// Puts the parts of a line into the buffer, and gives whether there was room.
fn put_line(alloc: Global, buffer: &mut Buffer, line: &[u8]) -> bool {
    match parts_of(alloc, line) {
        Ok(parts) => {
            let room = put_parts(buffer, &parts);
            drop(parts);
            room
        }
        Err(_) => false,
    }
}

/// Whether the buffer has this text behind these lines.
fn collects(alloc: Global, lines: &[&[u8]], text: &[u8]) -> bool {
    let mut buffer = Buffer::new(alloc);
    let mut room = true;
    for line in lines {
        room = room && put_line(alloc, &mut buffer, line);
    }
    let same = buffer.text() == text;
    drop(buffer);
    room && same
}

/// A line, and its parts.
const LINES: [(&[u8], &[u8]); 7] = [
    (
        br#"abc "x\\g" \g def \p\i  f.q  "#,
        br#"<abc "x\\g" >[go]< def >[print][include f.q]"#,
    ),
    (br#""a\"\g" \q"#, br#"<"a\"\g" >[quit]"#),
    (br#"a "\g"#, br#"<a "\g>"#),
    (b"\\r\\a\\w\n", b"[reset][append][write ]"),
    (b"\\goo b\\\n", b"[unknown]< b>[unknown]<\n>"),
    (b"\\write a b\\g\t\r\n", b"[write a b\\g]"),
    (b"", b""),
];

/// Lines, and what the buffer has behind them.
const COLLECTED: [(&[&[u8]], &[u8]); 4] = [
    (
        &[
            b"range of x is p",
            b" \t\r\n",
            b"retrieve (x.a)\n",
            b"\\g  \n",
        ],
        b"range of x is p\nretrieve (x.a)\n",
    ),
    (&[b"help\n\\g", b" print p"], b" print p\n"),
    (&[b" print p\\g\\a", b"help\n", b"\\p"], b" print p\nhelp\n"),
    (&[b"help\n", b"\\g\\r"], b""),
];

#[test]
fn a_line_is_cut_at_its_commands_and_the_buffer_collects_pieces_until_it_ran(rt: HostRuntime) {
    for (line, parts) in &LINES {
        assert!(rt; has_parts(rt.alloc(), *line, *parts));
    }
    for (lines, text) in &COLLECTED {
        assert!(rt; collects(rt.alloc(), *lines, *text));
    }
}
