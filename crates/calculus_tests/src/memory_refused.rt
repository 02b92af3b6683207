//! One test that goes on to its end, or says that memory is wanting.

use crate::monitored::shown;
use crate::reading::{Answer, read_at};
use crate::replies::printed_tables;
use calculus::OutOfMemory;
use std::alloc::Global;
use std::test::*;

/// Where the first statement of a text ends; 0 where there is none.
fn end_of(alloc: Global, text: &[u8]) -> Result<usize, OutOfMemory> {
    match read_at(alloc, text, 0) {
        Answer::Statement(end, _) => Ok(end),
        Answer::Nothing | Answer::Syntax(_, _) => Ok(0),
        Answer::OutOfMemory => Err(OutOfMemory),
    }
}

/// How many bytes were made.
fn length(made: Result<Vec<u8>, OutOfMemory>) -> Result<usize, OutOfMemory> {
    match made {
        Ok(made) => Ok(made.len()),
        Err(error) => Err(error),
    }
}

#[test]
fn want_of_memory_is_an_answer(rt: HostRuntime) -> Result<(), Fail> {
    let text =
        b"retrieve into r (e.name, x = -count(e.sal by e.dept) + 1) where not e.sal > 2 sort by name:d";
    assert!(rt; end_of(rt.alloc(), text)? == text.len());
    assert!(rt; length(shown(rt.alloc(), b"a \\g b \\i f"))? == 24);
    assert!(rt; length(printed_tables(rt.alloc()))? == 230);
    Ok(())
}
