//! What the tests share.

use fault_io::{MemShelf, MemSink, MemSource, Shelf, Source};
use ingres_top::{World, ingres_top};
use std::alloc::AllocGlobal;
use std::process::Abort;

/// Makes a relation with one row, and asks for it.
pub(crate) const FIRST: &[u8] = b"create p (a = i2)\n\
    append to p (a = 7)\n\
    range of x is p\n\
    retrieve (x.a) where x.a > 5\n\
    \\g\n";

/// What that prints.
pub(crate) const TABLE: &[u8] = b"done\n\
    done\n\
    |a     |\n\
    |------|\n\
    |     7|\n\
    |------|\n";

/// What it prints where the relation is there already, with the same row.
pub(crate) const AGAIN: &[u8] = b"refused 15 line 1: name in use\n\
    done\n\
    |a     |\n\
    |------|\n\
    |     7|\n\
    |------|\n";

/// What is printed where the first line has a fault.
pub(crate) const SYNTAX: &[u8] = b"refused 1 line 1: syntax\n";

pub(crate) fn words(rt: &(impl Abort + AllocGlobal), texts: &[&str]) -> Vec<String> {
    let mut words = Vec::new(rt.alloc());
    for text in texts {
        let word = String::from_str(rt.alloc(), text).expect(rt, "memory");
        words.push(word).expect(rt, "memory");
    }
    words
}

pub(crate) fn joined(rt: &(impl Abort + AllocGlobal), parts: &[&[u8]]) -> Vec<u8> {
    parts.concat(rt.alloc()).expect(rt, "memory")
}

/// A source of these bytes, whose calls with these numbers fail.
pub(crate) fn source(rt: &(impl Abort + AllocGlobal), script: &[u8], failing: &[u64]) -> MemSource {
    MemSource::new(
        Vec::from_slice(rt.alloc(), script).expect(rt, "memory"),
        Vec::from_slice(rt.alloc(), failing).expect(rt, "memory"),
    )
}

/// A sink whose calls with these numbers fail.
pub(crate) fn sink(rt: &(impl Abort + AllocGlobal), failing: &[u64]) -> MemSink {
    let failing = Vec::from_slice(rt.alloc(), failing).expect(rt, "memory");
    MemSink::new(rt.alloc(), failing)
}

/// A shelf with these files, whose calls with these numbers fail.
pub(crate) fn shelf(
    rt: &(impl Abort + AllocGlobal),
    files: &[(&[u8], &[u8])],
    failing: &[u64],
) -> MemShelf {
    let mut standing = Vec::new(rt.alloc());
    for (name, bytes) in files {
        let name = Vec::from_slice(rt.alloc(), *name).expect(rt, "memory");
        let bytes = Vec::from_slice(rt.alloc(), *bytes).expect(rt, "memory");
        standing.push((name, bytes)).expect(rt, "memory");
    }
    let failing = Vec::from_slice(rt.alloc(), failing).expect(rt, "memory");
    MemShelf::new(rt.alloc(), standing, failing).expect(rt, "memory")
}

/// Whether ann's script ends with this status, and the sink then has these bytes.
pub(crate) fn ends<S: Source + Drop>(
    rt: &(impl Abort + AllocGlobal),
    source: S,
    sink: MemSink,
    status: u8,
    output: &[u8],
) -> bool {
    let words = words(rt, &["try", "ann"]);
    let shelf = shelf(rt, &[], &[]);
    let world = World {
        source,
        sink,
        shelf,
    };
    let (answer, world) = ingres_top(rt.alloc(), &words, world);
    answer == status && world.sink.bytes() == output
}

/// Whether ann's script prints this, and ends with 0.
pub(crate) fn gives(rt: &(impl Abort + AllocGlobal), script: &[u8], output: &[u8]) -> bool {
    ends(rt, source(rt, script, &[]), sink(rt, &[]), 0, output)
}

/// A file's name and its bytes.
pub(crate) type File = (&'static [u8], &'static [u8]);

/// A script over files.
pub(crate) struct Case {
    /// The files that stand before it.
    pub(crate) files: &'static [File],
    /// The script.
    pub(crate) script: &'static [u8],
    /// What it prints.
    pub(crate) output: &'static [u8],
    /// What some files are afterwards; nothing where there is no such file.
    pub(crate) left: &'static [(&'static [u8], Option<&'static [u8]>)],
}

/// Runs ann's script over a shelf; the status, what was printed, and the shelf.
pub(crate) fn run_over(
    rt: &(impl Abort + AllocGlobal),
    script: &[u8],
    shelf: MemShelf,
) -> (u8, MemSink, MemShelf) {
    let words = words(rt, &["try", "ann"]);
    let world = World {
        source: source(rt, script, &[]),
        sink: sink(rt, &[]),
        shelf,
    };
    let (status, world) = ingres_top(rt.alloc(), &words, world);
    let World {
        source: _,
        sink,
        shelf,
    } = world;
    (status, sink, shelf)
}

/// Whether a file of a shelf has these bytes, or isn't there.
pub(crate) fn has(
    rt: &(impl Abort + AllocGlobal),
    shelf: &mut MemShelf,
    name: &[u8],
    wanted: Option<&[u8]>,
) -> bool {
    let file = shelf.fetch(rt.alloc(), name).expect(rt, "a file");
    match (file, wanted) {
        (Some(bytes), Some(wanted)) => bytes.as_slice() == wanted,
        (None, None) => true,
        _ => false,
    }
}

/// Whether a script over files ends with 0, prints what it should and leaves the files that it should.
fn keeps(rt: &(impl Abort + AllocGlobal), case: &Case) -> bool {
    let (status, sink, mut shelf) = run_over(rt, case.script, shelf(rt, case.files, &[]));
    let mut is_right = status == 0 && sink.bytes() == case.output;
    for (name, wanted) in case.left {
        let is_left = has(rt, &mut shelf, *name, *wanted);
        is_right = is_right && is_left;
    }
    is_right
}

/// The number of the first of these scripts that prints or leaves something else.
pub(crate) fn first_wrong(rt: &(impl Abort + AllocGlobal), cases: &[Case]) -> Option<usize> {
    for (number, case) in cases.iter().enumerate() {
        if !keeps(rt, case) {
            return Some(number);
        }
    }
    None
}
