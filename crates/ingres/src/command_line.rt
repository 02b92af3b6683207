//! What stands between the command line and the top call.

ghost use Rattle.std.specs.Prelude.{◌≡◌, drop};
ghost use Rattle.std.specs.Process.{exit_status};

use std::io::ErrorKind;
use std::process::ExitCode;

/// The status where the words aren't text.
const WRONG_WORDS: u8 = 1;

/// The status for want of memory.
const OUT_OF_MEMORY: u8 = 6;

/// The words behind the first, which is the program's name.
pub(crate) fn behind_first(all: &[String]) -> &[String]
    ensures { result.now ≡ drop 1 all.now }
{
    if all.is_empty() {
        return all;
    }
    all.split_at(1).1
}

/// The status where the words can't be had, by the kind of the error.
pub(crate) fn status_without_words(kind: ErrorKind) -> u8
    ensures no_memory { kind ≡ ErrorKind.OutOfMemory → result ≡ 6 }
    ensures no_text { (kind ≡ ErrorKind.OutOfMemory → ⊥) → result ≡ 1 }
{
    match kind {
        ErrorKind::OutOfMemory => OUT_OF_MEMORY,
        _ => WRONG_WORDS,
    }
}

/// The end of the program, with the status that a call answered.
pub(crate) fn ended_by<W: Drop>(answer: (u8, W)) -> ExitCode
    ensures { exit_status result ≡ answer.0 }
{
    let (status, _world) = answer;
    ExitCode::from(status)
}
