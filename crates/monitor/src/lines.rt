//! The next line of a source.

ghost use Rattle.std.specs.Prelude.{◌≡◌, ◌≤◌, ◌+◌, ◌-◌, ◌^◌, ◌++◌, ◌∷◌, [], OnErr, OnOk, ℕ, List, IfErr, IfNone, IfOk, IfSome, IsErrOf, Some, false, min, option_map, true};
ghost use Rattle.fault_io.specs.Causes.{HasCause};
ghost use Rattle.monitor.specs.Asked.{EndSeen};
ghost use Rattle.monitor.specs.Faults.{IsOfLine};
ghost use Rattle.monitor.specs.Lines.{IsByte, IsLine, IsOneLine, SourceRead, byte_count};

use calculus::OutOfMemory;
use calculus::limits::MOST_SCRIPT_BYTES;
use fault_io::{Failed, Source};
use net_core::WorkFault;
use std::alloc::Global;

/// The next byte of a source; none at its end.
fn next_byte<S: Source>(source: &mut S) -> Result<Option<u8>, Failed>
    ensures byte { (script : List ℕ) → S.left source.old ≡ Some script → IfOk result (λ byte. IsByte script byte (S.left source.new)) }
    ensures kept { (script : List ℕ) → S.left source.old ≡ Some script → OnErr result (S.left source.new ≡ Some script) }
    ensures given { IfOk result (λ byte. S.given source.new ≡ min (S.given source.old + byte_count byte) (2 ^ 64 - 1)) }
    ensures same { OnErr result (S.given source.new ≡ S.given source.old) }
    ensures cause { HasCause (S.faults source.old) (S.faults source.new) result }
    ensures over { IfOk result (λ byte. IfNone byte (S.ended source.new ≡ true)) }
    ensures stays { S.ended source.old ≡ true → OnOk result (S.ended source.new ≡ true) }
    ensures going { OnErr result (S.ended source.old ≡ false) }
{
    let mut one = [0u8; 1];
    match source.read(&mut one) {
        Err(_) => Err(Failed),
        Ok(0) => Ok(None),
        Ok(_) => Ok(Some(one[0])),
    }
}

/// The next byte of a source of which so many bytes were read; none at its end.
fn read_byte<S: Source>(source: &mut S, heard: &mut usize) -> Result<Option<u8>, WorkFault>
    ensures byte { (script : List ℕ) → S.left source.old ≡ Some script → IfOk result (λ byte. IsByte script byte (S.left source.new)) }
    ensures source { SourceRead heard.old heard.new (S.left source.old) (S.left source.new) (S.given source.old) (S.given source.new) (S.faults source.old) (S.faults source.new) result }
    ensures counts { IfOk result (λ byte. IfSome byte (λ _. heard.new ≡ heard.old + 1)) }
    ensures short { IfOk result (λ byte. IfSome byte (λ _. heard.new ≤ 16777216)) }
    ensures over { IfOk result (λ byte. IfNone byte (S.ended source.new ≡ true)) }
    ensures stays { S.ended source.old ≡ true → OnOk result (S.ended source.new ≡ true) }
    ensures going { IsErrOf result WorkFault.Source → S.ended source.old ≡ false }
    ensures inside { IfErr result (λ fault. IsOfLine fault) }
{
    if *heard > MOST_SCRIPT_BYTES {
        return Err(WorkFault::TooLong);
    }
    match next_byte(source) {
        Err(_) => Err(WorkFault::Source),
        Ok(None) => Ok(None),
        Ok(Some(byte)) => {
            *heard += 1;
            if *heard > MOST_SCRIPT_BYTES {
                return Err(WorkFault::TooLong);
            }
            Ok(Some(byte))
        }
    }
}

/// Adds a byte.
fn put_byte(line: &mut Vec<u8>, byte: u8) -> Result<(), OutOfMemory>
    ensures { OnOk result (line.new.items ≡ line.old.items ++ byte ∷ []) }
{
    line.push(byte)?;
    Ok(())
}

/// The next line of a source of which so many bytes were read; none at its end.
pub(crate) fn read_line<S: Source>(
    alloc: Global,
    source: &mut S,
    heard: &mut usize,
) -> Result<Option<Vec<u8>>, WorkFault>
    ensures line { (script : List ℕ) → S.left source.old ≡ Some script → IfOk result (λ line. IsLine script (option_map (λ bytes. bytes.items) line) (S.left source.new)) }
    ensures one { IfOk result (λ line. IfSome line (λ bytes. IsOneLine bytes.items)) }
    ensures source { SourceRead heard.old heard.new (S.left source.old) (S.left source.new) (S.given source.old) (S.given source.new) (S.faults source.old) (S.faults source.new) result }
    ensures ends { EndSeen (S.left source.old) (S.left source.new) (S.ended source.old) (S.ended source.new) result }
    ensures inside { IfErr result (λ fault. IsOfLine fault) }
{
    let mut line = Vec::new(alloc);
    'bytes: while let Some(byte) = read_byte(source, heard)? {
        put_byte(&mut line, byte)?;
        if byte == b'\n' {
            return Ok(Some(line));
        }
    }
    if line.is_empty() {
        return Ok(None);
    }
    Ok(Some(line))
}
