//! What a refusal says.

ghost use Rattle.std.specs.Prelude.{◌≡◌, ◌++◌, ◌==◌, OnOk, IfOk, option_map, find, unwrap_or, decimal, List, [], ℕ, map};
ghost use Rattle.quel_meaning.specs.Printed.{refusal_text, refusal_texts, refusal_bytes};

use calculus::refusals::BAD_ROW;
use calculus::{OutOfMemory, Refusal};
use itoa::Buffer;
use std::alloc::{AllocError, Global};

/// What each number of a refusal says, but for that which names a row.
const TEXTS: [(u8, &[u8]); 25] = [
    (1, b"syntax"),
    (2, b"monitor command"),
    (3, b"include limit"),
    (9, b"not built"),
    (10, b"unknown relation"),
    (11, b"unknown variable"),
    (12, b"unknown attribute"),
    (13, b"types differ"),
    (14, b"limit"),
    (15, b"name in use"),
    (16, b"too wide"),
    (17, b"domain named twice"),
    (18, b"aggregate"),
    (19, b"no such number"),
    (20, b"no value"),
    (21, b"does not fit"),
    (22, b"two values for one row"),
    (23, b"no permit"),
    (24, b"not the owner"),
    (25, b"in use"),
    (26, b"view"),
    (27, b"rule does not hold"),
    (28, b"catalogue"),
    (29, b"too many rows"),
    (32, b"no such file"),
];

/// The text beside the first entry of this number; none where there is no such entry.
fn beside<'t>(texts: &'t [(u8, &'t [u8])], code: u8) -> &'t [u8]
    ensures { result.now ≡ unwrap_or (option_map (λ t. t.1.now) (find (λ t. t.0 == code) texts.now)) [] }
{
    match texts.iter().find(|text| text.0 == code) {
        Some(text) => text.1,
        None => &[],
    }
}

/// Adds what the refusals of this number say; nothing where none has it.
fn push_code_text(out: &mut Vec<u8>, code: u8) -> Result<(), AllocError>
    ensures { OnOk result (out.new.items ≡ out.old.items ++ unwrap_or (option_map (λ t. t.1) (find (λ t. t.0 == code) refusal_texts)) []) }
{
    let table = TEXTS.as_slice();
    out.extend_from_slice(beside(table, code))
}

/// Adds some bytes, and a number in decimal behind them.
fn push_numbered(out: &mut Vec<u8>, bytes: &[u8], number: u32) -> Result<(), AllocError>
    ensures { OnOk result (out.new.items ≡ out.old.items ++ bytes.now ++ decimal number) }
{
    out.extend_from_slice(bytes)?;
    let mut digits = Buffer::new();
    out.extend_from_slice(digits.format(number).as_bytes())
}

/// Adds what a refusal says.
fn push_refusal_text(out: &mut Vec<u8>, refusal: &Refusal) -> Result<(), AllocError>
    ensures { OnOk result (out.new.items ≡ out.old.items ++ refusal_text refusal.now) }
{
    if refusal.code == BAD_ROW {
        return push_numbered(out, b"bad row ", refusal.row);
    }
    push_code_text(out, refusal.code)
}

/// Adds the line of a refusal: its number, its line, and what it says.
#[tactic(auto, unfolding(quel_meaning::specs::Printed::refusal_bytes))]
pub fn push_refusal(out: &mut Vec<u8>, refusal: &Refusal) -> Result<(), OutOfMemory>
    ensures { OnOk result (out.new.items ≡ out.old.items ++ refusal_bytes refusal.now) }
{
    push_numbered(out, b"refused ", u32::from(refusal.code))?;
    push_numbered(out, b" line ", refusal.line)?;
    out.extend_from_slice(b": ")?;
    push_refusal_text(out, refusal)?;
    out.push(b'\n')?;
    Ok(())
}

/// The line of a refusal: its number, its line, and what it says.
pub fn refusal_bytes(alloc: Global, refusal: &Refusal) -> Result<Vec<u8>, OutOfMemory>
    ensures { IfOk result (λ bytes. bytes.items ≡ refusal_bytes refusal.now) }
{
    let mut out = Vec::new(alloc);
    push_refusal(&mut out, refusal)?;
    Ok(out)
}
