//! Refusals as bytes.

ghost use Rattle.std.specs.Prelude.{◌≡◌, false, true, IfNone, IfOk, IfSome};
ghost use Rattle.message_codec.specs.Messages.{IsMessageOf};
ghost use Rattle.network_meaning.specs.Sorts.{Message.said, Reply.refused, Said.replied};
ghost use Rattle.quel_network.specs.CodecLaws.{refusal_exact};
ghost use Rattle.quel_network.specs.Spelling.{is_refusal_number, refusal_codec};

use calculus::Refusal;
use frame_codec::Message;
use memory::{List, OutOfMemory};
use quel_tree::{Tree, tree_bytes};
use std::alloc::Global;
use tree_words::{Fault, Reader, Spelled, Spelling, fields3};

/// The kind of a refusal.
const REFUSED: u8 = 7;

/// The numbers that refusals have.
const NUMBERS: [u8; 26] = [
    31, 1, 2, 3, 9, 10, 11, 12, 13, 14, 15, 16, 17, 18, 19, 20, 21, 22, 23, 24, 25, 26, 27, 28, 29,
    32,
];

/// The spelling of a refusal: its number in a byte, its line and its row in four bytes each.
pub struct RefusalTree;

impl Spelled for RefusalTree {
    type Value = Refusal;

    ghost codec = { λ _. refusal_codec };

    ghost exact = { λ _ _. refusal_exact };
}

impl Spelling for RefusalTree {
    fn read(alloc: Global, levels: u32, reader: &mut Reader) -> Result<Refusal, Fault> {
        let (code, (line, row)) = <(u8, (u32, u32)) as Spelling>::read(alloc, levels, reader)?;
        Ok(Refusal { code, line, row })
    }

    fn write(value: &Refusal, out: &mut Vec<u8>) -> Result<(), OutOfMemory> {
        fields3::<u8, u32, u32>(&value.code, &value.line, &value.row, out)
    }
}

impl Tree for RefusalTree {
    ghost enough = { tt };
}

/// Whether some refusal has this number.
pub(crate) fn is_refusal_number(code: u8) -> bool
    ensures { result ≡ is_refusal_number code }
{
    let table = NUMBERS.as_slice();
    table.iter().any(|number| *number == code)
}

/// The message of a refusal with this number, which refusals have, this line and this row.
fn refusal_of(alloc: Global, code: u8, line: u32, row: u32) -> Result<Message, OutOfMemory>
    requires { is_refusal_number code ≡ true }
    ensures is { IfOk result (λ m. IsMessageOf (said (replied (refused (record { code = code; line = line; row = row })))) m.kind m.bytes) }
    ensures kind { IfOk result (λ m. m.kind ≡ 7) }
{
    let bytes = tree_bytes::<RefusalTree>(alloc, &Refusal { code, line, row })?;
    Ok(Message {
        kind: REFUSED,
        bytes: List::of(bytes),
    })
}

/// The refusal as a message; none where no refusal has its number.
pub fn refusal_message(alloc: Global, refusal: Refusal) -> Result<Option<Message>, OutOfMemory>
    ensures some { IfOk result (λ found. IfSome found (λ m. IsMessageOf (said (replied (refused refusal))) m.kind m.bytes)) }
    ensures kind { IfOk result (λ found. IfSome found (λ m. m.kind ≡ 7)) }
    ensures none { IfOk result (λ found. IfNone found (is_refusal_number refusal.code ≡ false)) }
{
    if !is_refusal_number(refusal.code) {
        return Ok(None);
    }
    let message = refusal_of(alloc, refusal.code, refusal.line, refusal.row)?;
    Ok(Some(message))
}
