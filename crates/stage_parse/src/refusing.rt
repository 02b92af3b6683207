//! Refusals as messages.

ghost use Rattle.std.specs.Prelude.{◌≡◌, ℕ, true, false, IfOk};
ghost use Rattle.network_meaning.specs.Sorts.{Message.said, Reply.refused, Said.replied};
ghost use Rattle.quel_network.specs.Spelling.{is_refusal_number};
ghost use Rattle.stage_parse.specs.Judging.{IsRefused, Spells};

use calculus::Refusal;
use calculus::refusals::PAST_LIMIT;
use frame_codec::Message;
use memory::OutOfMemory;
use message_codec::refusal_message;
use std::alloc::Global;

/// The message of a refusal whose number is one of the language's.
pub(crate) fn message_for(alloc: Global, refusal: Refusal) -> Result<Message, OutOfMemory>
    requires { is_refusal_number refusal.code ≡ true }
    ensures { IfOk result (λ m. Spells m (said (replied (refused refusal)))) }
{
    let found = refusal_message(alloc, refusal)?;
    match found {
        Some(message) => Ok(message),
        None => unreachable!(),
    }
}

/// The refusal by a number of the language's, with this line.
pub(crate) fn refused_by(alloc: Global, code: u8, line: u32) -> Result<Message, OutOfMemory>
    requires { is_refusal_number code ≡ true }
    ensures { IfOk result (IsRefused code line) }
{
    message_for(alloc, Refusal { code, line, row: 0 })
}

/// The refusal by a number, with this line. No refusal has another number than those of the language,
/// unless the database isn't known: then it is the one for a limit that is passed.
pub(crate) fn refused(alloc: Global, code: u8, line: u32) -> Result<Message, OutOfMemory>
    ensures known { is_refusal_number code ≡ true → IfOk result (IsRefused code line) }
    ensures some { IfOk result (λ m. (number : ℕ) × IsRefused number line m) }
{
    let found = refusal_message(alloc, Refusal { code, line, row: 0 })?;
    match found {
        Some(message) => Ok(message),
        None => refused_by(alloc, PAST_LIMIT, line),
    }
}
