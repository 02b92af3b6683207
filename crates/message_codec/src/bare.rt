//! Messages whose bytes need not be written: a batch, which is its own bytes, and those that have none.

ghost use Rattle.std.specs.Prelude.{◌≡◌, []};
ghost use Rattle.message_codec.specs.Messages.{IsMessageOf};
ghost use Rattle.network_meaning.specs.Sorts.{Message.end, Message.quit, Message.said, Message.text, Reply.done, Said.replied};

use frame_codec::Message;
use memory::List;
use std::alloc::Global;

/// The kind of a batch.
const TEXT: u8 = 1;

/// The kind of an end.
const END: u8 = 6;

/// The kind of what says that a statement was carried out.
const DONE: u8 = 8;

/// The kind of a quit.
const QUIT: u8 = 10;

/// A batch.
#[tactic(auto, unfolding(quel_network::specs::Spelling::message_by))]
pub fn text_message(batch: List<u8>) -> Message
    ensures is { IsMessageOf (text batch) result.kind result.bytes }
    ensures kind { result.kind ≡ 1 }
    ensures bytes { result.bytes ≡ batch }
{
    Message {
        kind: TEXT,
        bytes: batch,
    }
}

/// The end of what was asked.
#[tactic(auto, unfolding(quel_network::specs::Spelling::message_by))]
pub fn end_message(alloc: Global) -> Message
    ensures is { IsMessageOf end result.kind result.bytes }
    ensures kind { result.kind ≡ 6 }
    ensures bytes { result.bytes ≡ [] }
{
    Message {
        kind: END,
        bytes: List::of(Vec::new(alloc)),
    }
}

/// A statement was carried out.
#[tactic(auto, unfolding(quel_network::specs::Spelling::message_by))]
pub fn done_message(alloc: Global) -> Message
    ensures is { IsMessageOf (said (replied done)) result.kind result.bytes }
    ensures kind { result.kind ≡ 8 }
    ensures bytes { result.bytes ≡ [] }
{
    Message {
        kind: DONE,
        bytes: List::of(Vec::new(alloc)),
    }
}

/// The end of all.
#[tactic(auto, unfolding(quel_network::specs::Spelling::message_by))]
pub fn quit_message(alloc: Global) -> Message
    ensures is { IsMessageOf quit result.kind result.bytes }
    ensures kind { result.kind ≡ 10 }
    ensures bytes { result.bytes ≡ [] }
{
    Message {
        kind: QUIT,
        bytes: List::of(Vec::new(alloc)),
    }
}
