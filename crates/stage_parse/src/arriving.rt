//! What comes to the parser.

ghost use Rattle.std.specs.Prelude.{◌≡◌};
ghost use Rattle.stage_parse.specs.Arriving.{from_left, from_right};

use calculus::Refusal;
use memory::List;
use message_codec::StageMessage;

/// What the parser takes from the left while it waits for a batch.
#[derive(Drop)]
pub(crate) enum FromLeft {
    /// A batch.
    Text(List<u8>),
    /// The end of all.
    Quit,
    /// What may not come there.
    Strange,
}

/// What the parser takes from the right while it waits for what a statement is answered.
#[derive(Clone, Copy)]
pub(crate) enum FromRight {
    /// The head of a table or a row, behind which more follows.
    Shown,
    /// The statement was carried out.
    Done,
    /// The statement was refused.
    Refused(Refusal),
    /// The end of tables.
    End,
    /// What may not come there.
    Strange,
}

/// What is taken from the left of this message.
pub(crate) fn from_left(message: StageMessage) -> FromLeft
    ensures { result ≡ from_left message }
{
    match message {
        StageMessage::Text(text) => FromLeft::Text(text),
        StageMessage::Quit => FromLeft::Quit,
        StageMessage::Tree(_) => FromLeft::Strange,
        StageMessage::Head(_) => FromLeft::Strange,
        StageMessage::Row(_) => FromLeft::Strange,
        StageMessage::Change(_) => FromLeft::Strange,
        StageMessage::End => FromLeft::Strange,
        StageMessage::Refused(_) => FromLeft::Strange,
        StageMessage::Done => FromLeft::Strange,
    }
}

/// What is taken from the right of this message.
pub(crate) fn from_right(message: &StageMessage) -> FromRight
    ensures { result ≡ from_right message.now }
{
    match message {
        StageMessage::Head(_) => FromRight::Shown,
        StageMessage::Row(_) => FromRight::Shown,
        StageMessage::Done => FromRight::Done,
        StageMessage::Refused(refusal) => FromRight::Refused(*refusal),
        StageMessage::End => FromRight::End,
        StageMessage::Text(_) => FromRight::Strange,
        StageMessage::Tree(_) => FromRight::Strange,
        StageMessage::Change(_) => FromRight::Strange,
        StageMessage::Quit => FromRight::Strange,
    }
}
