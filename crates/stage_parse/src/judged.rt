//! What comes of a statement.

use frame_codec::Message;

/// What comes of a statement.
#[derive(Drop)]
pub(crate) enum Judged {
    /// Its range variable was declared.
    Declared,
    /// It is refused, by this message.
    Refused(Message),
    /// It asks for what this message is the tree of.
    Asks(Message),
}
