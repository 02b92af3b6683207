//! What a tree comes to.

use calculus::List;
use message_codec::Outgoing;

/// What a tree comes to.
#[derive(Drop)]
pub enum Processed {
    /// These frames are shown: those of tables and the end, or of a refusal.
    Shows(Outgoing),
    /// A change with these bytes is handed on, and its reply passed on.
    Changes(List<u8>),
    /// The tree itself is handed on, and its reply passed on.
    HandsOn,
}
