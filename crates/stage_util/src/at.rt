//! Where the fourth stage stands.

ghost use Rattle.std.specs.Prelude.{◌≡◌};
ghost use Rattle.stage_util.specs.Standing.{at_taking, is_work};

use calculus::{Checked, DbChange};
use memory::Boxed;
use message_codec::StageMessage;

/// Where the fourth stage stands.
pub enum At {
    /// It waits for what it is to carry out.
    Idle,
    /// It has work of the utilities to carry out.
    Tree(Boxed<Checked>),
    /// It has a change to carry out.
    Change(Boxed<DbChange>),
    /// All has ended.
    Ended,
}

impl Drop for At {
    fn drop(self) {
        match self {
            At::Idle | At::Tree(_) | At::Change(_) | At::Ended => {}
        }
    }
}

/// Whether the tree asks for work of the utilities.
fn is_work(tree: &Checked) -> bool
    ensures { result ≡ is_work tree.now }
{
    match tree {
        Checked::Utility(_) => true,
        Checked::Answer(_) => false,
        Checked::Update(_) => false,
    }
}

/// Where it stands that has taken this message while it was idle; none where the message may not come.
pub(crate) fn at_taking(told: StageMessage) -> Option<At>
    ensures { result ≡ at_taking told }
{
    match told {
        StageMessage::Tree(tree) => {
            if is_work(tree.get()) {
                Some(At::Tree(tree))
            } else {
                None
            }
        }
        StageMessage::Change(change) => Some(At::Change(change)),
        StageMessage::Quit => Some(At::Ended),
        StageMessage::Text(_) => None,
        StageMessage::Head(_) => None,
        StageMessage::Row(_) => None,
        StageMessage::End => None,
        StageMessage::Refused(_) => None,
        StageMessage::Done => None,
    }
}
