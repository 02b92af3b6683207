//! Where the first stage stands.

ghost use Rattle.std.specs.Prelude.{◌≡◌};
ghost use Rattle.monitor.specs.Standing.{at_printed, at_said, waits};
ghost use Rattle.monitor.specs.Taking.{at_taking, comes_due};

use crate::due::is_due;
use calculus::{Column, List};
use message_codec::StageMessage;
use std::mem::replace;

/// Where the first stage stands; with the table that it has begun, where it waits or prints.
pub enum At {
    /// It reads the script.
    Reading,
    /// It waits for what comes back.
    Waiting(Option<List<Column>>),
    /// It prints what came back.
    Printing(Option<List<Column>>, StageMessage),
    /// The script has ended.
    Ended,
}

impl Drop for At {
    fn drop(self) {
        match self {
            At::Reading | At::Waiting(_) | At::Printing(_, _) | At::Ended => {}
        }
    }
}

/// Where it stands when it has printed this behind what was begun.
fn behind(begun: Option<List<Column>>, said: StageMessage) -> At
    ensures { result ≡ at_said begun said }
{
    match said {
        StageMessage::Head(columns) => At::Waiting(Some(columns)),
        StageMessage::Row(_) => At::Waiting(begun),
        StageMessage::Done => At::Waiting(None),
        StageMessage::Refused(_) => At::Waiting(None),
        StageMessage::End => At::Reading,
        StageMessage::Text(_) => At::Waiting(begun),
        StageMessage::Tree(_) => At::Waiting(begun),
        StageMessage::Change(_) => At::Waiting(begun),
        StageMessage::Quit => At::Waiting(begun),
    }
}

impl At {
    /// Where it stands when it has printed.
    fn behind_it(self) -> At
        ensures { result ≡ at_printed self }
    {
        match self {
            At::Printing(begun, said) => behind(begun, said),
            At::Reading => At::Reading,
            At::Waiting(begun) => At::Waiting(begun),
            At::Ended => At::Ended,
        }
    }

    /// It has printed, where it printed.
    pub(crate) fn printed(&mut self)
        ensures { self.new ≡ at_printed self.old }
    {
        let here = replace(self, At::Ended);
        *self = here.behind_it();
    }

    /// Whether it waits for what comes back.
    pub(crate) fn waits(&self) -> bool
        ensures { result ≡ waits self.now }
    {
        match self {
            At::Waiting(_) => true,
            At::Reading => false,
            At::Printing(_, _) => false,
            At::Ended => false,
        }
    }

    /// Whether it waits for a message, and this one is due.
    pub(crate) fn is_due(&self, said: &StageMessage) -> bool
        ensures { result ≡ comes_due self.now said.now }
    {
        match self {
            At::Waiting(begun) => is_due(begun, said),
            At::Reading => false,
            At::Printing(_, _) => false,
            At::Ended => false,
        }
    }

    /// Where it stands when it has taken a message, where it waited.
    fn with(self, said: StageMessage) -> At
        ensures { result ≡ at_taking self said }
    {
        match self {
            At::Waiting(begun) => At::Printing(begun, said),
            At::Reading => At::Reading,
            At::Printing(begun, printed) => At::Printing(begun, printed),
            At::Ended => At::Ended,
        }
    }

    /// It has taken a message, where it waited.
    pub(crate) fn takes(&mut self, said: StageMessage)
        ensures { self.new ≡ at_taking self.old said }
    {
        let here = replace(self, At::Ended);
        *self = here.with(said);
    }
}
