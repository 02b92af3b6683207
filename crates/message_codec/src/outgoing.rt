//! Frames that are to be given.

ghost use Rattle.std.specs.Prelude.{◌≡◌, ◌↔◌, ◌∷◌, ◌++◌, [], true, length, IfNone, IfOk, IfSome, IsTrue, OnErr, OnOk};
ghost use Rattle.frame_codec.specs.Frames.{is_lawful};
ghost use Rattle.frame_codec.specs.Messages.{is_message_kind, message_frames};
ghost use Rattle.message_codec.specs.Waiting.{Waits, frames_in, rest_of, waiting};

use frame_codec::{Frame, Message, MessageFrames};
use memory::OutOfMemory;
use std::alloc::Global;
use std::collections::VecDeque;
use std::marker::Model;

/// How many bytes of a message each of its frames has but the last.
const FULL: usize = 4096;

/// Frames that are to be given, each of them lawful. Those of a message are made one by one as they are
/// given: the message that is begun has so many left, and others wait behind it.
pub struct Outgoing {
    alloc: Global,
    begun: Option<MessageFrames>,
    left: usize,
    later: VecDeque<Message>,
}

impl Drop for Outgoing {
    fn drop(self) {
        let Self {
            alloc: _,
            begun: _,
            left: _,
            later: _,
        } = self;
    }
}

impl Model for Outgoing {
    ghost use Rattle.std.specs.Prelude.{List};
    ghost use Rattle.frame_codec.specs.declared.frame.Frame.{Frame};
    ghost use Rattle.message_codec.specs.Waiting.{Waits, waiting};

    ghost Value = { List Frame };

    ghost view = { λ o. waiting o.begun o.later.items };

    ghost invariant = { λ o. Waits o.begun o.left o.later.items };
}

/// Puts an item behind the others.
fn push_behind<T: Drop>(items: &mut VecDeque<T>, item: T) -> Result<(), OutOfMemory>
    ensures behind { OnOk result (items.new.items ≡ items.old.items ++ item ∷ []) }
    ensures same { OnErr result (items.new.items ≡ items.old.items) }
{
    match items.push_back(item) {
        Ok(()) => Ok(()),
        Err(_) => Err(OutOfMemory),
    }
}

/// Whether no item waits.
fn is_over<T>(items: &VecDeque<T>) -> bool
    ensures { IsTrue result ↔ (items.now.items ≡ []) }
{
    items.is_empty()
}

/// How many frames a message has.
#[tactic(auto, using(crate::proofs::Queue::frames_counted))]
fn frame_count(message: &Message) -> usize
    ensures { result ≡ length (frames_in message.now) }
{
    message.bytes.items().len() / FULL + 1
}

/// Begins the next message, where none is begun and one waits.
fn begin(
    alloc: Global,
    begun: &mut Option<MessageFrames>,
    left: &mut usize,
    later: &mut VecDeque<Message>,
)
    requires { Waits begun.old left.old later.old.items }
    ensures waits { Waits begun.new left.new later.new.items }
    ensures same { waiting begun.new later.new.items ≡ waiting begun.old later.old.items }
    ensures over { rest_of begun.new ≡ [] → later.new.items ≡ [] }
{
    if *left > 0 {
        return;
    }
    if let Some(message) = later.pop_front() {
        *left = frame_count(&message);
        *begun = Some(MessageFrames::of(alloc, message));
    }
}

/// The next frame of the message that is begun; none where it has none.
fn next_of(
    begun: &mut Option<MessageFrames>,
    left: &mut usize,
) -> Result<Option<Frame>, OutOfMemory>
    requires { left.old ≡ length (rest_of begun.old) }
    ensures counted { left.new ≡ length (rest_of begun.new) }
    ensures some { IfOk result (λ next. IfSome next (λ frame. rest_of begun.old ≡ frame ∷ rest_of begun.new)) }
    ensures none { IfOk result (λ next. IfNone next (rest_of begun.old ≡ [])) }
    ensures stays { IfOk result (λ next. IfNone next (rest_of begun.new ≡ [])) }
    ensures err { OnErr result (rest_of begun.new ≡ rest_of begun.old) }
{
    match begun {
        Some(frames) => match frames.next() {
            Ok(Some(frame)) => {
                *left -= 1;
                Ok(Some(frame))
            }
            Ok(None) => Ok(None),
            Err(fault) => Err(fault),
        },
        None => Ok(None),
    }
}

/// The next frame of all that wait; none where none waits.
fn take_next(
    alloc: Global,
    begun: &mut Option<MessageFrames>,
    left: &mut usize,
    later: &mut VecDeque<Message>,
) -> Result<Option<Frame>, OutOfMemory>
    requires { Waits begun.old left.old later.old.items }
    ensures waits { Waits begun.new left.new later.new.items }
    ensures some { IfOk result (λ next. IfSome next (λ frame. waiting begun.old later.old.items ≡ frame ∷ waiting begun.new later.new.items)) }
    ensures lawful { IfOk result (λ next. IfSome next (λ frame. is_lawful frame ≡ true)) }
    ensures none { IfOk result (λ next. IfNone next (waiting begun.old later.old.items ≡ [])) }
    ensures stays { IfOk result (λ next. IfNone next (waiting begun.new later.new.items ≡ [])) }
    ensures err { OnErr result (waiting begun.new later.new.items ≡ waiting begun.old later.old.items) }
{
    begin(alloc, begun, left, later);
    next_of(begun, left)
}

impl Outgoing {
    /// No frames. Takes no memory.
    pub fn new(alloc: Global) -> Outgoing
        ensures { result ≡ [] }
    {
        Outgoing {
            alloc,
            begun: None,
            left: 0,
            later: VecDeque::new(alloc),
        }
    }

    /// Whether there are none.
    #[tactic(auto, using(crate::proofs::Queue::none_left, crate::proofs::Queue::all_empty))]
    pub fn is_empty(&self) -> bool
        ensures { IsTrue result ↔ (self.now ≡ []) }
    {
        self.left == 0 && is_over(&self.later)
    }

    /// The frames of a message behind these.
    pub fn put(&mut self, message: Message) -> Result<(), OutOfMemory>
        requires { is_message_kind message.kind ≡ true }
        ensures ok { OnOk result (self.new ≡ self.old ++ message_frames message.kind message.bytes) }
        ensures err { OnErr result (self.new ≡ self.old) }
    {
        push_behind(&mut self.later, message)
    }

    /// The first, taken out; none where there is none.
    pub fn pop(&mut self) -> Result<Option<Frame>, OutOfMemory>
        ensures some { IfOk result (λ next. IfSome next (λ frame. self.old ≡ frame ∷ self.new)) }
        ensures lawful { IfOk result (λ next. IfSome next (λ frame. is_lawful frame ≡ true)) }
        ensures none { IfOk result (λ next. IfNone next (self.old ≡ [])) }
        ensures stays { IfOk result (λ next. IfNone next (self.new ≡ [])) }
        ensures err { OnErr result (self.new ≡ self.old) }
    {
        take_next(self.alloc, &mut self.begun, &mut self.left, &mut self.later)
    }

    /// The first of some, taken out.
    pub fn give(&mut self) -> Result<Frame, OutOfMemory>
        requires { self.old ≡ [] → ⊥ }
        ensures given { IfOk result (λ frame. self.old ≡ frame ∷ self.new) }
        ensures form { IfOk result (λ frame. is_lawful frame ≡ true) }
        ensures err { OnErr result (self.new ≡ self.old) }
    {
        match self.pop() {
            Ok(Some(frame)) => Ok(frame),
            Ok(None) => unreachable!(),
            Err(fault) => Err(fault),
        }
    }
}
