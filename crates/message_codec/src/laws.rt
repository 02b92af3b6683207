//! What messages are as bytes and as frames. Each function here is a law with no body: its clauses speak
//! of the definitions alone.

ghost use Rattle.std.specs.Prelude.{◌≡◌, ◌++◌, ◌∷◌, ℕ, List, None, Some, [], false, true};
ghost use Rattle.frame_codec.specs.Messages.{message_frames};
ghost use Rattle.frame_codec.specs.declared.frame.Frame.{Frame};
ghost use Rattle.message_codec.specs.Coming.{HasCome, with_left, with_right};
ghost use Rattle.message_codec.specs.Messages.{IsOf, message};
ghost use Rattle.message_codec.specs.declared.gathered.Came.TheVariants as came;
ghost use Rattle.message_codec.specs.declared.messages.StageMessage.{StageMessage as Told};
ghost use Rattle.network_meaning.specs.Calls.{Taken};
ghost use Rattle.network_meaning.specs.Frames.{kind_of, payloads, spell, whole};
ghost use Rattle.network_meaning.specs.LocalSteps.{Act, Want.take_left, Want.take_right, may_go_on, takes};
ghost use Rattle.network_meaning.specs.Network.{LocalState, done_act, want};
ghost use Rattle.network_meaning.specs.Sorts.{Message};
ghost use Rattle.network_meaning.specs.Spelled.{Spelled};
ghost use Rattle.quel_network.specs.Quel.{quel};
ghost use Rattle.quel_network.specs.Sorts.{User, quel_sorts};
ghost use Rattle.quel_network.specs.Spelling.{message_by, payload_of};

/// Bytes that are read as a message are its bytes, and their kind is its own: so each message that was
/// taken has a spelling, which is just what came. What one message is spelled as are the frames of its
/// kind and its bytes, and what several are those of each behind one another. Frames are joined to the
/// message of their bytes, by the kind of the last one.
pub fn messages_are_their_bytes()
    ensures only { (kind : ℕ) (bytes : List ℕ) (m : Message quel_sorts) → message_by kind bytes ≡ Some m → IsOf kind bytes m }
    ensures spelled { (user : User) (kind : ℕ) (bytes : List ℕ) (m : Message quel_sorts) → message_by kind bytes ≡ Some m → Spelled (quel user) m }
    ensures alone { (user : User) (m : Message quel_sorts) → spell (quel user) (m ∷ []) ≡ message_frames (kind_of m) (payload_of m) }
    ensures behind { (user : User) (ms ns : List (Message quel_sorts)) → spell (quel user) (ms ++ ns) ≡ spell (quel user) ms ++ spell (quel user) ns }
    ensures whole { (user : User) (got : List Frame) (f : Frame) → whole (quel user) (got ++ f ∷ []) ≡ message_by f.kind (payloads got ++ f.payload) }
{}

/// A stage that wants a frame from one side takes what comes with it behind those that it has: a part
/// where the message may go on, and a whole message where it does something with it. Of what else comes
/// it is in no state that has taken the frame.
pub fn frames_are_taken_as_messages()
    ensures part { (user : User) (s : LocalState quel_sorts) (f : Frame) → want s ≡ take_left → may_go_on s.mode ≡ true → HasCome s.got_left f came.Part → Taken (quel user) s f (with_left s f) }
    ensures whole { (user : User) (s : LocalState quel_sorts) (f : Frame) (m : Told) (act : Act quel_sorts) → want s ≡ take_left → HasCome s.got_left f (came.Whole m) → takes (quel user) s.mode (message m) ≡ Some act
        → Taken (quel user) s f (done_act (quel user) s act [] s.got_right) }
    ensures unlawful { (user : User) (s after : LocalState quel_sorts) (f : Frame) → want s ≡ take_left → HasCome s.got_left f came.Unlawful → Taken (quel user) s f after → ⊥ }
    ensures no_part { (user : User) (s after : LocalState quel_sorts) (f : Frame) → want s ≡ take_left → may_go_on s.mode ≡ false → HasCome s.got_left f came.Part → Taken (quel user) s f after → ⊥ }
    ensures no_whole { (user : User) (s after : LocalState quel_sorts) (f : Frame) (m : Told) → want s ≡ take_left → HasCome s.got_left f (came.Whole m) → takes (quel user) s.mode (message m) ≡ None → Taken (quel user) s f after → ⊥ }
    ensures right_part { (user : User) (s : LocalState quel_sorts) (f : Frame) → want s ≡ take_right → may_go_on s.mode ≡ true → HasCome s.got_right f came.Part → Taken (quel user) s f (with_right s f) }
    ensures right_whole { (user : User) (s : LocalState quel_sorts) (f : Frame) (m : Told) (act : Act quel_sorts) → want s ≡ take_right → HasCome s.got_right f (came.Whole m) → takes (quel user) s.mode (message m) ≡ Some act
        → Taken (quel user) s f (done_act (quel user) s act s.got_left []) }
    ensures right_unlawful { (user : User) (s after : LocalState quel_sorts) (f : Frame) → want s ≡ take_right → HasCome s.got_right f came.Unlawful → Taken (quel user) s f after → ⊥ }
    ensures right_no_part { (user : User) (s after : LocalState quel_sorts) (f : Frame) → want s ≡ take_right → may_go_on s.mode ≡ false → HasCome s.got_right f came.Part → Taken (quel user) s f after → ⊥ }
    ensures right_no_whole { (user : User) (s after : LocalState quel_sorts) (f : Frame) (m : Told) → want s ≡ take_right → HasCome s.got_right f (came.Whole m) → takes (quel user) s.mode (message m) ≡ None → Taken (quel user) s f after → ⊥ }
{}
