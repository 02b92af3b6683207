//! What streams of frames mean. Each function here is a law with no body: its clauses speak of the
//! definitions alone.

ghost use Rattle.std.specs.Prelude.{◌≡◌, ℕ, ◌+◌, ◌≤◌, ◌++◌, ◌∷◌, true, List, None, [], length};
ghost use Rattle.std.specs.List.{flat_map, list_all};
ghost use Rattle.frame_codec.specs.Frames.{frames_bytes, is_lawful};
ghost use Rattle.frame_codec.specs.Messages.{is_message_kind, joined, message, message_bytes, message_frames};
ghost use Rattle.frame_codec.specs.Reading.{Reading, behind_frames, read, read_on};
ghost use Rattle.frame_codec.specs.declared.frame.Frame.{Frame};

/// However a stream is cut, it is read the same: the frames of the first piece, and then those of what
/// was left of it and the next piece, with the same bytes left, the same place and the same fault.
/// Frames that were given before make no difference. No place lies behind the bytes that were fed.
pub fn pieces_are_read_as_the_whole()
    ensures pieces { (place : ℕ) (xs ys : List ℕ) → read place (xs ++ ys) ≡ read_on (read place xs) ys }
    ensures later { (reading : Reading) (xs ys : List ℕ) → read_on reading (xs ++ ys) ≡ read_on (read_on reading xs) ys }
    ensures given { (given : List Frame) (reading : Reading) (piece : List ℕ)
        → read_on (behind_frames given reading) piece ≡ behind_frames given (read_on reading piece) }
    ensures within { (reading : Reading) (piece : List ℕ)
        → (read_on reading piece).place + length (read_on reading piece).left ≤ reading.place + length reading.left + length piece }
{}

/// Lawful frames that were spelled one behind the other are read as these frames, and nothing is left.
pub fn what_is_written_is_read()
    ensures { (place : ℕ) (frames : List Frame) → list_all is_lawful frames ≡ true
        → read place (frames_bytes frames) ≡ record { frames = frames; left = []; place = place + length (frames_bytes frames); fault = None } }
{}

/// A message is cut into lawful frames whose payloads are its bytes, and no message's bytes are a front
/// of those of another, nor the same.
pub fn messages_are_spelled_apart()
    ensures lawful { (kind : ℕ) (bytes : List ℕ) → is_message_kind kind ≡ true → list_all is_lawful (message_frames kind bytes) ≡ true }
    ensures joined { (kind : ℕ) (bytes : List ℕ) → flat_map (λ frame. frame.payload) (message_frames kind bytes) ≡ bytes }
    ensures apart { (kind other : ℕ) (bytes others more : List ℕ) → is_message_kind kind ≡ true → is_message_kind other ≡ true
        → message_bytes kind bytes ++ more ≡ message_bytes other others → (kind ≡ other) × (bytes ≡ others) }
{}

/// The frames of a message, whatever frames follow them, are joined to this message and those that
/// follow. However frames come, they are joined the same: first some, and then the others behind what
/// is left of a message.
pub fn messages_are_joined()
    ensures cut { (kind : ℕ) (bytes : List ℕ) (frames : List Frame) → is_message_kind kind ≡ true
        → joined [] (message_frames kind bytes ++ frames) ≡ (message kind bytes ∷ (joined [] frames).0, (joined [] frames).1) }
    ensures later { (begun : List ℕ) (first others : List Frame)
        → joined begun (first ++ others) ≡ ((joined begun first).0 ++ (joined (joined begun first).1 others).0, (joined (joined begun first).1 others).1) }
{}
