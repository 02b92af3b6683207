//! The bytes of a text constant as they are meant.

ghost use Rattle.std.specs.Prelude.{◌≡◌, ◌∷◌, ◌<◌, [], length, MatchOption, IfSome};
ghost use Rattle.calculus.specs.Constant.{unescaped};

/// A byte of a text constant as it is meant.
#[derive(Clone, Copy, PartialEq, Eq)]
pub struct Unescaped {
    /// The byte.
    pub byte: u8,
    /// Whether a backslash in front makes it plain: it then stands for itself in a pattern.
    pub plain: bool,
}

/// The first byte of a text constant as it is meant, and what is written behind it; `None` exactly
/// where nothing is written. A backslash makes the byte behind it plain, and stands for itself at the
/// end. Takes no memory.
#[tactic(auto, unfolding(crate::specs::Constant::unescaped))]
pub fn next_unescaped(written: &[u8]) -> Option<(Unescaped, &[u8])>
    ensures first { MatchOption result (written.now ≡ []) (λ p. unescaped written.now ≡ p.0 ∷ unescaped p.1.now) }
    ensures shorter { IfSome result (λ p. length p.1.now < length written.now) }
{
    let (byte, behind) = written.split_first()?;
    if *byte != b'\\' {
        let unescaped_byte = Unescaped {
            byte: *byte,
            plain: false,
        };
        return Some((unescaped_byte, behind));
    }
    match behind.split_first() {
        Some((plain, rest)) => {
            let unescaped_byte = Unescaped {
                byte: *plain,
                plain: true,
            };
            Some((unescaped_byte, rest))
        }
        None => {
            let unescaped_byte = Unescaped {
                byte: *byte,
                plain: false,
            };
            Some((unescaped_byte, behind))
        }
    }
}
