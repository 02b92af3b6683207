//! How many functions that take a token may still call each other, one below the other.

ghost use Rattle.std.specs.Prelude.{◌≡◌, ◌<◌, IfSome, None};
ghost use Rattle.quel_grammar.specs.TermReaders.{level, deeper, nowhere};

/// The level below, where there is one.
#[tactic(auto, using(crate::proofs::Levels::level_down, crate::proofs::Levels::level_none))]
pub fn below(depth: u16) -> Option<u16>
    ensures less { IfSome result (λ lower. lower < depth) }
    ensures deeper { IfSome result (λ lower. level depth ≡ deeper (level lower)) }
    ensures nowhere { result ≡ None → level depth ≡ nowhere }
{
    if depth == 0 {
        return None;
    }
    Some(depth - 1)
}
