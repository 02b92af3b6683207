//! Bytes that are one spelling and nothing else.

ghost use Rattle.std.specs.Prelude.{◌≡◌, ℕ, IfOk, IfErr};
ghost use Rattle.tree_words.specs.Whole.{reads_whole, ReadsWhole, Answers, Refuses};

use crate::{Fault, Reader, Spelling};
use memory::OutOfMemory;
use std::alloc::Global;

#[tactic(auto, unfolding(crate::specs::Whole::reads_whole))]
fn all_of<S: Spelling>(alloc: Global, levels: u32, bytes: &[u8]) -> Result<S::Value, Fault>
    ensures { ReadsWhole result (reads_whole (S.codec levels) bytes.now) }
{
    let mut reader = Reader::of(bytes);
    let value = S::read(alloc, levels, &mut reader)?;
    let left = reader.left();
    if left != 0 {
        return Err(Fault::Wrong(left));
    }
    Ok(value)
}

/// The value that the bytes spell, all of them, with at most so many levels. Where they are no
/// spelling, the first wrong byte is found, which may be the first that follows one, or the end.
pub fn read_whole<S: Spelling>(alloc: Global, levels: u32, bytes: &[u8]) -> Result<S::Value, Fault>
    requires { S.Enough levels }
    ensures found { IfOk result (λ t. (S.codec levels).Fits t × (bytes.now ≡ (S.codec levels).write t)) }
    ensures only { (t : S.Value) → (S.codec levels).Fits t → bytes.now ≡ (S.codec levels).write t → Answers result t }
    ensures first { IfErr result (Refuses (S.codec levels) bytes.now) }
{
    all_of::<S>(alloc, levels, bytes)
}

/// The value's spelling.
pub fn write_whole<S: Spelling>(alloc: Global, value: &S::Value) -> Result<Vec<u8>, OutOfMemory>
    ensures { IfOk result (λ v. (levels : ℕ) → (S.codec levels).Fits value.now → v.items ≡ (S.codec levels).write value.now) }
{
    let mut out = Vec::new(alloc);
    S::write(value, &mut out)?;
    Ok(out)
}
