//! Several values written one behind the other, and the number of a variant in front of them.

ghost use Rattle.std.specs.Prelude.{OnOk};
ghost use Rattle.tree_words.specs.Codec.{Writes, IsVariant};
ghost use Rattle.tree_words.specs.Words.{both, nothing};

use crate::{Spelled, Spelling};
use memory::OutOfMemory;

/// Writes a value of a variant without fields.
pub fn variant0<T: Spelled>(tag: u8, whole: &T::Value, out: &mut Vec<u8>) -> Result<(), OutOfMemory>
    requires { IsVariant T.codec whole.now tag (λ _. nothing) tt }
    ensures { OnOk result (Writes T.codec whole.now out.old.items out.new.items) }
{
    let _whole = whole;
    out.push(tag)?;
    Ok(())
}

/// Writes a value of a variant with one field.
pub fn variant1<T: Spelled, A: Spelling>(
    tag: u8,
    whole: &T::Value,
    a: &A::Value,
    out: &mut Vec<u8>,
) -> Result<(), OutOfMemory>
    requires { IsVariant T.codec whole.now tag (λ n. (A.codec n)) a.now }
    ensures { OnOk result (Writes T.codec whole.now out.old.items out.new.items) }
{
    let _whole = whole;
    out.push(tag)?;
    A::write(a, out)
}

/// Writes two values one behind the other.
pub fn fields2<A: Spelling, B: Spelling>(
    a: &A::Value,
    b: &B::Value,
    out: &mut Vec<u8>,
) -> Result<(), OutOfMemory>
    ensures { OnOk result (Writes (λ n. (both (A.codec n) (B.codec n))) (a.now, b.now) out.old.items out.new.items) }
{
    A::write(a, out)?;
    B::write(b, out)
}

/// Writes a value of a variant with two fields.
pub fn variant2<T: Spelled, A: Spelling, B: Spelling>(
    tag: u8,
    whole: &T::Value,
    a: &A::Value,
    b: &B::Value,
    out: &mut Vec<u8>,
) -> Result<(), OutOfMemory>
    requires { IsVariant T.codec whole.now tag (λ n. (both (A.codec n) (B.codec n))) (a.now, b.now) }
    ensures { OnOk result (Writes T.codec whole.now out.old.items out.new.items) }
{
    let _whole = whole;
    out.push(tag)?;
    fields2::<A, B>(a, b, out)
}

/// Writes three values one behind the other.
pub fn fields3<A: Spelling, B: Spelling, C: Spelling>(
    a: &A::Value,
    b: &B::Value,
    c: &C::Value,
    out: &mut Vec<u8>,
) -> Result<(), OutOfMemory>
    ensures { OnOk result (Writes (λ n. (both (A.codec n) (both (B.codec n) (C.codec n)))) (a.now, (b.now, c.now)) out.old.items out.new.items) }
{
    A::write(a, out)?;
    fields2::<B, C>(b, c, out)
}

/// Writes a value of a variant with three fields.
pub fn variant3<T: Spelled, A: Spelling, B: Spelling, C: Spelling>(
    tag: u8,
    whole: &T::Value,
    a: &A::Value,
    b: &B::Value,
    c: &C::Value,
    out: &mut Vec<u8>,
) -> Result<(), OutOfMemory>
    requires { IsVariant T.codec whole.now tag (λ n. (both (A.codec n) (both (B.codec n) (C.codec n)))) (a.now, (b.now, c.now)) }
    ensures { OnOk result (Writes T.codec whole.now out.old.items out.new.items) }
{
    let _whole = whole;
    out.push(tag)?;
    fields3::<A, B, C>(a, b, c, out)
}

/// Writes four values one behind the other.
pub fn fields4<A: Spelling, B: Spelling, C: Spelling, D: Spelling>(
    a: &A::Value,
    b: &B::Value,
    c: &C::Value,
    d: &D::Value,
    out: &mut Vec<u8>,
) -> Result<(), OutOfMemory>
    ensures { OnOk result (Writes (λ n. (both (A.codec n) (both (B.codec n) (both (C.codec n) (D.codec n))))) (a.now, (b.now, (c.now, d.now))) out.old.items out.new.items) }
{
    A::write(a, out)?;
    fields3::<B, C, D>(b, c, d, out)
}

/// Writes a value of a variant with four fields.
pub fn variant4<T: Spelled, A: Spelling, B: Spelling, C: Spelling, D: Spelling>(
    tag: u8,
    whole: &T::Value,
    a: &A::Value,
    b: &B::Value,
    c: &C::Value,
    d: &D::Value,
    out: &mut Vec<u8>,
) -> Result<(), OutOfMemory>
    requires { IsVariant T.codec whole.now tag (λ n. (both (A.codec n) (both (B.codec n) (both (C.codec n) (D.codec n))))) (a.now, (b.now, (c.now, d.now))) }
    ensures { OnOk result (Writes T.codec whole.now out.old.items out.new.items) }
{
    let _whole = whole;
    out.push(tag)?;
    fields4::<A, B, C, D>(a, b, c, d, out)
}

/// Writes five values one behind the other.
pub fn fields5<A: Spelling, B: Spelling, C: Spelling, D: Spelling, E: Spelling>(
    a: &A::Value,
    b: &B::Value,
    c: &C::Value,
    d: &D::Value,
    e: &E::Value,
    out: &mut Vec<u8>,
) -> Result<(), OutOfMemory>
    ensures { OnOk result (Writes (λ n. (both (A.codec n) (both (B.codec n) (both (C.codec n) (both (D.codec n) (E.codec n)))))) (a.now, (b.now, (c.now, (d.now, e.now)))) out.old.items out.new.items) }
{
    A::write(a, out)?;
    fields4::<B, C, D, E>(b, c, d, e, out)
}

/// Writes a value of a variant with five fields.
pub fn variant5<T: Spelled, A: Spelling, B: Spelling, C: Spelling, D: Spelling, E: Spelling>(
    tag: u8,
    whole: &T::Value,
    a: &A::Value,
    b: &B::Value,
    c: &C::Value,
    d: &D::Value,
    e: &E::Value,
    out: &mut Vec<u8>,
) -> Result<(), OutOfMemory>
    requires { IsVariant T.codec whole.now tag (λ n. (both (A.codec n) (both (B.codec n) (both (C.codec n) (both (D.codec n) (E.codec n)))))) (a.now, (b.now, (c.now, (d.now, e.now)))) }
    ensures { OnOk result (Writes T.codec whole.now out.old.items out.new.items) }
{
    let _whole = whole;
    out.push(tag)?;
    fields5::<A, B, C, D, E>(a, b, c, d, e, out)
}

/// Writes six values one behind the other.
pub fn fields6<A: Spelling, B: Spelling, C: Spelling, D: Spelling, E: Spelling, F: Spelling>(
    a: &A::Value,
    b: &B::Value,
    c: &C::Value,
    d: &D::Value,
    e: &E::Value,
    f: &F::Value,
    out: &mut Vec<u8>,
) -> Result<(), OutOfMemory>
    ensures { OnOk result (Writes (λ n. (both (A.codec n) (both (B.codec n) (both (C.codec n) (both (D.codec n) (both (E.codec n) (F.codec n))))))) (a.now, (b.now, (c.now, (d.now, (e.now, f.now))))) out.old.items out.new.items) }
{
    A::write(a, out)?;
    fields5::<B, C, D, E, F>(b, c, d, e, f, out)
}

/// Writes a value of a variant with six fields.
pub fn variant6<
    T: Spelled,
    A: Spelling,
    B: Spelling,
    C: Spelling,
    D: Spelling,
    E: Spelling,
    F: Spelling,
>(
    tag: u8,
    whole: &T::Value,
    a: &A::Value,
    b: &B::Value,
    c: &C::Value,
    d: &D::Value,
    e: &E::Value,
    f: &F::Value,
    out: &mut Vec<u8>,
) -> Result<(), OutOfMemory>
    requires { IsVariant T.codec whole.now tag (λ n. (both (A.codec n) (both (B.codec n) (both (C.codec n) (both (D.codec n) (both (E.codec n) (F.codec n))))))) (a.now, (b.now, (c.now, (d.now, (e.now, f.now))))) }
    ensures { OnOk result (Writes T.codec whole.now out.old.items out.new.items) }
{
    let _whole = whole;
    out.push(tag)?;
    fields6::<A, B, C, D, E, F>(a, b, c, d, e, f, out)
}

/// Writes seven values one behind the other.
pub fn fields7<
    A: Spelling,
    B: Spelling,
    C: Spelling,
    D: Spelling,
    E: Spelling,
    F: Spelling,
    G: Spelling,
>(
    a: &A::Value,
    b: &B::Value,
    c: &C::Value,
    d: &D::Value,
    e: &E::Value,
    f: &F::Value,
    g: &G::Value,
    out: &mut Vec<u8>,
) -> Result<(), OutOfMemory>
    ensures { OnOk result (Writes (λ n. (both (A.codec n) (both (B.codec n) (both (C.codec n) (both (D.codec n) (both (E.codec n) (both (F.codec n) (G.codec n)))))))) (a.now, (b.now, (c.now, (d.now, (e.now, (f.now, g.now)))))) out.old.items out.new.items) }
{
    A::write(a, out)?;
    fields6::<B, C, D, E, F, G>(b, c, d, e, f, g, out)
}

/// Writes a value of a variant with seven fields.
pub fn variant7<
    T: Spelled,
    A: Spelling,
    B: Spelling,
    C: Spelling,
    D: Spelling,
    E: Spelling,
    F: Spelling,
    G: Spelling,
>(
    tag: u8,
    whole: &T::Value,
    a: &A::Value,
    b: &B::Value,
    c: &C::Value,
    d: &D::Value,
    e: &E::Value,
    f: &F::Value,
    g: &G::Value,
    out: &mut Vec<u8>,
) -> Result<(), OutOfMemory>
    requires { IsVariant T.codec whole.now tag (λ n. (both (A.codec n) (both (B.codec n) (both (C.codec n) (both (D.codec n) (both (E.codec n) (both (F.codec n) (G.codec n)))))))) (a.now, (b.now, (c.now, (d.now, (e.now, (f.now, g.now)))))) }
    ensures { OnOk result (Writes T.codec whole.now out.old.items out.new.items) }
{
    let _whole = whole;
    out.push(tag)?;
    fields7::<A, B, C, D, E, F, G>(a, b, c, d, e, f, g, out)
}
