//! The names in terms and qualifications, in the order of the text.

ghost use Rattle.std.specs.Prelude.{◌≡◌, ◌++◌, flat_map, map, IfOk, OnOk};
ghost use Rattle.quel_check.specs.Seen.{seen};
ghost use Rattle.quel_meaning.specs.Naming.{dotted};
ghost use Rattle.quel_meaning.specs.WrittenParts.{attributes, attributes_in_qual};

use calculus::{AggTerm, Name, OutOfMemory, Qual, Term};
use std::alloc::Global;

/// A name in a statement, or two, by what they have to be.
#[derive(Clone, Copy)]
pub enum Mention<'a> {
    /// A declared variable over something that is there.
    Variable(&'a Name),
    /// Such a variable, and an attribute of what it ranges over.
    AttrOf(&'a Name, &'a Name),
    /// A relation, a view or a catalogue.
    Relation(&'a Name),
    /// A relation, a view or a catalogue, and an attribute of it.
    AttrIn(&'a Name, &'a Name),
    /// What `destroy` may name: a relation, a view, an index or a catalogue.
    Entry(&'a Name),
}

/// Puts the variables with their attributes in a term behind the mentions.
#[cycle(mentions)]
#[tactic(auto, using(crate::proofs::MentionForms::in_int, crate::proofs::MentionForms::in_chars, crate::proofs::MentionForms::in_attr, crate::proofs::MentionForms::in_neg, crate::proofs::MentionForms::in_abs, crate::proofs::MentionForms::in_agg))]
pub(crate) fn push_term<'a>(mentions: &mut Vec<Mention<'a>>, t: &'a Term) -> Result<(), OutOfMemory>
    ensures { OnOk result (map seen mentions.new.items ≡ map seen mentions.old.items ++ dotted (attributes t.now)) }
{
    match t {
        Term::Int(_) | Term::Chars(_) => Ok(()),
        Term::Attr { var, attr } => Ok(mentions.push(Mention::AttrOf(var, attr))?),
        Term::Neg(inner) | Term::Abs(inner) => push_term(mentions, inner.get()),
        Term::Arith { op: _, left, right } | Term::Concat { left, right } => {
            push_term(mentions, left.get())?;
            push_term(mentions, right.get())
        }
        Term::Agg(agg) => push_aggregate(mentions, agg.get()),
    }
}

/// Puts the variables with their attributes in an aggregate behind the mentions.
#[cycle(mentions)]
pub(crate) fn push_aggregate<'a>(
    mentions: &mut Vec<Mention<'a>>,
    g: &'a AggTerm,
) -> Result<(), OutOfMemory>
    ensures { OnOk result (map seen mentions.new.items ≡ map seen mentions.old.items ++ dotted (attributes g.now.arg ++ (flat_map attributes g.now.by ++ attributes_in_qual g.now.qual))) }
{
    push_term(mentions, &g.arg)?;
    push_terms(mentions, g.by.items())?;
    push_qual(mentions, &g.qual)
}

#[cycle(mentions)]
fn push_terms<'a>(mentions: &mut Vec<Mention<'a>>, terms: &'a [Term]) -> Result<(), OutOfMemory>
    ensures { OnOk result (map seen mentions.new.items ≡ map seen mentions.old.items ++ dotted (flat_map attributes terms.now)) }
{
    for term in terms {
        push_term(mentions, term)?;
    }
    Ok(())
}

/// Puts the variables with their attributes in a qualification behind the mentions.
#[cycle(mentions)]
#[tactic(auto, using(crate::proofs::MentionForms::in_true, crate::proofs::MentionForms::in_not))]
pub(crate) fn push_qual<'a>(mentions: &mut Vec<Mention<'a>>, q: &'a Qual) -> Result<(), OutOfMemory>
    ensures { OnOk result (map seen mentions.new.items ≡ map seen mentions.old.items ++ dotted (attributes_in_qual q.now)) }
{
    match q {
        Qual::True => Ok(()),
        Qual::Cmp { op: _, left, right } => {
            push_term(mentions, left)?;
            push_term(mentions, right)
        }
        Qual::And(left, right) | Qual::Or(left, right) => {
            push_qual(mentions, left.get())?;
            push_qual(mentions, right.get())
        }
        Qual::Not(inner) => push_qual(mentions, inner.get()),
    }
}

/// The variables with their attributes in a term, from left to right; of an aggregate those of its
/// term, of its by-list and of its qualification.
pub fn mentions_in_term(alloc: Global, t: &Term) -> Result<Vec<Mention<'_>>, OutOfMemory>
    ensures { IfOk result (λ found. map seen found.items ≡ dotted (attributes t.now)) }
{
    let mut mentions: Vec<Mention<'_>> = Vec::new(alloc);
    push_term(&mut mentions, t)?;
    Ok(mentions)
}

/// The same for a qualification.
pub fn mentions_in_qual(alloc: Global, q: &Qual) -> Result<Vec<Mention<'_>>, OutOfMemory>
    ensures { IfOk result (λ found. map seen found.items ≡ dotted (attributes_in_qual q.now)) }
{
    let mut mentions: Vec<Mention<'_>> = Vec::new(alloc);
    push_qual(&mut mentions, q)?;
    Ok(mentions)
}
