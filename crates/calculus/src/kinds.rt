//! The kinds of terms, and whether those of a qualification fit each other.

ghost use Rattle.std.specs.Prelude.{◌≡◌, ◌≤◌, length, map, vec_items};
ghost use Rattle.calculus.specs.Constant.{constant_text};
ghost use Rattle.calculus.specs.Replacement.{made_attr};
ghost use Rattle.calculus.specs.Kinds.{kind_of, kinds_fit, attribute_kind, constant_kind, text_width, is_number_kind, number_kind, operated_kind, joined_kind, comparable, is_text_kind};

use crate::query::{QQual, QTerm, Target};
use crate::unescaped::next_unescaped;
use crate::value::{Domain, Kind};

/// The number of bytes of a text constant, escapes removed and without the blanks at their end.
fn constant_length(written: &[u8]) -> usize
    ensures counted { result ≡ length (constant_text written.now) }
    ensures bounded { result ≤ length written.now }
{
    let mut rest = written;
    let mut read = 0;
    let mut kept = 0;
    'bytes: while let Some((unescaped_byte, behind)) = next_unescaped(rest) {
        read += 1;
        if unescaped_byte.byte != b' ' {
            kept = read;
        }
        rest = behind;
    }
    kept
}

#[tactic(auto, unfolding(crate::specs::Kinds::constant_kind))]
fn constant_kind(written: &[u8]) -> Kind
    requires { length written.now ≤ 255 }
    ensures { result ≡ constant_kind written.now }
{
    let length = constant_length(written);
    Kind::Of(Domain::C(length.max(1) as u8))
}

fn attribute_kind(vars: &[Vec<Kind>], var: u8, attr: u8) -> Option<Kind>
    ensures { result ≡ attribute_kind (map vec_items vars.now) var attr }
{
    match vars.get(var as usize) {
        None => None,
        Some(kinds) => match kinds.get(attr as usize) {
            None => None,
            Some(kind) => Some(*kind),
        },
    }
}

fn text_width(kind: Kind) -> Option<u8>
    ensures { result ≡ text_width kind }
{
    match kind {
        Kind::Of(Domain::C(width)) => Some(width),
        _ => None,
    }
}

/// Whether it is a kind of numbers.
pub fn is_number_kind(kind: Kind) -> bool
    ensures { result ≡ is_number_kind kind }
{
    match kind {
        Kind::Of(Domain::C(_)) => false,
        _ => true,
    }
}

/// Whole numbers of 64 bits where the kind is one of numbers.
#[tactic(auto, unfolding(crate::specs::Kinds::number_kind))]
pub fn number_kind(kind: Option<Kind>) -> Option<Kind>
    ensures { result ≡ number_kind kind }
{
    if is_number_kind(kind?) {
        Some(Kind::Wide)
    } else {
        None
    }
}

/// Whole numbers of 64 bits where both kinds are ones of numbers.
#[tactic(auto, unfolding(crate::specs::Kinds::operated_kind))]
pub fn operated_kind(left: Option<Kind>, right: Option<Kind>) -> Option<Kind>
    ensures { result ≡ operated_kind left right }
{
    if is_number_kind(left?) {
        number_kind(right)
    } else {
        None
    }
}

/// Texts of both widths together where both kinds are ones of texts.
#[tactic(auto, unfolding(crate::specs::Kinds::joined_kind))]
pub fn joined_kind(left: Option<Kind>, right: Option<Kind>) -> Option<Kind>
    ensures { result ≡ joined_kind left right }
{
    let (left, right) = (left?, right?);
    let front = text_width(left)?;
    let behind = text_width(right)?;
    Some(Kind::Of(Domain::C(front.saturating_add(behind))))
}

/// Whether both are there and are kinds of numbers, or both are kinds of texts.
#[tactic(auto, unfolding(crate::specs::Kinds::comparable))]
pub fn comparable(left: Option<Kind>, right: Option<Kind>) -> bool
    ensures { result ≡ comparable left right }
{
    match (left, right) {
        (Some(left), Some(right)) => is_number_kind(left) == is_number_kind(right),
        _ => false,
    }
}

/// Whether it is there and is a kind of texts.
#[tactic(auto, unfolding(crate::specs::Kinds::is_text_kind))]
pub fn is_text_kind(kind: Option<Kind>) -> bool
    ensures { result ≡ is_text_kind kind }
{
    match kind {
        Some(kind) => !is_number_kind(kind),
        None => false,
    }
}

/// The kind of the attribute that is made of a target: numbers of 64 bits become ones of 32.
pub fn made_kind(target: &Target) -> Kind
    ensures { result ≡ (made_attr target.now).kind }
{
    match target.kind {
        Kind::Wide => Kind::Of(Domain::I4),
        Kind::Of(domain) => Kind::Of(domain),
    }
}

/// The kind of a term, where `vars` has the kinds of each variable's attributes; `None` exactly where
/// a part is of the wrong kind, a place is out of range or an aggregate stands. Takes no memory.
#[tactic(auto, using(crate::proofs::KindForms::kind_int, crate::proofs::KindForms::kind_chars, crate::proofs::KindForms::kind_attr, crate::proofs::KindForms::kind_neg, crate::proofs::KindForms::kind_abs, crate::proofs::KindForms::kind_arith, crate::proofs::KindForms::kind_concat, crate::proofs::KindForms::kind_agg))]
pub fn kind_of(t: &QTerm, vars: &[Vec<Kind>]) -> Option<Kind>
    ensures { result ≡ kind_of t.now (map vec_items vars.now) }
{
    match t {
        QTerm::Int(_) => Some(Kind::Wide),
        QTerm::Chars(chars) => Some(constant_kind(chars.bytes())),
        QTerm::Attr { var, attr } => attribute_kind(vars, *var, *attr),
        QTerm::Neg(inner) => number_kind(kind_of(inner.get(), vars)),
        QTerm::Abs(inner) => number_kind(kind_of(inner.get(), vars)),
        QTerm::Arith { op: _, left, right } => {
            operated_kind(kind_of(left.get(), vars), kind_of(right.get(), vars))
        }
        QTerm::Concat { left, right } => {
            joined_kind(kind_of(left.get(), vars), kind_of(right.get(), vars))
        }
        QTerm::Agg(_) => None,
    }
}

/// Whether the qualification compares numbers with numbers and texts with texts; false also exactly
/// where a term in it has no kind. Takes no memory.
#[tactic(auto, using(crate::proofs::KindForms::fit_true, crate::proofs::KindForms::fit_cmp, crate::proofs::KindForms::fit_like, crate::proofs::KindForms::fit_and, crate::proofs::KindForms::fit_or, crate::proofs::KindForms::fit_not))]
pub fn kinds_fit(q: &QQual, vars: &[Vec<Kind>]) -> bool
    ensures { result ≡ kinds_fit q.now (map vec_items vars.now) }
{
    match q {
        QQual::True => true,
        QQual::Cmp { op: _, left, right } => comparable(kind_of(left, vars), kind_of(right, vars)),
        QQual::Like { term, .. } => is_text_kind(kind_of(term, vars)),
        QQual::And(left, right) => kinds_fit(left.get(), vars) && kinds_fit(right.get(), vars),
        QQual::Or(left, right) => kinds_fit(left.get(), vars) && kinds_fit(right.get(), vars),
        QQual::Not(inner) => kinds_fit(inner.get(), vars),
    }
}
