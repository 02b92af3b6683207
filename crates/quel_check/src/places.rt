//! Places of variables and attributes, and comparisons.

ghost use Rattle.std.specs.Prelude.{◌≡◌, ◌≤◌, ◌<◌, ℕ, length, position, unwrap_or, bytes_eq, slice_get};
ghost use Rattle.quel_check.specs.Matching.{asks_for_match};
ghost use Rattle.quel_meaning.specs.Scope.{attr_place};
ghost use Rattle.quel_meaning.specs.WrittenTree.{compared, var_place};

use calculus::{Attr, CmpOp, Name, QQual, QTerm};

/// The place in a byte; where nothing was found 0, and 255 for all that are further behind.
fn byte_place(found: Option<usize>) -> u8
    ensures { unwrap_or found 0 ≤ 255 → result ≡ unwrap_or found 0 }
{
    match found {
        Some(place) => place.min(255) as u8,
        None => 0,
    }
}

fn var_found(vars: &[Name], var: &Name) -> Option<usize>
    ensures { result ≡ position (λ v. bytes_eq v var.now) vars.now }
{
    vars.iter().position(|v| v == var)
}

/// The place of a variable; 0 where it is none of these.
#[tactic(auto, using(crate::proofs::Found::within))]
pub(crate) fn var_place(vars: &[Name], var: &Name) -> u8
    ensures { length vars.now ≤ 256 → result ≡ var_place vars.now var.now }
{
    byte_place(var_found(vars, var))
}

fn attr_found(attrs: &[Attr], name: &Name) -> Option<usize>
    ensures { result ≡ attr_place attrs.now name.now }
{
    attrs.iter().position(|a| a.name == *name)
}

/// The place of an attribute; 0 where there is none of this name.
#[tactic(auto, using(crate::proofs::Found::within))]
pub(crate) fn attr_place(attrs: &[Attr], name: &Name) -> u8
    ensures { length attrs.now ≤ 256 → result ≡ unwrap_or (attr_place attrs.now name.now) 0 }
{
    byte_place(attr_found(attrs, name))
}

/// Whether a comparison with a text constant asks for a match with a pattern: that there is one, or
/// that there is none.
fn asks_for_match(op: CmpOp) -> Option<bool>
    ensures { result ≡ asks_for_match op }
{
    match op {
        CmpOp::Eq => Some(true),
        CmpOp::Ne => Some(false),
        CmpOp::Lt => None,
        CmpOp::Le => None,
        CmpOp::Gt => None,
        CmpOp::Ge => None,
    }
}

/// Two terms compared: a text constant by itself beside `=` or `!=` is a pattern for the other side,
/// the one on the right where both are constants.
pub(crate) fn compared(op: CmpOp, left: QTerm, right: QTerm) -> QQual
    ensures { result ≡ compared op left right }
{
    let Some(same) = asks_for_match(op) else {
        return QQual::Cmp { op, left, right };
    };
    match right.into_chars() {
        Ok(pattern) => QQual::Like {
            term: left,
            pattern,
            same,
        },
        Err(right) => match left.into_chars() {
            Ok(pattern) => QQual::Like {
                term: right,
                pattern,
                same,
            },
            Err(left) => QQual::Cmp { op, left, right },
        },
    }
}
