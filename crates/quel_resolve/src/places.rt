//! Places of variables and attributes.

ghost use Rattle.std.specs.Prelude.{◌≡◌, ◌≤◌, length, position, unwrap_or, bytes_eq};
ghost use Rattle.quel_meaning.specs.Scope.{attr_place};
ghost use Rattle.quel_meaning.specs.WrittenTree.{var_place};

use calculus::{Attr, Name};

/// A place in a byte; 255 for all that are further behind.
pub(crate) fn byte(place: usize) -> u8
    ensures { place ≤ 255 → result ≡ place }
{
    place.min(255) as u8
}

fn var_found(vars: &[Name], var: &Name) -> Option<usize>
    ensures { result ≡ position (λ v. bytes_eq v var.now) vars.now }
{
    vars.iter().position(|v| v == var)
}

/// The place of a variable; 0 where it is none of these.
#[tactic(auto, using(quel_check::proofs::Found::within))]
pub(crate) fn var_place(vars: &[Name], var: &Name) -> u8
    ensures { length vars.now ≤ 256 → result ≡ var_place vars.now var.now }
{
    byte(var_found(vars, var).unwrap_or(0))
}

fn attr_found(attrs: &[Attr], name: &Name) -> Option<usize>
    ensures { result ≡ attr_place attrs.now name.now }
{
    attrs.iter().position(|a| a.name == *name)
}

/// The place of an attribute; 0 where there is none of this name.
#[tactic(auto, using(quel_check::proofs::Found::within))]
pub(crate) fn attr_place(attrs: &[Attr], name: &Name) -> u8
    ensures { length attrs.now ≤ 256 → result ≡ unwrap_or (attr_place attrs.now name.now) 0 }
{
    byte(attr_found(attrs, name).unwrap_or(0))
}
