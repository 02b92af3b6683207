//! The signs between terms.

ghost use Rattle.std.specs.Prelude.{◌≡◌, option_map};
ghost use Rattle.quel_grammar.specs.Reading.{first};
ghost use Rattle.quel_grammar.specs.Signs.{sign, sum_sign, product_sign, comparison};

use calculus::{ArithOp, CmpOp};
use quel_grammar::{Fixed, Token};

/// A sign before a term, and whether it is `-`.
pub fn sign_at(tokens: &[Token]) -> Option<(bool, &[Token])>
    ensures { option_map (λ x. (x.0, x.1.now)) result ≡ first sign tokens.now }
{
    match tokens {
        [Token::Fixed(fixed), rest @ ..] => match *fixed {
            Fixed::Minus => Some((true, rest)),
            Fixed::Plus => Some((false, rest)),
            _ => None,
        },
        _ => None,
    }
}

/// A sign between products.
pub fn sum_sign_at(tokens: &[Token]) -> Option<(ArithOp, &[Token])>
    ensures { option_map (λ x. (x.0, x.1.now)) result ≡ first sum_sign tokens.now }
{
    match tokens {
        [Token::Fixed(fixed), rest @ ..] => match *fixed {
            Fixed::Plus => Some((ArithOp::Add, rest)),
            Fixed::Minus => Some((ArithOp::Sub, rest)),
            _ => None,
        },
        _ => None,
    }
}

/// A sign between powers.
pub fn product_sign_at(tokens: &[Token]) -> Option<(ArithOp, &[Token])>
    ensures { option_map (λ x. (x.0, x.1.now)) result ≡ first product_sign tokens.now }
{
    match tokens {
        [Token::Fixed(fixed), rest @ ..] => match *fixed {
            Fixed::Times => Some((ArithOp::Mul, rest)),
            Fixed::Divide => Some((ArithOp::Div, rest)),
            _ => None,
        },
        _ => None,
    }
}

/// A sign between the sides of a comparison.
pub fn comparison_at(tokens: &[Token]) -> Option<(CmpOp, &[Token])>
    ensures { option_map (λ x. (x.0, x.1.now)) result ≡ first comparison tokens.now }
{
    match tokens {
        [Token::Fixed(fixed), rest @ ..] => match *fixed {
            Fixed::Equal => Some((CmpOp::Eq, rest)),
            Fixed::NotEqual => Some((CmpOp::Ne, rest)),
            Fixed::Less => Some((CmpOp::Lt, rest)),
            Fixed::LessEqual => Some((CmpOp::Le, rest)),
            Fixed::Greater => Some((CmpOp::Gt, rest)),
            Fixed::GreaterEqual => Some((CmpOp::Ge, rest)),
            _ => None,
        },
        _ => None,
    }
}
