//! Tokens: what a text of the language is made of.

use crate::number::Number;
use calculus::{Chars, Name};

/// A token with one spelling: a reserved word or a symbol.
#[derive(Clone, Copy, PartialEq, Eq)]
pub enum Fixed {
    /// `all`
    All,
    /// `and`
    And,
    /// `append`
    Append,
    /// `by`
    By,
    /// `copy`
    Copy,
    /// `create`
    Create,
    /// `define`
    Define,
    /// `delete`
    Delete,
    /// `destroy`
    Destroy,
    /// `from`
    From,
    /// `help`
    Help,
    /// `index`
    Index,
    /// `integrity`
    Integrity,
    /// `into`
    Into,
    /// `is`
    Is,
    /// `modify`
    Modify,
    /// `not`
    Not,
    /// `of`
    Of,
    /// `on`
    On,
    /// `or`
    Or,
    /// `permit`
    Permit,
    /// `print`
    Print,
    /// `range`
    Range,
    /// `replace`
    Replace,
    /// `retrieve`
    Retrieve,
    /// `sort`
    Sort,
    /// `to`
    To,
    /// `unique`
    Unique,
    /// `view`
    View,
    /// `where`
    Where,
    /// `(`
    Open,
    /// `)`
    Close,
    /// `,`
    Comma,
    /// `.`
    Dot,
    /// `:`
    Colon,
    /// `=`
    Equal,
    /// `!=`
    NotEqual,
    /// `<`
    Less,
    /// `<=`
    LessEqual,
    /// `>`
    Greater,
    /// `>=`
    GreaterEqual,
    /// `+`
    Plus,
    /// `-`
    Minus,
    /// `*`
    Times,
    /// `/`
    Divide,
    /// `**`
    Power,
}

/// A token.
#[derive(Drop)]
pub enum Token {
    /// A name, in lower case. Where a text is read, it's no reserved word.
    Name(Name),
    /// A whole number.
    Int(Number),
    /// A text constant.
    Text(Chars),
    /// A reserved word or a symbol.
    Fixed(Fixed),
}

/// What stands at a place of a text.
#[derive(Drop)]
pub enum Piece {
    /// White space or a comment.
    White,
    /// A token.
    Token(Token),
}
