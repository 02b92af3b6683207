//! The operators of terms and qualifications.

/// An operation on two numbers.
#[derive(Clone, Copy, PartialEq, Eq)]
pub enum ArithOp {
    /// `+`
    Add,
    /// `-` between two terms
    Sub,
    /// `*`
    Mul,
    /// `/`, which cuts toward zero
    Div,
    /// `**`
    Pow,
    /// `mod`, whose sign is that of its left side
    Mod,
}

/// A comparison of two terms.
#[derive(Clone, Copy, PartialEq, Eq)]
pub enum CmpOp {
    /// `=`
    Eq,
    /// `!=`
    Ne,
    /// `<`
    Lt,
    /// `<=`
    Le,
    /// `>`
    Gt,
    /// `>=`
    Ge,
}

/// An aggregate: what is made of a term's values over many rows.
#[derive(Clone, Copy, PartialEq, Eq)]
pub enum AggOp {
    /// The number of rows.
    Count,
    /// The number of different values.
    Countu,
    /// The sum over the rows.
    Sum,
    /// The sum of the different values.
    Sumu,
    /// The mean over the rows, cut toward zero.
    Avg,
    /// The mean of the different values, cut toward zero.
    Avgu,
    /// The least value.
    Min,
    /// The greatest value.
    Max,
    /// 1 where there is a row, else 0.
    Any,
}
