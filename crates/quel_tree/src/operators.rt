//! Operators as bytes.

ghost use Rattle.std.specs.Prelude.{◌≡◌};
ghost use Rattle.quel_tree.specs.Operators.{arith_op, cmp_op, agg_op, update_op};
ghost use Rattle.quel_tree.specs.OperatorLaws.{arith_op_exact, cmp_op_exact, agg_op_exact, update_op_exact};

use calculus::{AggOp, ArithOp, CmpOp, UpdateOp};
use memory::OutOfMemory;
use std::alloc::Global;
use tree_words::{Fault, Reader, Spelled, Spelling, variant0};

/// The spelling of an operation on two numbers: its number, from 0 for `+` to 5 for `mod`.
pub struct ArithOpTree;

impl Spelled for ArithOpTree {
    type Value = ArithOp;

    ghost codec = { λ _. arith_op };

    ghost exact = { λ _ _. arith_op_exact };
}

#[tactic(auto, unfolding(crate::specs::Operators::arith_op))]
impl Spelling for ArithOpTree {
    fn read(_alloc: Global, _levels: u32, reader: &mut Reader) -> Result<ArithOp, Fault> {
        let left = reader.left();
        match reader.byte()? {
            0 => Ok(ArithOp::Add),
            1 => Ok(ArithOp::Sub),
            2 => Ok(ArithOp::Mul),
            3 => Ok(ArithOp::Div),
            4 => Ok(ArithOp::Pow),
            5 => Ok(ArithOp::Mod),
            _ => Err(Fault::Wrong(left)),
        }
    }

    fn write(value: &ArithOp, out: &mut Vec<u8>) -> Result<(), OutOfMemory> {
        match value {
            ArithOp::Add => variant0::<ArithOpTree>(0, value, out),
            ArithOp::Sub => variant0::<ArithOpTree>(1, value, out),
            ArithOp::Mul => variant0::<ArithOpTree>(2, value, out),
            ArithOp::Div => variant0::<ArithOpTree>(3, value, out),
            ArithOp::Pow => variant0::<ArithOpTree>(4, value, out),
            ArithOp::Mod => variant0::<ArithOpTree>(5, value, out),
        }
    }
}

/// The spelling of a comparison: its number, from 0 for `=` to 5 for `>=`.
pub struct CmpOpTree;

impl Spelled for CmpOpTree {
    type Value = CmpOp;

    ghost codec = { λ _. cmp_op };

    ghost exact = { λ _ _. cmp_op_exact };
}

#[tactic(auto, unfolding(crate::specs::Operators::cmp_op))]
impl Spelling for CmpOpTree {
    fn read(_alloc: Global, _levels: u32, reader: &mut Reader) -> Result<CmpOp, Fault> {
        let left = reader.left();
        match reader.byte()? {
            0 => Ok(CmpOp::Eq),
            1 => Ok(CmpOp::Ne),
            2 => Ok(CmpOp::Lt),
            3 => Ok(CmpOp::Le),
            4 => Ok(CmpOp::Gt),
            5 => Ok(CmpOp::Ge),
            _ => Err(Fault::Wrong(left)),
        }
    }

    fn write(value: &CmpOp, out: &mut Vec<u8>) -> Result<(), OutOfMemory> {
        match value {
            CmpOp::Eq => variant0::<CmpOpTree>(0, value, out),
            CmpOp::Ne => variant0::<CmpOpTree>(1, value, out),
            CmpOp::Lt => variant0::<CmpOpTree>(2, value, out),
            CmpOp::Le => variant0::<CmpOpTree>(3, value, out),
            CmpOp::Gt => variant0::<CmpOpTree>(4, value, out),
            CmpOp::Ge => variant0::<CmpOpTree>(5, value, out),
        }
    }
}

/// The spelling of an aggregate: its number, from 0 for `count` to 8 for `any`.
pub struct AggOpTree;

impl Spelled for AggOpTree {
    type Value = AggOp;

    ghost codec = { λ _. agg_op };

    ghost exact = { λ _ _. agg_op_exact };
}

#[tactic(auto, unfolding(crate::specs::Operators::agg_op))]
impl Spelling for AggOpTree {
    fn read(_alloc: Global, _levels: u32, reader: &mut Reader) -> Result<AggOp, Fault> {
        let left = reader.left();
        match reader.byte()? {
            0 => Ok(AggOp::Count),
            1 => Ok(AggOp::Countu),
            2 => Ok(AggOp::Sum),
            3 => Ok(AggOp::Sumu),
            4 => Ok(AggOp::Avg),
            5 => Ok(AggOp::Avgu),
            6 => Ok(AggOp::Min),
            7 => Ok(AggOp::Max),
            8 => Ok(AggOp::Any),
            _ => Err(Fault::Wrong(left)),
        }
    }

    fn write(value: &AggOp, out: &mut Vec<u8>) -> Result<(), OutOfMemory> {
        match value {
            AggOp::Count => variant0::<AggOpTree>(0, value, out),
            AggOp::Countu => variant0::<AggOpTree>(1, value, out),
            AggOp::Sum => variant0::<AggOpTree>(2, value, out),
            AggOp::Sumu => variant0::<AggOpTree>(3, value, out),
            AggOp::Avg => variant0::<AggOpTree>(4, value, out),
            AggOp::Avgu => variant0::<AggOpTree>(5, value, out),
            AggOp::Min => variant0::<AggOpTree>(6, value, out),
            AggOp::Max => variant0::<AggOpTree>(7, value, out),
            AggOp::Any => variant0::<AggOpTree>(8, value, out),
        }
    }
}

/// The spelling of what an update does: 0 for an append, 1 for a replace, 2 for a delete, 3 for a relation made of an answer.
pub struct UpdateOpTree;

impl Spelled for UpdateOpTree {
    type Value = UpdateOp;

    ghost codec = { λ _. update_op };

    ghost exact = { λ _ _. update_op_exact };
}

#[tactic(auto, unfolding(crate::specs::Operators::update_op))]
impl Spelling for UpdateOpTree {
    fn read(_alloc: Global, _levels: u32, reader: &mut Reader) -> Result<UpdateOp, Fault> {
        let left = reader.left();
        match reader.byte()? {
            0 => Ok(UpdateOp::Append),
            1 => Ok(UpdateOp::Replace),
            2 => Ok(UpdateOp::Delete),
            3 => Ok(UpdateOp::Into),
            _ => Err(Fault::Wrong(left)),
        }
    }

    fn write(value: &UpdateOp, out: &mut Vec<u8>) -> Result<(), OutOfMemory> {
        match value {
            UpdateOp::Append => variant0::<UpdateOpTree>(0, value, out),
            UpdateOp::Replace => variant0::<UpdateOpTree>(1, value, out),
            UpdateOp::Delete => variant0::<UpdateOpTree>(2, value, out),
            UpdateOp::Into => variant0::<UpdateOpTree>(3, value, out),
        }
    }
}
