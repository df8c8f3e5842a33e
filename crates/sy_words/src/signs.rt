// The signs of operators, and what stands for causes and errors.

ghost use Rattle.std.specs.Prelude.{◌≡◌, IfOk};
ghost use Rattle.sy_meaning.specs.Expressions.{assignment_operator, step_operator};
ghost use Rattle.sy_meaning.specs.Outcomes.{cause_of};
ghost use Rattle.sy_meaning.specs.Statements.{error_of, error_word, error_object};

use crate::objects::of_natural;
use std::alloc::{AllocError, Global};
use sy_access::Values;
use sy_num::{BinOp, Undefined};
use sy_tree::{AssignmentOperator, Step};
use sy_typed::ErrorName;
use sy_work::{Cause, Errc};

/// The operator of a compound assignment; none of `=`.
pub fn assignment_operator(sign: AssignmentOperator) -> Option<BinOp>
    ensures { result ≡ assignment_operator sign }
{
    match sign {
        AssignmentOperator::Assign => None,
        AssignmentOperator::Add => Some(BinOp::Add),
        AssignmentOperator::Sub => Some(BinOp::Sub),
        AssignmentOperator::Mul => Some(BinOp::Mul),
        AssignmentOperator::Div => Some(BinOp::Div),
        AssignmentOperator::Rem => Some(BinOp::Rem),
        AssignmentOperator::And => Some(BinOp::And),
        AssignmentOperator::Or => Some(BinOp::Or),
        AssignmentOperator::Xor => Some(BinOp::Xor),
        AssignmentOperator::Shl => Some(BinOp::Shl),
        AssignmentOperator::Shr => Some(BinOp::Shr),
    }
}

/// The operator of `++` and `--`.
pub fn step_operator(step: Step) -> BinOp
    ensures { result ≡ step_operator step }
{
    match step {
        Step::Increment => BinOp::Add,
        Step::Decrement => BinOp::Sub,
    }
}

/// The cause of a trap at an operator that has no value.
pub fn cause_of(why: Undefined) -> Cause
    ensures { result ≡ cause_of why }
{
    match why {
        Undefined::Overflow => Cause::Overflow,
        Undefined::ZeroDivisor => Cause::ZeroDivisor,
        Undefined::Shift => Cause::Shift,
    }
}

pub fn error_of(name: ErrorName) -> Errc
    ensures { result ≡ error_of name }
{
    match name {
        ErrorName::Runtime => Errc::Runtime,
        ErrorName::NdRange => Errc::NdRange,
        ErrorName::KernelArgument => Errc::KernelArgument,
        ErrorName::Invalid => Errc::Invalid,
        ErrorName::MemoryAllocation => Errc::MemoryAllocation,
    }
}

/// The word that stands for an error code.
pub fn error_word(error: Errc) -> u64
    ensures { result ≡ error_word error }
{
    match error {
        Errc::Runtime => 0,
        Errc::NdRange => 1,
        Errc::KernelArgument => 2,
        Errc::Invalid => 3,
        Errc::MemoryAllocation => 4,
    }
}

pub fn error_object(alloc: Global, error: Errc) -> Result<Values, AllocError>
    ensures { IfOk result (λ object. object ≡ error_object error) }
{
    of_natural(alloc, error_word(error))
}
