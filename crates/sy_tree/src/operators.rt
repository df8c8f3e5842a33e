//! Operators with two operands.

use sy_num::BinOp;

/// An operator between two operands. `&&` and `||` evaluate the right one only where it is needed.
#[derive(Clone, Copy, PartialEq, Eq, Debug)]
pub enum Operator {
    Strict(BinOp),
    LogicalAnd,
    LogicalOr,
}

#[derive(Clone, Copy, PartialEq, Eq, Debug)]
pub enum AssignmentOperator {
    Assign,
    Add,
    Sub,
    Mul,
    Div,
    Rem,
    And,
    Or,
    Xor,
    Shl,
    Shr,
}
