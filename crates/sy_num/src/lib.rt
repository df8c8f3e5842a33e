//! The integer kinds of the language, their values, and the operators on them.
//!
//! A value is a number with its kind. The operators convert their operands as C++17 says, compute on
//! whole numbers, and then reduce the result (unsigned) or refuse it (signed).
#![tactic(auto)]

mod conversions;
mod kinds;
pub mod laws;
mod operators;
#[cfg(test)]
mod tests;

ghost use Rattle.std.specs.Prelude.{◌≡◌};
ghost use Rattle.sy_num.specs.Kinds.{InRange};
ghost use Rattle.sy_num.specs.Scalars.{scalar};

pub use conversions::convert;
pub use kinds::common_kind;
pub use operators::{apply, apply_one, result_kind, result_kind_one};
use std::marker::Model;

/// An integer type. `Bool` has one bit; `Char`, `SChar` and `UChar` have 8, `Short` 16, `Int` 32, `Long` and
/// `LLong` 64, and likewise the unsigned ones.
#[derive(Clone, Copy, PartialEq, Eq, Debug)]
pub enum Kind {
    Bool,
    Char,
    SChar,
    UChar,
    Short,
    UShort,
    Int,
    UInt,
    Long,
    ULong,
    LLong,
    ULLong,
}

/// An operator with two operands, all of which are evaluated.
#[derive(Clone, Copy, PartialEq, Eq, Debug)]
pub enum BinOp {
    Add,
    Sub,
    Mul,
    Div,
    Rem,
    Shl,
    Shr,
    And,
    Or,
    Xor,
    Eq,
    Ne,
    Lt,
    Le,
    Gt,
    Ge,
}

/// An operator with one operand: `+`, `-`, `!` and `~`.
#[derive(Clone, Copy, PartialEq, Eq, Debug)]
pub enum UnOp {
    Plus,
    Minus,
    Not,
    Flip,
}

/// Why an operator has no value.
#[derive(Clone, Copy, PartialEq, Eq, Debug)]
pub enum Undefined {
    /// The result is out of its signed kind's range, or the left operand of `<<` is negative.
    Overflow,
    ZeroDivisor,
    /// The count of a shift is negative, or not below the width of the left operand.
    Shift,
}

/// A number with its kind, in whose range it is.
#[derive(Clone, Copy, PartialEq, Eq, Debug)]
pub struct Value {
    kind: Kind,
    num: i128,
}

impl Model for Value {
    ghost use Rattle.sy_num.specs.Scalars.{Scalar};
    ghost use Rattle.sy_num.specs.Kinds.{InRange};

    ghost Value = { Scalar };

    ghost view = { λ v. record { kind = v.kind; num = v.num } };

    ghost inverse = { λ s. record { kind = s.kind; num = s.num } };

    ghost invariant = { λ v. InRange v.kind v.num };
}

impl Value {
    pub fn new(kind: Kind, num: i128) -> Value
        requires { InRange kind num }
        ensures { result ≡ scalar kind num }
    {
        Value { kind, num }
    }

    pub fn kind(&self) -> Kind
        ensures { result ≡ self.now.kind }
    {
        self.kind
    }

    pub fn num(&self) -> i128
        ensures value { result ≡ self.now.num }
        ensures in_range { InRange self.now.kind result }
    {
        self.num
    }
}
