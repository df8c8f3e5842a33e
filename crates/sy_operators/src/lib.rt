//! The parser's rules of casts and operators: those with two operands go by precedence climbing.
#![tactic(auto)]

mod operators;

pub use operators::{Operators, sees_cast};
