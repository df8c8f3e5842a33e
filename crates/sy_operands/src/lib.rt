//! Operators, casts, indexes and barriers over what is seen of their operands: what is seen of them, and which rules are
//! broken at them.
#![tactic(auto)]

mod indexes;
mod operators;

pub use indexes::{group_barrier, subscript};
pub use operators::{
    binary, cast, conditional, functional_cast, postfix, prefix, static_cast, unary,
};
