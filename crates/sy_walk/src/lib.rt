//! The walk over an expression.
#![tactic(auto)]

mod arguments;
mod below;
mod calls;
mod form;
mod operators;
mod values;

pub use below::Below;
pub use values::push_both;
