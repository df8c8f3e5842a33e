//! The checker: which rule of typing a source breaks first, or its typed program.
#![tactic(auto)]

mod expressions;
mod knot;
mod sources;
#[cfg(test)]
mod tests;

pub use expressions::type_of;
pub use sources::{accept, check};
