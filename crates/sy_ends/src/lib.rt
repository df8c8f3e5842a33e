//! The ends of objects: in reverse order of making, as their scope is left. Each function is its definition of
//! `sy_meaning`.
#![tactic(auto)]

mod closing;
mod objects;
mod scopes;
#[cfg(test)]
mod tests;

pub use closing::{close_flow, close_value};
pub use objects::end_one;
pub use scopes::end_scope;
