//! How evaluation goes on in code: an error, a halt and an open ask leave a function by `?`, as they pass all that
//! follows in the definitions of `sy_meaning`.
#![tactic(auto)]

mod exits;
mod stops;
#[cfg(test)]
mod tests;

pub use exits::{Exit, flow_of, leave_block};
pub use stops::{Stop, computed, leave_expression, settled};
