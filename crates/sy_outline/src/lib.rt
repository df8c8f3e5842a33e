//! The bodies of a typed program by their numbers: those of its functions, and then those of its lambdas in the order
//! of their `[`.
#![tactic(auto)]

mod lambdas;
mod numbering;
#[cfg(test)]
mod tests;
mod views;

pub use lambdas::lambdas_of;
pub use numbering::bodies;
pub use views::{Body, Captures, function_body, lambda_body, variable_of};
