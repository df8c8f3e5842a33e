//! What the parameters of a lambda are, and what they break.
#![tactic(auto)]

mod parameters;

pub use parameters::{first_dimensions, parameter, parameter_type, parameters_fit};
