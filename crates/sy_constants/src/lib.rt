//! What literals and constant expressions come to.
#![tactic(auto)]

mod constants;
mod literals;
#[cfg(test)]
mod tests;

pub use constants::{binary_of, choice_of, converted_to, converted_to_type, or_unknown, unary_of};
pub use literals::{
    character_value, dimensions_written, literal_kind, literal_value, number_written,
};
