//! What the library's objects and vectors are made of, and where objects may be made and used.
#![tactic(auto)]

mod buffers;
mod foreign;
mod objects;
mod ranges;
mod rows;
#[cfg(test)]
mod tests;

pub use foreign::{foreign_to, is_accessor, is_made_in, made_in_host, type_start, type_word};
pub use rows::{fit_device_vector, fit_vector, initialized_row, is_submitted, object_row};
