//! Lvalues: how locals and elements are found, read and written. Each function is its definition of `sy_meaning`.
//!
//! The elements of host accesses and vectors are changed in place; each touch of a cell in a work item is a step.
#![tactic(auto)]

mod cells;
mod elements;
mod indexes;
mod locations;
#[cfg(test)]
mod tests;

pub use cells::{number_at, read_cell, write_cell};
pub use elements::{read_area, read_element, write_area, write_element};
pub use indexes::{index_accessor, index_into};
pub use locations::{load, store};
