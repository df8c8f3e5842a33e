//! Ranges and ids of one to three dimensions, ranges in work-groups, and the linear ids of items.
#![tactic(auto)]

mod linear_ids;
mod nd_ranges;
mod ranges;
mod shape;

pub use linear_ids::{count, linear, linear_ids_number_a_range};
pub use nd_ranges::{BadNd, NdRange, Position, nd};
pub use ranges::{Id, Range};

#[cfg(test)]
mod tests;
