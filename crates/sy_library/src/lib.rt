//! What members and functions of the library mean that take no lambda. Each function is its definition of `sy_meaning`.
//!
//! What only reads takes the world by `&`. A number that its type can't hold, as a product of extents from 2^64 on, is
//! want of memory.
#![tactic(auto)]

mod devices;
mod groups;
mod items;
mod members;
mod phases;
mod sizes;
#[cfg(test)]
mod tests;
mod vectors;
mod waits;

pub use groups::group_function;
pub use items::{item_member, position};
pub use members::library_member;
pub use phases::barrier;
pub use sizes::{range_of_object, size_of};
