//! Lists that change in place: a stack, which contracts see with its newest first, and a table, which they see in order.
#![tactic(auto)]

mod stack;
mod table;
#[cfg(test)]
mod tests;

pub use stack::Stack;
pub use table::Table;
