//! For tests: hosts that play a script of asks, and a runner that answers outcomes from a table.
#![tactic(auto)]

mod scripts;
mod tables;

pub use scripts::{Line, Script, Scripted};
pub use tables::{TableRow, Tabled};

#[cfg(test)]
mod tests;
