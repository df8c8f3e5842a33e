//! The names that are declared at a place of a source. A look-up and a declaration cost the same however many names
//! there are; leaving a scope costs what the scope declared.
#![tactic(auto)]

mod declarations;
mod names;
mod newest;
#[cfg(test)]
mod tests;

pub use names::{Declared, Names, NamesStop};
