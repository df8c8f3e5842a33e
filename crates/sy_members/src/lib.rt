//! The members of the library's objects: their words, what they take, and what they give.
#![tactic(auto)]

mod commands;
mod members;
#[cfg(test)]
mod tests;
mod words;

pub use commands::member_role;
pub use members::member_row;
pub use words::{error_named, has_its_words, member_named, row_with};
