//! The bytes of strings.
#![tactic(auto)]

mod strings;
#[cfg(test)]
mod tests;

pub use strings::string_bytes;
